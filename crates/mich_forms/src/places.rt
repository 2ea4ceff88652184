// Places: implicit accounts and contracts.
ghost use Rattle.std.specs.Prelude.{◌≡◌, [], ◌∷◌, ◌++◌, length, option_map, slice_index};
ghost use Rattle.std.specs.Option.{SomeIff};
ghost use Rattle.rules_data.specs.forms.Spelling.{IsPlace};
ghost use Rattle.mich_forms.specs.Spelled.{place_bytes};
ghost use Rattle.mich_forms.specs.declared.places.Place.{Place};

use crate::keys::KeyHash;
use crate::short_bytes::ShortBytes;

/// Where mutez and tickets are held: an implicit account, by its key hash, or a contract, by its 20 bytes.
#[derive(Clone, Copy, Debug)]
pub enum Place {
    Implicit(KeyHash),
    Contract([u8; 20]),
}

// The 20 bytes of a contract, which a 0 ends.
#[tactic(auto, using(crate::proofs::Joining::zero_ended))]
fn contract_hash(bytes: &[u8]) -> Option<[u8; 20]>
    ensures { SomeIff (option_map (λ h. h ++ 0 ∷ []) result) ((length bytes.now ≡ 21) × (slice_index bytes.now 20 ≡ 0)) bytes.now }
{
    if bytes.len() != 21 || bytes[20] != 0 {
        return None;
    }
    let mut hash = [0; 20];
    hash.copy_from_slice(&bytes[..20]);
    Some(hash)
}

// The place that the bytes spell.
fn read_place(bytes: &[u8]) -> Option<Place>
    ensures { SomeIff (option_map place_bytes result) (IsPlace bytes.now) bytes.now }
{
    let (kind, rest) = bytes.split_first()?;
    match *kind {
        0 => {
            let key_hash = KeyHash::read(rest)?;
            Some(Place::Implicit(key_hash))
        }
        1 => {
            let hash = contract_hash(rest)?;
            Some(Place::Contract(hash))
        }
        _ => None,
    }
}

impl Place {
    /// The place that the bytes spell, None where they spell none (Data encoding, contract id).
    pub fn read(bytes: &[u8]) -> Option<Place>
        ensures spelled { SomeIff (option_map place_bytes result) (IsPlace bytes.now) bytes.now }
        ensures only { (p : Place) → IsPlace (place_bytes p) → place_bytes p ≡ bytes.now → result ≡ Some p }
    {
        read_place(bytes)
    }

    /// The spelling, of 22 bytes.
    pub fn bytes(&self) -> ShortBytes
        ensures spelling { result ≡ place_bytes self.now }
        ensures valid { IsPlace result }
    {
        match self {
            Place::Implicit(key_hash) => ShortBytes::joined(&[0, key_hash.tag], &key_hash.hash),
            Place::Contract(hash) => ShortBytes::joined(
                ShortBytes::joined(&[1], hash).as_slice(),
                &[0],
            ),
        }
    }
}
