// Addresses: a place and an entrypoint.
ghost use Rattle.std.specs.Prelude.{◌≡◌, option_map, true};
ghost use Rattle.std.specs.Option.{IfSome, SomeIff};
ghost use Rattle.rules_data.specs.forms.Spelling.{IsAddress, IsEntrypoint, IsPlace, entrypoint_of, is_written_entrypoint, place_of, written_entrypoint};
ghost use Rattle.mich_forms.specs.Spelled.{address_bytes, place_bytes};
ghost use Rattle.mich_forms.specs.declared.addresses.Address.{Address};

use crate::entrypoints::Entrypoint;
use crate::places::Place;
use crate::short_bytes::ShortBytes;

/// A place and one of its entrypoints.
#[derive(Clone, Copy, Debug)]
pub struct Address {
    pub place: Place,
    pub entrypoint: Entrypoint,
}

// The entrypoint that an address names by these bytes after its place.
fn named_entrypoint(written: &[u8]) -> Option<Entrypoint>
    ensures written { SomeIff (option_map written_entrypoint result) (is_written_entrypoint written.now ≡ true) written.now }
    ensures name { IfSome result (λ e. IsEntrypoint e) }
{
    if written.is_empty() {
        return Some(Entrypoint::default_entrypoint());
    }
    let entrypoint = Entrypoint::read(written)?;
    if entrypoint.is_default() {
        return None;
    }
    Some(entrypoint)
}

// The address that the bytes spell.
fn read_address(bytes: &[u8]) -> Option<Address>
    ensures spelled { SomeIff (option_map address_bytes result) (IsAddress bytes.now) bytes.now }
    ensures parts { IfSome result (λ a. IsPlace (place_bytes a.place) × IsEntrypoint a.entrypoint) }
{
    let (place, written) = bytes.split_at_checked(22)?;
    let place = Place::read(place)?;
    let entrypoint = named_entrypoint(written)?;
    Some(Address { place, entrypoint })
}

impl Address {
    /// The address that the bytes spell, None where they spell none (Michelson reference, address).
    pub fn read(bytes: &[u8]) -> Option<Address>
        ensures spelled { SomeIff (option_map address_bytes result) (IsAddress bytes.now) bytes.now }
        ensures parts { IfSome result (λ a. (place_bytes a.place ≡ place_of bytes.now) × (a.entrypoint ≡ entrypoint_of bytes.now)) }
        ensures valid { IfSome result (λ a. IsPlace (place_bytes a.place) × IsEntrypoint a.entrypoint) }
        ensures only { (a : Address) → IsPlace (place_bytes a.place) → IsEntrypoint a.entrypoint
            → address_bytes a ≡ bytes.now → result ≡ Some a }
    {
        read_address(bytes)
    }

    /// The spelling, of 22 to 53 bytes: `default` is not written.
    pub fn bytes(&self) -> ShortBytes
        ensures spelling { result ≡ address_bytes self.now }
        ensures valid { IsAddress result }
    {
        let place = self.place.bytes();
        if self.entrypoint.is_default() {
            return place;
        }
        ShortBytes::joined(place.as_slice(), self.entrypoint.as_slice())
    }
}
