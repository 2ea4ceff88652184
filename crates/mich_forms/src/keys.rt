// Key hashes and public keys.
ghost use Rattle.std.specs.Prelude.{◌≡◌, ◌≤◌, ◌∷◌};
ghost use Rattle.std.specs.Option.{SomeIff};
ghost use Rattle.rules_data.specs.forms.Spelling.{IsKey, IsKeyHash, key_length};

use crate::short_bytes::ShortBytes;
use std::marker::Model;

/// The hash of a public key: the tag of its curve, 0 to 3, and 20 bytes.
#[derive(Clone, Copy, Debug)]
pub struct KeyHash {
    pub tag: u8,
    pub hash: [u8; 20],
}

impl Model for KeyHash {
    ghost use Rattle.std.specs.Prelude.{◌≡◌, ◌≤◌, ℕ, List, ◌∷◌, drop, length, slice_index};

    ghost Value = { List ℕ };

    ghost view = { λ k. k.tag ∷ k.hash };

    ghost invariant = { λ k. (k.tag ≤ 3) × (length k.hash ≡ 20) };

    ghost inverse = { λ l. record { tag = slice_index l 0; hash = drop 1 l } };
}

/// A public key: tag 0 and 32 bytes, or tag 1 or 2 and 33 bytes.
#[derive(Clone, Copy, Debug)]
pub struct Key {
    pub tag: u8,
    pub body: ShortBytes,
}

impl Model for Key {
    ghost use Rattle.std.specs.Prelude.{◌≡◌, ◌≤◌, ℕ, List, ◌∷◌, drop, length, slice_index};
    ghost use Rattle.rules_data.specs.forms.Spelling.{key_length};

    ghost Value = { List ℕ };

    ghost view = { λ k. k.tag ∷ k.body };

    ghost invariant = { λ k. (k.tag ≤ 2) × (length k.body ≡ key_length k.tag) };

    ghost inverse = { λ l. record { tag = slice_index l 0; body = drop 1 l } };
}

impl KeyHash {
    /// The key hash that the bytes spell, None where they spell none (Data encoding, public key hash).
    pub fn read(bytes: &[u8]) -> Option<KeyHash>
        ensures { SomeIff result (IsKeyHash bytes.now) bytes.now }
    {
        let (tag, hash) = bytes.split_first()?;
        if *tag > 3 {
            return None;
        }
        let hash = <[u8; 20]>::try_from(hash).ok()?;
        Some(KeyHash { tag: *tag, hash })
    }

    /// The spelling, of 21 bytes.
    pub fn bytes(&self) -> ShortBytes
        ensures spelling { result ≡ self.now }
        ensures valid { IsKeyHash result }
    {
        ShortBytes::joined(&[self.tag], &self.hash)
    }
}

// How many bytes follow the tag of a key.
fn key_length(tag: u8) -> usize
    ensures { result ≡ key_length tag }
{
    if tag == 0 { 32 } else { 33 }
}

impl Key {
    /// The key that the bytes spell, None where they spell none (Data encoding, public key).
    pub fn read(bytes: &[u8]) -> Option<Key>
        ensures { SomeIff result (IsKey bytes.now) bytes.now }
    {
        let (tag, body) = bytes.split_first()?;
        if *tag > 2 || body.len() != key_length(*tag) {
            return None;
        }
        let body = ShortBytes::read(body)?;
        Some(Key { tag: *tag, body })
    }

    /// The spelling, of 33 or 34 bytes.
    pub fn bytes(&self) -> ShortBytes
        ensures spelling { result ≡ self.now }
        ensures valid { IsKey result }
    {
        ShortBytes::joined(&[self.tag], self.body.as_slice())
    }
}
