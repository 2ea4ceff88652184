// At most 64 bytes without an allocation.
ghost use Rattle.std.specs.Prelude.{◌≡◌, ◌+◌, ◌≤◌, [], ◌∷◌, ◌++◌, length};
ghost use Rattle.std.specs.Option.{SomeIff};

use crate::padded::padded;
use std::marker::Model;

/// At most 64 bytes: the spelling of a form.
#[derive(Clone, Copy, Debug)]
pub struct ShortBytes {
    bytes: [u8; 64],
    len: u8,
}

impl Model for ShortBytes {
    ghost use Rattle.std.specs.Prelude.{◌-◌, ℕ, List, ◌++◌, length, take, replicate};
    ghost use Rattle.mich_forms.specs.Padded.{IsPadded, padded_back, padded_len};

    ghost Value = { List ℕ };

    ghost view = { λ s. take s.len s.bytes };

    ghost invariant = { λ s. IsPadded 64 s.bytes s.len };

    ghost inverse = { λ l. record { bytes = l ++ replicate (64 - length l) 0; len = length l } };

    ghost inverse_ok = { λ a h i. record { bytes = padded_back 64 a.bytes a.len h i; len = padded_len 64 a.bytes a.len h i } };
}

impl ShortBytes {
    /// The bytes, or None where they are more than 64.
    pub fn read(bytes: &[u8]) -> Option<ShortBytes>
        ensures { SomeIff result (length bytes.now ≤ 64) bytes.now }
    {
        if bytes.len() > 64 {
            return None;
        }
        Some(ShortBytes {
            bytes: padded(bytes),
            len: bytes.len() as u8,
        })
    }

    /// Both lists of bytes, one after the other.
    pub fn joined(first: &[u8], second: &[u8]) -> ShortBytes
        requires { length first.now + length second.now ≤ 64 }
        ensures { result ≡ first.now ++ second.now }
    {
        let end = first.len() + second.len();
        let mut bytes = padded(first);
        bytes[first.len()..end].copy_from_slice(second);
        ShortBytes {
            bytes,
            len: end as u8,
        }
    }

    /// How many bytes there are, at most 64.
    pub fn len(&self) -> usize
        ensures count { result ≡ length self.now }
        ensures limit { result ≤ 64 }
    {
        self.len as usize
    }

    /// The bytes.
    pub fn as_slice(&self) -> &[u8]
        ensures bytes { result.now ≡ self.now }
        ensures limit { length self.now ≤ 64 }
    {
        &self.bytes[..self.len as usize]
    }
}
