// Names of entrypoints.
ghost use Rattle.std.specs.Prelude.{◌≡◌, ◌↔◌, IsTrue};
ghost use Rattle.std.specs.List.{list_all};
ghost use Rattle.std.specs.Option.{SomeIff};
ghost use Rattle.rules_data.specs.forms.Spelling.{IsEntrypoint, default_name, is_name_byte};

use crate::padded::padded;
use std::marker::Model;

/// The name of an entrypoint: 1 to 31 characters of `A-Z a-z 0-9 _ . % @`.
#[derive(Clone, Copy, Debug)]
pub struct Entrypoint {
    bytes: [u8; 31],
    len: u8,
}

impl Model for Entrypoint {
    ghost use Rattle.std.specs.Prelude.{◌-◌, ℕ, List, ◌++◌, length, take, replicate};
    ghost use Rattle.rules_data.specs.forms.Spelling.{IsEntrypoint};
    ghost use Rattle.mich_forms.specs.Padded.{IsPadded, padded_back, padded_len};

    ghost Value = { List ℕ };

    ghost view = { λ e. take e.len e.bytes };

    ghost invariant = { λ e. IsPadded 31 e.bytes e.len × IsEntrypoint (take e.len e.bytes) };

    ghost inverse = { λ l. record { bytes = l ++ replicate (31 - length l) 0; len = length l } };

    ghost inverse_ok = { λ a h i. record { bytes = padded_back 31 a.bytes a.len h.0 i; len = padded_len 31 a.bytes a.len h.0 i } };
}

// Whether a name may have this character.
fn is_name_byte(c: u8) -> bool
    ensures { result ≡ is_name_byte c }
{
    c.is_ascii_alphanumeric() || c == b'_' || c == b'.' || c == b'%' || c == b'@'
}

/// Whether a name has no other characters than `A-Z a-z 0-9 _ . % @` (Michelson reference, entrypoints).
pub fn all_name_bytes(name: &[u8]) -> bool
    ensures { result ≡ list_all is_name_byte name.now }
{
    name.iter().all(|c| is_name_byte(*c))
}

impl Entrypoint {
    /// The entrypoint of this name, None where it is no name of one (Michelson reference, entrypoints).
    pub fn read(name: &[u8]) -> Option<Entrypoint>
        ensures { SomeIff result (IsEntrypoint name.now) name.now }
    {
        if name.is_empty() || name.len() > 31 || !all_name_bytes(name) {
            return None;
        }
        Some(Entrypoint {
            bytes: padded(name),
            len: name.len() as u8,
        })
    }

    /// The entrypoint `default`.
    pub fn default_entrypoint() -> Entrypoint
        ensures { result ≡ default_name }
    {
        Entrypoint {
            bytes: padded(b"default"),
            len: 7,
        }
    }

    /// The name.
    pub fn as_slice(&self) -> &[u8]
        ensures name { result.now ≡ self.now }
        ensures valid { IsEntrypoint self.now }
    {
        &self.bytes[..self.len as usize]
    }

    /// Whether it is `default`.
    pub fn is_default(&self) -> bool
        ensures { IsTrue result ↔ (self.now ≡ default_name) }
    {
        self.as_slice() == b"default".as_slice()
    }
}
