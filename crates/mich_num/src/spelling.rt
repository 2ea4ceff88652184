// Ints as bytes, the highest first.
ghost use Rattle.std.specs.Prelude.{◌≡◌, ◌≤◌, ◌<◌, ◌^◌, ◌-◌, ◌+ℤ◌, ◌*ℤ◌, pos, ◌≤ℤ◌, unsigned_abs, IsTrue, ◌⊎◌, drop, replicate, length, FitsSigned, SomeIff, if◌then◌else◌};
ghost use Rattle.std.specs.Int.{w128};
ghost use Rattle.rules_data.specs.numbers.Limits.{int_or_limit};
ghost use Rattle.rules_data.specs.numbers.Bytes.{least, holds_natural, natural_bytes, integer_bytes, natural_in, integer_in};
ghost use Rattle.mich_num.specs.View.{limited, word_bytes, sign, twice};

use crate::fault::NumFault;

/// The first `len` of 16 bytes; those behind are 0.
#[derive(Clone, Copy, Debug, PartialEq, Eq)]
pub struct Word {
    /// The bytes, the highest first.
    pub bytes: [u8; 16],
    /// How many of them are used.
    pub len: u8,
}

/// The bytes of an int in two's complement or of a nat, as few as hold it.
///
/// None for 0. What they spell is the number again. Michelson reference: BYTES.
pub fn to_bytes(a: i128, signed: bool) -> Word
    requires { IsTrue signed ⊎ pos 0 ≤ℤ a }
    ensures exact { word_bytes result ≡ (if signed then integer_bytes a else natural_bytes (unsigned_abs a)) }
    ensures again { (if signed then integer_in (word_bytes result) else pos (natural_in (word_bytes result))) ≡ a }
    ensures unused { drop result.len result.bytes ≡ replicate (16 - result.len) 0 }
    ensures few { result.len ≤ 16 }
{
    let len = bytes_below(if signed { twice(a) } else { a as u128 });
    let mut bytes = [0; 16];
    bytes[..len].copy_from_slice(&a.to_be_bytes()[16 - len..]);
    Word {
        bytes,
        len: len as u8,
    }
}

/// The int that bytes spell in two's complement, or the nat without a sign; 0 where there are none.
///
/// `IntegerLimit` exactly where it is outside -2^127 to 2^127 - 1. Michelson reference: INT, NAT.
pub fn from_bytes(bytes: &[u8], signed: bool) -> Result<i128, NumFault>
    ensures exact { limited result ≡ int_or_limit (if signed then integer_in bytes.now else pos (natural_in bytes.now)) }
{
    let mut value = sign(bytes, signed);
    for c in bytes {
        match followed(value, *c) {
            Some(longer) => value = longer,
            None => return Err(NumFault::IntegerLimit),
        }
    }
    Ok(value)
}

// -1 where bytes begin a negative int, else 0.
fn sign(bytes: &[u8], signed: bool) -> i128
    ensures { result ≡ sign signed bytes.now }
{
    match bytes {
        [first, ..] if signed && *first >= 128 => -1,
        _ => 0,
    }
}

// An int with one byte behind it.
fn followed(value: i128, c: u8) -> Option<i128>
    ensures { SomeIff result (FitsSigned w128 (value *ℤ pos 256 +ℤ pos c)) (value *ℤ pos 256 +ℤ pos c) }
{
    value.checked_mul(256)?.checked_add(c as i128)
}

// Twice an int, or that of its complement and 1 where it is negative: what 256^k passes where k bytes hold the int.
fn twice(a: i128) -> u128
    ensures { result ≡ twice a }
{
    if a < 0 {
        2 * (!a as u128) + 1
    } else {
        2 * (a as u128)
    }
}

// How many bytes hold a number.
fn bytes_below(number: u128) -> usize
    ensures is_least { result ≡ least (holds_natural number) 16 0 }
    ensures held { number < 256 ^ result }
    ensures few { result ≤ 16 }
{
    for k in 0..16 {
        if number >> (8 * k) == 0 {
            return k;
        }
    }
    16
}
