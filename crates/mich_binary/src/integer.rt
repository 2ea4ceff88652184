// Integers.
ghost use Rattle.std.specs.Prelude.{◌≡◌, ◌+◌, ◌*◌, ◌%◌, ◌^◌, ◌<◌, ◌≤◌, length, SomeIff};
ghost use Rattle.std.specs.List.{prefix_len};
ghost use Rattle.rules_text.specs.binary.Reading.{goes_on, groups_value, is_longer, ranged, integer_of, integer_at};
ghost use Rattle.mich_binary.specs.Results.{Gives, spot};

use crate::cursor::Cursor;
use crate::errors::DecodeError;
use rules_text::binary::DecodeKind;

// A value with one group of seven bits below it.
fn with_group(value: u128, group: u8) -> Option<u128>
    ensures { SomeIff result (group % 128 + 128 * value < 2 ^ 128) (group % 128 + 128 * value) }
{
    value.checked_mul(128)?.checked_add((group % 128) as u128)
}

// The value of groups of seven bits, where it is below 2^128.
fn groups_value(groups: &[u8]) -> Option<u128>
    ensures { SomeIff result (groups_value groups.now < 2 ^ 128) (groups_value groups.now) }
{
    let mut value = 0;
    for i in 0..groups.len() {
        value = with_group(value, groups[groups.len() - 1 - i])?;
    }
    Some(value)
}

// The absolute value of an integer by its bytes, where it is below 2^128.
fn absolute(first: u8, groups: &[u8]) -> Option<u128>
    ensures { SomeIff result (first % 64 + 64 * groups_value groups.now < 2 ^ 128) (first % 64 + 64 * groups_value groups.now) }
{
    let value = groups_value(groups)?;
    value.checked_mul(64)?.checked_add((first % 64) as u128)
}

fn is_longer(first: u8, groups: &[u8]) -> bool
    ensures { result ≡ is_longer first groups.now }
{
    match groups.last() {
        None => first == 64,
        Some(last) => *last == 0,
    }
}

fn ranged(negative: bool, absolute: u128) -> Option<i128>
    ensures { result ≡ ranged negative absolute }
{
    if !negative {
        return if absolute >= 1 << 127 {
            None
        } else {
            Some(absolute as i128)
        };
    }
    if absolute > 1 << 127 {
        None
    } else if absolute == 1 << 127 {
        Some(i128::MIN)
    } else {
        Some(-(absolute as i128))
    }
}

// The integer that bytes spell.
#[tactic(auto, using(crate::proofs::Integers::too_large))]
fn integer_of(bytes: &[u8]) -> Option<i128>
    ensures { result ≡ integer_of bytes.now }
{
    match bytes {
        [] => None,
        [first, groups @ ..] => {
            if is_longer(*first, groups) {
                return None;
            }
            match absolute(*first, groups) {
                Some(value) => ranged(*first % 128 >= 64, value),
                None => None,
            }
        }
    }
}

// How many bytes from the front on say that another follows.
#[tactic(auto, using(crate::proofs::Prefixes::prefix_laws))]
fn going_on(bytes: &[u8]) -> usize
    ensures is { result ≡ prefix_len goes_on bytes.now }
    ensures within { result ≤ length bytes.now }
{
    bytes.iter().take_while(|byte| **byte >= 128).count()
}

#[tactic(auto, unfolding(rules_text::specs::binary::Reading::integer_at))]
pub fn integer_at(cursor: Cursor<'_>) -> Result<(i128, Cursor<'_>), DecodeError>
    ensures { Gives (λ x. (x.0, spot x.1)) result (integer_at (spot cursor.entry)) }
{
    let count = going_on(cursor.left);
    if cursor.left.len() <= count {
        return Err(DecodeError::Fault(DecodeKind::BadLength, cursor.place));
    }
    let (bytes, left) = cursor.left.split_at(count + 1);
    match integer_of(bytes) {
        Some(n) => {
            let place = cursor.place + (count + 1) as u64;
            Ok((n, Cursor { place, left }))
        }
        None => Err(DecodeError::Fault(DecodeKind::BadInteger, cursor.place)),
    }
}
