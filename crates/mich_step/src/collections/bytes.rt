// Bytes that are joined and cut.
ghost use Rattle.std.specs.Prelude.{◌≡◌, ◌++◌, ◌<◌, ◌≤◌, ◌+◌, ◌≤ℤ◌, pos, length, take, drop, option_map, unsigned_abs, IfOk};
ghost use Rattle.rules_text.specs.nodes.Limits.{byte_limit};
ghost use Rattle.rules_code.specs.steps.Texts.{bytes_of, joined, slice};
ghost use Rattle.mich_stack.specs.Views.{Sight, seen};
ghost use Rattle.mich_step.specs.collections.Seen.{vals_by};
ghost use Rattle.mich_step.specs.collections.Sizes.{IsWithinSize};

use mich_base::{BYTE_LIMIT, Link, Memory};
use mich_term::{Chain, Value, split_head};
use std::alloc::Global;

// Bytes, one list behind the other. None where they are over the limit.
pub(crate) fn join(alloc: Global, first: &[u8], second: &[u8]) -> Result<Option<Vec<u8>>, Memory>
    ensures { IfOk result (λ o. IsWithinSize (first.now ++ second.now) (option_map (λ v. v.items) o)) }
{
    if first.len() + second.len() > BYTE_LIMIT {
        return Ok(None);
    }
    let mut bytes = Vec::with_capacity(alloc, first.len() + second.len())?;
    bytes.extend_from_slice(first)?;
    bytes.extend_from_slice(second)?;
    Ok(Some(bytes))
}

/// The bytes of a string or of bytes; none of another value.
pub fn bytes_of(value: &Value) -> &[u8]
    ensures { (big : Sight) → result.now ≡ bytes_of (seen big value.now) }
{
    match value {
        Value::Text(text) => text.as_slice(),
        Value::Bytes(bytes) => bytes.as_slice(),
        _ => &[],
    }
}

// The bytes of the elements of a list, one behind the other. None where they are over the limit.
pub(crate) fn join_all(alloc: Global, list: &Link<Chain<Value>>) -> Result<Option<Vec<u8>>, Memory>
    ensures { IfOk result (λ o. (big : Sight) → IsWithinSize (joined (vals_by big list.now)) (option_map (λ v. v.items) o)) }
{
    let mut bytes = Vec::new(alloc);
    let mut left = list.get().as_reversed_slice();
    while let Some((value, rest)) = split_head(left) {
        let more = bytes_of(value);
        if bytes.len() + more.len() > BYTE_LIMIT {
            return Ok(None);
        }
        bytes.extend_from_slice(more)?;
        left = rest;
    }
    Ok(Some(bytes))
}

/// So many bytes from an offset. None where the offset isn't within, or there are not so many behind it (Michelson reference, "SLICE").
pub fn cut(bytes: &[u8], offset: i128, count: i128) -> Option<&[u8]>
    requires offset { pos 0 ≤ℤ offset }
    requires count { pos 0 ≤ℤ count }
    ensures { option_map (λ s. s.now) result ≡ slice (unsigned_abs offset) (unsigned_abs count) bytes.now }
{
    let len = bytes.len();
    if offset >= len as i128 || count > len as i128 - offset {
        return None;
    }
    let start = offset as usize;
    let end = start + count as usize;
    Some(&bytes[start..end])
}
