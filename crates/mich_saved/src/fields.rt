// Numbers, marks and fields.
ghost use Rattle.std.specs.Prelude.{◌≡◌, ◌<◌, ◌^◌, length, IfOk};
ghost use Rattle.std.specs.Int.{w32, w64, w128};
ghost use Rattle.rules_text.specs.nodes.Tree.{size};
ghost use Rattle.mich_base.specs.View.{tree};
ghost use Rattle.rules_files.specs.snapshots.Reading.{taken, number_at, signed_at, mark_at, field_at, node_at};
ghost use Rattle.mich_saved.specs.Results.{Gives, spot};

use crate::cursor::Cursor;
use crate::errors::LoadError;
use mich_base::Node;
use mich_binary::{DecodeError, decode};
use std::alloc::Global;

/// So many bytes.
#[tactic(auto, unfolding(rules_files::specs::snapshots::Reading::taken))]
pub fn taken<'a>(count: usize, cursor: Cursor<'a>) -> Result<(&'a [u8], Cursor<'a>), LoadError>
    ensures given { Gives (λ x. (x.0.now, spot x.1)) result (taken count (spot cursor.entry)) }
    ensures so_many { IfOk result (λ x. length x.0.now ≡ count) }
{
    let left = cursor.left;
    if left.len() < count {
        return Err(LoadError::BadForm(cursor.place));
    }
    let (front, left) = left.split_at(count);
    let place = cursor.place + count as u64;
    Ok((front, Cursor { place, left }))
}

/// The bytes of an array.
pub fn array_at<const N: usize>(cursor: Cursor<'_>) -> Result<([u8; N], Cursor<'_>), LoadError>
    ensures { Gives (λ x. (x.0, spot x.1)) result (taken N (spot cursor.entry)) }
{
    let (bytes, after) = taken(N, cursor)?;
    match <[u8; N]>::try_from(bytes) {
        Ok(array) => Ok((array, after)),
        Err(_) => Err(LoadError::BadForm(cursor.place)),
    }
}

/// A number of four bytes.
#[tactic(auto, unfolding(rules_files::specs::snapshots::Reading::number_at))]
pub fn four_at(cursor: Cursor<'_>) -> Result<(u32, Cursor<'_>), LoadError>
    ensures { Gives (λ x. (x.0, spot x.1)) result (number_at w32 (spot cursor.entry)) }
{
    let (bytes, after) = array_at(cursor)?;
    Ok((u32::from_be_bytes(bytes), after))
}

/// A number of eight bytes.
#[tactic(auto, unfolding(rules_files::specs::snapshots::Reading::number_at))]
pub fn eight_at(cursor: Cursor<'_>) -> Result<(u64, Cursor<'_>), LoadError>
    ensures { Gives (λ x. (x.0, spot x.1)) result (number_at w64 (spot cursor.entry)) }
{
    let (bytes, after) = array_at(cursor)?;
    Ok((u64::from_be_bytes(bytes), after))
}

#[tactic(auto, unfolding(rules_files::specs::snapshots::Reading::number_at, rules_files::specs::snapshots::Reading::signed_at))]
/// A number of eight bytes in two's complement.
pub fn signed_eight_at(cursor: Cursor<'_>) -> Result<(i64, Cursor<'_>), LoadError>
    ensures { Gives (λ x. (x.0, spot x.1)) result (signed_at w64 (spot cursor.entry)) }
{
    let (bytes, after) = array_at(cursor)?;
    Ok((i64::from_be_bytes(bytes), after))
}

#[tactic(auto, unfolding(rules_files::specs::snapshots::Reading::number_at, rules_files::specs::snapshots::Reading::signed_at))]
/// A number of sixteen bytes in two's complement.
pub fn signed_sixteen_at(cursor: Cursor<'_>) -> Result<(i128, Cursor<'_>), LoadError>
    ensures { Gives (λ x. (x.0, spot x.1)) result (signed_at w128 (spot cursor.entry)) }
{
    let (bytes, after) = array_at(cursor)?;
    Ok((i128::from_be_bytes(bytes), after))
}

/// A byte that is 0 or 1.
#[tactic(auto, unfolding(rules_files::specs::snapshots::Reading::mark_at))]
pub fn mark_at(cursor: Cursor<'_>) -> Result<(bool, Cursor<'_>), LoadError>
    ensures { Gives (λ x. (x.0, spot x.1)) result (mark_at (spot cursor.entry)) }
{
    match cursor.left {
        [0, left @ ..] => {
            let place = cursor.place + 1;
            Ok((false, Cursor { place, left }))
        }
        [1, left @ ..] => {
            let place = cursor.place + 1;
            Ok((true, Cursor { place, left }))
        }
        _ => Err(LoadError::BadForm(cursor.place)),
    }
}

/// Four bytes of length and so many bytes: one field.
#[tactic(auto, unfolding(rules_files::specs::snapshots::Reading::field_at))]
pub fn field_at(cursor: Cursor<'_>) -> Result<(&[u8], Cursor<'_>), LoadError>
    ensures given { Gives (λ x. (x.0.now, spot x.1)) result (field_at (spot cursor.entry)) }
    ensures short { IfOk result (λ x. length x.0.now < 2 ^ 32) }
{
    let (count, after) = four_at(cursor)?;
    let count = count as usize;
    let left = after.left;
    if left.len() < count {
        return Err(LoadError::BadForm(cursor.place));
    }
    let (front, left) = left.split_at(count);
    let place = after.place + count as u64;
    Ok((front, Cursor { place, left }))
}

/// A field whose bytes are the binary form of a node.
#[tactic(auto, unfolding(rules_files::specs::snapshots::Reading::node_at))]
pub fn node_at<'a>(alloc: Global, cursor: Cursor<'a>) -> Result<(Node, Cursor<'a>), LoadError>
    ensures given { Gives (λ x. (tree x.0, spot x.1)) result (node_at (spot cursor.entry)) }
    ensures few { IfOk result (λ x. size (tree x.0) < 2 ^ 32) }
{
    let (bytes, after) = field_at(cursor)?;
    match decode(alloc, bytes) {
        Ok(node) => Ok((node, after)),
        Err(DecodeError::Fault(_, _)) => Err(LoadError::BadForm(cursor.place)),
        Err(DecodeError::Memory) => Err(LoadError::Memory),
    }
}
