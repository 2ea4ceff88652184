// The arguments of instructions without bodies.
ghost use Rattle.std.specs.Prelude.{◌≡◌, ◌+◌, ◌<◌, ◌^◌};
ghost use Rattle.rules_text.specs.nodes.Tree.{size, sizes};
ghost use Rattle.rules_code.specs.instructions.Arguments.{count_argument};
ghost use Rattle.mich_base.specs.TypeView.{kind};
ghost use Rattle.mich_base.specs.View.{tree, trees};
ghost use Rattle.mich_outline.specs.Answers.{IsFound, found_from};
ghost use Rattle.mich_outline.specs.Attributes.{asked};
ghost use Rattle.mich_overload.specs.View.{collection_row};
ghost use Rattle.mich_stackrules.specs.View.{asked_of_value, empty_map, empty_row, least, most, type_of, with_count, with_type, within, written};

use crate::written::{OfCount, OfType, Written, attribute_for, least, most, with_count, with_type};
use mich_base::{Node, Nodes, Ty};
use mich_outline::{Attribute, TypingError, type_argument};
use mich_overload::{CollectionRow, Simple};
use mich_types::behind;
use std::alloc::Global;

// The one argument as a type with an attribute.
#[tactic(auto, using(crate::proofs::Found::one_argument))]
pub(crate) fn type_of(
    alloc: Global,
    attribute: Attribute,
    args: &Nodes,
    at: u32,
) -> Result<Ty, TypingError>
    requires { at + 1 + sizes (trees args.now) < 2 ^ 32 }
    ensures { IsFound kind (found_from at (type_of (asked attribute) (trees args.now))) result }
{
    let Some(node) = args.only() else {
        return Err(TypingError::Fault(at));
    };
    type_argument(alloc, attribute, node, at + 1)
}

// An instruction with one type.
#[tactic(auto, using(crate::proofs::Found::type_goes, crate::proofs::Found::type_fails))]
pub(crate) fn one_type(
    alloc: Global,
    row: OfType,
    args: &Nodes,
    at: u32,
) -> Result<Written, TypingError>
    requires { at + 1 + sizes (trees args.now) < 2 ^ 32 }
    ensures { IsFound written (found_from at (with_type row (trees args.now))) result }
{
    match type_of(alloc, attribute_for(row), args, at) {
        Ok(ty) => Ok(Written::Row(with_type(row, ty))),
        Err(error) => Err(error),
    }
}

// A number from the least on to the most.
fn within(n: i128, least: u32, most: u32) -> Option<u32>
    ensures { result ≡ within least most n }
{
    if n >= least as i128 && n <= most as i128 {
        Some(n as u32)
    } else {
        None
    }
}

/// The argument at a location as the count of an instruction, in its range (Michelson reference, "Instructions"). Fault has that
/// location where it is none. Takes no memory.
pub fn count_argument(row: OfCount, node: &Node, place: u32) -> Result<u32, TypingError>
    ensures { IsFound (λ n. n) (count_argument (least row) (most row) place (tree node.now)) result }
{
    let Node::Int(n) = node else {
        return Err(TypingError::Fault(place));
    };
    match within(*n, least(row), most(row)) {
        Some(count) => Ok(count),
        None => Err(TypingError::Fault(place)),
    }
}

// An instruction with a count.
#[tactic(auto, using(crate::proofs::Found::count_goes, crate::proofs::Found::count_fails))]
pub(crate) fn one_count(row: OfCount, args: &Nodes, at: u32) -> Result<Written, TypingError>
    requires { at + 1 + sizes (trees args.now) < 2 ^ 32 }
    ensures { IsFound written (found_from at (with_count row (trees args.now))) result }
{
    let Some(node) = args.only() else {
        return Err(TypingError::Fault(at));
    };
    match count_argument(row, node, at + 1) {
        Ok(count) => Ok(Written::Row(with_count(row, count))),
        Err(error) => Err(error),
    }
}

// EMPTY_MAP and EMPTY_BIG_MAP.
#[tactic(auto, using(crate::proofs::Found::map_goes, crate::proofs::Found::key_fails, crate::proofs::Found::value_fails))]
pub(crate) fn empty_map(
    alloc: Global,
    big: bool,
    args: &Nodes,
    at: u32,
) -> Result<Written, TypingError>
    requires { at + 1 + sizes (trees args.now) < 2 ^ 32 }
    ensures { IsFound written (found_from at (empty_map big (trees args.now))) result }
{
    let Some((first, second)) = args.both() else {
        return Err(TypingError::Fault(at));
    };
    let key = match type_argument(alloc, Attribute::Comparable, first, at + 1) {
        Ok(key) => key,
        Err(error) => return Err(error),
    };
    match type_argument(alloc, value_attribute(big), second, behind(first, at + 1)) {
        Ok(value) => Ok(Written::Row(Simple::Collections(empty_row(big, key, value)))),
        Err(error) => Err(error),
    }
}

// What the values of a map, or of a big one, must be.
fn value_attribute(big: bool) -> Attribute
    ensures { asked result ≡ asked_of_value big }
{
    if big {
        Attribute::BigValue
    } else {
        Attribute::Any
    }
}

fn empty_row(big: bool, key: Ty, value: Ty) -> CollectionRow
    ensures { collection_row result ≡ empty_row big (kind key) (kind value) }
{
    if big {
        CollectionRow::EmptyBigMap(key, value)
    } else {
        CollectionRow::EmptyMap(key, value)
    }
}
