// What an instruction or a section is given: a type with an attribute, the name of a view.
ghost use Rattle.std.specs.Prelude.{◌≡◌, ◌+◌, ◌<◌, ◌^◌};
ghost use Rattle.rules_text.specs.nodes.Tree.{size};
ghost use Rattle.rules_code.specs.instructions.Arguments.{is_view_name, type_argument};
ghost use Rattle.mich_base.specs.TypeView.{kind};
ghost use Rattle.mich_base.specs.View.{tree};
ghost use Rattle.mich_outline.specs.Answers.{IsFound};
ghost use Rattle.mich_outline.specs.Attributes.{asked};

use crate::error::TypingError;
use mich_base::{Node, Ty};
use mich_forms::all_name_bytes;
use mich_types::{
    TypeError, big_value, comparable, packable, passable, pushable, storable, type_at,
};
use std::alloc::Global;

/// What a type must be (Michelson reference, "Types").
#[derive(Clone, Copy, Debug)]
pub enum Attribute {
    Any,
    Comparable,
    Passable,
    Storable,
    Pushable,
    Packable,
    BigValue,
}

fn has(ty: &Ty, attribute: Attribute) -> bool
    ensures { result ≡ asked attribute (kind ty.now) }
{
    match attribute {
        Attribute::Any => true,
        Attribute::Comparable => comparable(ty),
        Attribute::Passable => passable(ty),
        Attribute::Storable => storable(ty),
        Attribute::Pushable => pushable(ty),
        Attribute::Packable => packable(ty),
        Attribute::BigValue => big_value(ty),
    }
}

/// The argument at a location as a type with an attribute (Michelson reference, "Instructions"). Fault has the location of the
/// node that is no type, or that of the argument where the type lacks the attribute or has more than 2,000 nodes. Memory where
/// there is no room.
pub fn type_argument(
    alloc: Global,
    attribute: Attribute,
    node: &Node,
    place: u32,
) -> Result<Ty, TypingError>
    requires { place + size (tree node.now) < 2 ^ 32 }
    ensures { IsFound kind (type_argument (asked attribute) place (tree node.now)) result }
{
    match type_at(alloc, node, place) {
        Ok(ty) => {
            if has(&ty, attribute) {
                Ok(ty)
            } else {
                Err(TypingError::Fault(place))
            }
        }
        Err(TypeError::BadType(location)) => Err(TypingError::Fault(location)),
        Err(TypeError::TypeTooLarge) => Err(TypingError::Fault(place)),
        Err(TypeError::RepeatedEntrypoint(_) | TypeError::Memory) => Err(TypingError::Memory),
    }
}

/// Whether a view may have this name: at most 31 characters of `A-Z a-z 0-9 _ . % @` (Michelson reference, "VIEW"). Takes no
/// memory.
pub fn is_view_name(name: &[u8]) -> bool
    ensures { result ≡ is_view_name name.now }
{
    name.len() <= 31 && all_name_bytes(name)
}
