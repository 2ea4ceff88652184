// The arguments of instructions that have bodies.
ghost use Rattle.std.specs.Prelude.{◌≡◌, ◌+◌, ◌<◌, ◌^◌};
ghost use Rattle.rules_text.specs.nodes.Limits.{count_limit};
ghost use Rattle.rules_text.specs.nodes.Tree.{size};
ghost use Rattle.rules_data.specs.forms.Spelling.{default_name};
ghost use Rattle.rules_code.specs.instructions.Arguments.{annotated, count_argument, type_argument};
ghost use Rattle.mich_base.specs.TypeView.{kind};
ghost use Rattle.mich_base.specs.View.{tree};
ghost use Rattle.mich_outline.specs.Answers.{found_from};
ghost use Rattle.mich_outline.specs.Attributes.{asked};
ghost use Rattle.mich_control.specs.Answers.{IsFound};

use mich_base::{Node, Texts, Ty};
use mich_forms::Entrypoint;
use mich_outline::{Attribute, TypingError, type_argument};
use mich_stackrules::{OfCount, count_argument, named_entrypoint};
use mich_typed::CheckError;
use std::alloc::Global;

/// The argument at a location as a type with an attribute. IllTyped has the location of its first fault; Memory where there is no
/// room.
pub fn type_with(
    alloc: Global,
    attribute: Attribute,
    node: &Node,
    place: u32,
) -> Result<Ty, CheckError>
    requires { place + size (tree node.now) < 2 ^ 32 }
    ensures { IsFound kind (type_argument (asked attribute) place (tree node.now)) result }
{
    match type_argument(alloc, attribute, node, place) {
        Ok(ty) => Ok(ty),
        Err(TypingError::Fault(location)) => Err(CheckError::IllTyped(location)),
        Err(TypingError::Memory) => Err(CheckError::Memory),
    }
}

// The argument at a location as a count of values.
pub(crate) fn count_of_values(node: &Node, place: u32) -> Result<u32, CheckError>
    ensures { IsFound (λ n. n) (count_argument 0 count_limit place (tree node.now)) result }
{
    match count_argument(OfCount::Drop, node, place) {
        Ok(count) => Ok(count),
        Err(TypingError::Fault(location)) => Err(CheckError::IllTyped(location)),
        Err(TypingError::Memory) => Err(CheckError::Memory),
    }
}

// The name of an entrypoint that the annotations of the instruction at a location give.
pub(crate) fn entrypoint_name(annots: &Texts, at: u32) -> Result<Entrypoint, CheckError>
    ensures { IsFound (λ name. name) (found_from at (annotated default_name annots.now)) result }
{
    match named_entrypoint(annots, at) {
        Ok(name) => Ok(name),
        Err(TypingError::Fault(location)) => Err(CheckError::IllTyped(location)),
        Err(TypingError::Memory) => Err(CheckError::Memory),
    }
}
