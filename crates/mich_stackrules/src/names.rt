// The names in instructions: of entrypoints, events and views.
ghost use Rattle.std.specs.Prelude.{◌≡◌, ◌+◌, ◌<◌, ◌^◌, [], MatchOption};
ghost use Rattle.rules_text.specs.nodes.Tree.{size, sizes, str};
ghost use Rattle.rules_data.specs.forms.Spelling.{default_name};
ghost use Rattle.rules_code.specs.instructions.Arguments.{annotated, is_view_name};
ghost use Rattle.rules_code.specs.instructions.Instructions.{emit_of, instruction, view_of};
ghost use Rattle.rules_text.specs.declared.nodes.Primitive.TheVariants.{OpContract, OpEmit};
ghost use Rattle.mich_base.specs.View.{tree, trees};
ghost use Rattle.mich_outline.specs.Answers.{IsFound, found_from};
ghost use Rattle.mich_stackrules.specs.View.{IsNoText, written};

use crate::arguments::type_of;
use crate::written::Written;
use mich_base::{Node, Nodes, Text, Texts};
use mich_forms::Entrypoint;
use mich_outline::{Attribute, TypingError, is_view_name, type_argument};
use mich_overload::{OperationRow, Simple};
use mich_types::field_name;
use std::alloc::Global;

/// The name of an entrypoint that the first field annotation gives, or `default` (Michelson reference, "SELF" and "CONTRACT").
/// Fault has the location of the instruction where the name is none of an entrypoint. Takes no memory.
#[tactic(auto, using(std::proofs::lemmas::Bool::false_from_ne_true))]
pub fn named_entrypoint(annots: &Texts, at: u32) -> Result<Entrypoint, TypingError>
    ensures { IsFound (λ name. name) (found_from at (annotated default_name annots.now)) result }
{
    let Some(name) = field_name(annots) else {
        return Ok(Entrypoint::default_entrypoint());
    };
    match Entrypoint::read(name) {
        Some(name) => Ok(name),
        None => Err(TypingError::Fault(at)),
    }
}

// The tag that the first field annotation gives, or the empty one.
#[tactic(auto, using(std::proofs::lemmas::Bool::false_from_ne_true))]
fn tag(alloc: Global, annots: &Texts, at: u32) -> Result<Text, TypingError>
    ensures { IsFound (λ tag. tag) (found_from at (annotated [] annots.now)) result }
{
    let Some(name) = field_name(annots) else {
        return Ok(Text::from_vec(Vec::new(alloc))?);
    };
    match Entrypoint::read(name) {
        Some(_) => Ok(Text::from_slice(alloc, name)?),
        None => Err(TypingError::Fault(at)),
    }
}

// CONTRACT with the name of an entrypoint and its type.
#[tactic(auto, using(crate::proofs::Found::contract_unnamed, crate::proofs::Found::contract_goes, crate::proofs::Found::contract_fails))]
pub(crate) fn contract(
    alloc: Global,
    annots: &Texts,
    args: &Nodes,
    at: u32,
) -> Result<Written, TypingError>
    requires { at + 1 + sizes (trees args.now) < 2 ^ 32 }
    ensures { IsFound written (found_from at (instruction (Some OpContract) annots.now (trees args.now))) result }
{
    let name = match named_entrypoint(annots, at) {
        Ok(name) => name,
        Err(error) => return Err(error),
    };
    match type_of(alloc, Attribute::Passable, args, at) {
        Ok(ty) => Ok(Written::Row(Simple::Operations(OperationRow::Contract(name, ty)))),
        Err(error) => Err(error),
    }
}

// EMIT with its tag, and with the type on the stack or with that type written.
#[tactic(auto, using(crate::proofs::Found::emit_unnamed, crate::proofs::Found::emit_bare, crate::proofs::Found::emit_goes, crate::proofs::Found::emit_fails))]
pub(crate) fn emit(
    alloc: Global,
    annots: &Texts,
    args: &Nodes,
    at: u32,
) -> Result<Written, TypingError>
    requires { at + 1 + sizes (trees args.now) < 2 ^ 32 }
    ensures { IsFound written (found_from at (instruction (Some OpEmit) annots.now (trees args.now))) result }
{
    let tag = match tag(alloc, annots, at) {
        Ok(tag) => tag,
        Err(error) => return Err(error),
    };
    if args.is_empty() {
        return Ok(Written::Emit(tag));
    }
    match type_of(alloc, Attribute::Pushable, args, at) {
        Ok(ty) => Ok(Written::Row(Simple::Operations(OperationRow::Emit(tag, ty)))),
        Err(error) => Err(error),
    }
}

// The text that a node is, if it is one.
fn text_of(node: &Node) -> Option<&Text>
    ensures { MatchOption result (IsNoText (tree node.now)) (λ t. tree node.now ≡ str t.now) }
{
    match node {
        Node::Str(text) => Some(text),
        _ => None,
    }
}

// VIEW with its name and the type of its output.
#[tactic(auto, using(crate::proofs::Found::view_unnamed, crate::proofs::Found::view_misnamed, crate::proofs::Found::view_goes, crate::proofs::Found::view_fails))]
pub(crate) fn view(alloc: Global, args: &Nodes, at: u32) -> Result<Written, TypingError>
    requires { at + 1 + sizes (trees args.now) < 2 ^ 32 }
    ensures { IsFound written (found_from at (view_of (trees args.now))) result }
{
    let Some((first, second)) = args.both() else {
        return Err(TypingError::Fault(at));
    };
    let Some(name) = text_of(first) else {
        return Err(TypingError::Fault(at + 1));
    };
    if !is_view_name(name.as_slice()) {
        return Err(TypingError::Fault(at + 1));
    }
    let name = name.copy(alloc)?;
    match type_argument(alloc, Attribute::Packable, second, at + 2) {
        Ok(ty) => Ok(Written::View(name, ty)),
        Err(error) => Err(error),
    }
}
