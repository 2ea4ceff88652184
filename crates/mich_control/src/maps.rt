// MAP.
ghost use Rattle.std.specs.Prelude.{◌≡◌, IfOk, option_map};
ghost use Rattle.rules_code.specs.typing.Typing.{part_kind};
ghost use Rattle.mich_base.specs.TypeView.{kind};
ghost use Rattle.mich_overload.specs.View.{kinds};
ghost use Rattle.mich_control.specs.Answers.{typing};
ghost use Rattle.mich_control.specs.Maps.{IsMapped, mapped_over, mapping_of, over_parts, made_to, target_of};

use crate::joining::same_types;
use crate::shapes::pair_of;
use crate::stacks::{pop_type, with_made, with_top};
use mich_base::{Link, Memory, Rows, Ty, copy_type};
use mich_instr::Instr;
use mich_overload::split_top;
use mich_typed::{Body, CheckError, Made};
use std::alloc::Global;

/// What MAP makes of the new parts: a list, an option, or a map with these keys.
#[derive(Drop)]
pub enum Target {
    List,
    Option,
    Map(Ty),
}

/// The stack that the body of MAP begins with, what is made of what it leaves, and the stack below.
#[derive(Drop)]
pub struct Mapping {
    pub begins: Rows<Ty>,
    pub target: Target,
    pub rest: Rows<Ty>,
}

// The type of the parts of what is on top, and what is made of new ones; none where MAP doesn't go through it.
fn mapped_parts(alloc: Global, types: &[Ty]) -> Result<Option<(Ty, Target)>, Memory>
    ensures { IfOk result (λ o. option_map (λ p. (kind p.0, target_of p.1)) o ≡ over_parts (kinds types.now)) }
{
    let Some((top, _rest)) = split_top(types) else {
        return Ok(None);
    };
    match top {
        Ty::List(part) => Ok(Some((copy_type(alloc, part.get())?, Target::List))),
        Ty::Option(part) => Ok(Some((copy_type(alloc, part.get())?, Target::Option))),
        Ty::Map(key, value) => {
            let part = pair_of(alloc, key.get(), value.get())?;
            Ok(Some((part, Target::Map(copy_type(alloc, key.get())?))))
        }
        _ => Ok(None),
    }
}

/// The stacks of MAP; none where it has no place on this stack. Memory where there is no room for them.
#[tactic(auto, using(crate::proofs::MapTyping::no_mapping, crate::proofs::MapTyping::bare_mapping))]
pub fn map_stacks(alloc: Global, types: Rows<Ty>) -> Result<Option<Mapping>, Memory>
    ensures { IfOk result (λ o. option_map mapping_of o ≡ mapped_over (kinds types)) }
{
    let Some((part, target)) = mapped_parts(alloc, types.as_slice())? else {
        return Ok(None);
    };
    let mut rest = types;
    drop(pop_type(&mut rest));
    let begins = with_top(alloc, &part, rest.as_slice())?;
    Ok(Some(Mapping {
        begins,
        target,
        rest,
    }))
}

// The type of what a body leaves on a stack; none where it fails or leaves another stack.
fn part_left(after: Option<Rows<Ty>>, rest: &Rows<Ty>) -> Option<Ty>
    ensures { option_map kind result ≡ part_kind (typing after) (kinds rest.now) }
{
    let mut ends = after?;
    let part = pop_type(&mut ends)?;
    if same_types(&ends, rest) {
        Some(part)
    } else {
        None
    }
}

fn made_to(alloc: Global, target: Target, part: Ty) -> Result<Ty, Memory>
    ensures { IfOk result (λ a. kind a ≡ made_to (target_of target) (kind part)) }
{
    let part = Link::new(alloc, part)?;
    match target {
        Target::List => Ok(Ty::List(part)),
        Target::Option => Ok(Ty::Option(part)),
        Target::Map(key) => Ok(Ty::Map(Link::new(alloc, key)?, part)),
    }
}

/// MAP with its typed body, at a location. IllTyped, at this location, where the body fails or leaves another stack below, or the
/// new type is past the limit; Memory where there is no room.
pub fn mapped(
    alloc: Global,
    target: Target,
    rest: Rows<Ty>,
    body: Body,
    at: u32,
) -> Result<Made, CheckError>
    ensures { IsMapped at (target_of target) (kinds rest) body result }
{
    let Some(part) = part_left(body.after, &rest) else {
        return Err(CheckError::IllTyped(at));
    };
    let ty = made_to(alloc, target, part)?;
    let after = with_made(ty, rest, at)?;
    Ok(Made {
        instr: Instr::Map(body.code),
        after: Some(after),
    })
}
