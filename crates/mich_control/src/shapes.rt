// The stacks that instructions with branches and loops ask for.
ghost use Rattle.std.specs.Prelude.{◌≡◌, ◌∷◌, ◌++◌, [], drop, Some, IfOk, option_map};
ghost use Rattle.rules_data.specs.types.Kind.{pair};
ghost use Rattle.mich_base.specs.TypeView.{kind};
ghost use Rattle.mich_overload.specs.View.{kinds};
ghost use Rattle.mich_instr.specs.View.{code, codes};
ghost use Rattle.mich_control.specs.declared.form.Branch.TheVariants as branch;
ghost use Rattle.mich_control.specs.declared.form.Loop.TheVariants as loop;
ghost use Rattle.mich_control.specs.Begun.{branched, looped, turning, turning_on};
ghost use Rattle.mich_control.specs.View.{branch_code, loop_code, tops_of, turning_of};

use crate::form::{Branch, Loop};
use crate::stacks::{copied, only, push_type, stacked, without};
use mich_base::{Link, Memory, Rows, Ty, copy_type};
use mich_instr::{Block, Instr};
use mich_overload::split_top;
use std::alloc::Global;

/// The stacks of two branches.
pub type Both = (Rows<Ty>, Rows<Ty>);

/// The stacks of the two branches, the first of which is copied; none where the instruction has no place on this stack.
/// Memory where there is no room for them.
pub fn branch_stacks(alloc: Global, branch: Branch, types: Rows<Ty>) -> Result<Option<Both>, Memory>
    ensures { IfOk result (λ o. option_map (λ p. (kinds p.0, kinds p.1)) o ≡ branched branch (kinds types)) }
{
    let Some((top, _rest)) = split_top(types.as_slice()) else {
        return Ok(None);
    };
    let Some((first, second)) = branch_tops(alloc, branch, top)? else {
        return Ok(None);
    };
    let rest = without(types, 1);
    let copy = copied(alloc, rest.as_slice())?;
    let one = stacked(first, copy)?;
    let other = stacked(second, rest)?;
    Ok(Some((one, other)))
}

// What each branch finds on the rest of the stack.
fn branch_tops(alloc: Global, branch: Branch, top: &Ty) -> Result<Option<Both>, Memory>
    ensures { IfOk result (λ o. option_map (λ p. (kinds p.0, kinds p.1)) o ≡ branched branch (kind top.now ∷ [])) }
{
    match branch {
        Branch::Bool => Ok(bool_tops(alloc, top)),
        Branch::None => none_tops(alloc, top),
        Branch::Left => left_tops(alloc, top),
        Branch::Cons => cons_tops(alloc, top),
    }
}

fn bool_tops(alloc: Global, top: &Ty) -> Option<Both>
    ensures { option_map (λ p. (kinds p.0, kinds p.1)) result ≡ branched branch.Bool (kind top.now ∷ []) }
{
    match top {
        Ty::Bool => Some((Rows::new(alloc), Rows::new(alloc))),
        _ => None,
    }
}

fn none_tops(alloc: Global, top: &Ty) -> Result<Option<Both>, Memory>
    ensures { IfOk result (λ o. option_map (λ p. (kinds p.0, kinds p.1)) o ≡ branched branch.None (kind top.now ∷ [])) }
{
    match top {
        Ty::Option(part) => Ok(Some((Rows::new(alloc), only(alloc, part.get())?))),
        _ => Ok(None),
    }
}

fn left_tops(alloc: Global, top: &Ty) -> Result<Option<Both>, Memory>
    ensures { IfOk result (λ o. option_map (λ p. (kinds p.0, kinds p.1)) o ≡ branched branch.Left (kind top.now ∷ [])) }
{
    match top {
        Ty::Or(left, right) => {
            let first = only(alloc, left.get())?;
            Ok(Some((first, only(alloc, right.get())?)))
        }
        _ => Ok(None),
    }
}

fn cons_tops(alloc: Global, top: &Ty) -> Result<Option<Both>, Memory>
    ensures { IfOk result (λ o. option_map (λ p. (kinds p.0, kinds p.1)) o ≡ branched branch.Cons (kind top.now ∷ [])) }
{
    match top {
        Ty::List(part) => {
            let mut first = only(alloc, top)?;
            push_type(&mut first, copy_type(alloc, part.get())?)?;
            Ok(Some((first, Rows::new(alloc))))
        }
        _ => Ok(None),
    }
}

/// The instruction with two branches.
pub fn branch_instr(branch: Branch, first: Block, second: Block) -> Instr
    ensures { code result ≡ branch_code branch (codes first) (codes second) }
{
    match branch {
        Branch::Bool => Instr::If(first, second),
        Branch::None => Instr::IfNone(first, second),
        Branch::Left => Instr::IfLeft(first, second),
        Branch::Cons => Instr::IfCons(first, second),
    }
}

/// The stack that the body of a loop begins with, and the one that it must end with. Behind the loop so many values on top
/// of that are gone, and these are in their place.
#[derive(Drop)]
pub struct Turning {
    pub begins: Rows<Ty>,
    pub ends: Rows<Ty>,
    pub over: usize,
    pub leaves: Rows<Ty>,
}

// What the body of a loop finds on the rest of the stack, what it must leave on it, and what is on it behind the loop.
#[derive(Drop)]
pub(crate) struct Tops {
    pub(crate) begins: Rows<Ty>,
    pub(crate) ends: Rows<Ty>,
    pub(crate) leaves: Rows<Ty>,
}

/// The stacks of a loop, of which the first is copied; none where the instruction has no place on this stack. Memory where
/// there is no room for them.
pub fn loop_stacks(alloc: Global, turns: Loop, types: Rows<Ty>) -> Result<Option<Turning>, Memory>
    ensures { IfOk result (λ o. option_map turning_of o ≡ looped turns (kinds types)) }
{
    let Some((top, _rest)) = split_top(types.as_slice()) else {
        return Ok(None);
    };
    let Some(tops) = loop_tops(alloc, turns, top)? else {
        return Ok(None);
    };
    let turning = turning_over(alloc, tops, without(types, 1))?;
    Ok(Some(turning))
}

fn turning_over(alloc: Global, tops: Tops, rest: Rows<Ty>) -> Result<Turning, Memory>
    ensures { IfOk result (λ t. turning_of t ≡ turning_on (tops_of tops) (kinds rest)) }
{
    let copy = copied(alloc, rest.as_slice())?;
    let begins = stacked(tops.begins, copy)?;
    let over = tops.ends.len();
    let ends = stacked(tops.ends, rest)?;
    Ok(Turning {
        begins,
        ends,
        over,
        leaves: tops.leaves,
    })
}

/// The stack behind a loop, of the one that its body must end with. Memory where there is no room for it.
pub fn behind_loop(ends: Rows<Ty>, over: usize, leaves: Rows<Ty>) -> Result<Rows<Ty>, Memory>
    ensures { IfOk result (λ ts. kinds ts ≡ kinds leaves ++ drop over (kinds ends)) }
{
    let below = without(ends, over);
    let after = stacked(leaves, below)?;
    Ok(after)
}

fn loop_tops(alloc: Global, turns: Loop, top: &Ty) -> Result<Option<Tops>, Memory>
    ensures { IfOk result (λ o. option_map tops_of o ≡ looped turns (kind top.now ∷ [])) }
{
    match turns {
        Loop::Bool => bool_turning(alloc, top),
        Loop::Left => left_turning(alloc, top),
        Loop::Parts => parts_turning(alloc, top),
    }
}

fn bool_turning(alloc: Global, top: &Ty) -> Result<Option<Tops>, Memory>
    ensures { IfOk result (λ o. option_map tops_of o ≡ looped loop.Bool (kind top.now ∷ [])) }
{
    match top {
        Ty::Bool => Ok(Some(Tops {
            begins: Rows::new(alloc),
            ends: only(alloc, top)?,
            leaves: Rows::new(alloc),
        })),
        _ => Ok(None),
    }
}

fn left_turning(alloc: Global, top: &Ty) -> Result<Option<Tops>, Memory>
    ensures { IfOk result (λ o. option_map tops_of o ≡ looped loop.Left (kind top.now ∷ [])) }
{
    match top {
        Ty::Or(left, right) => Ok(Some(Tops {
            begins: only(alloc, left.get())?,
            ends: only(alloc, top)?,
            leaves: only(alloc, right.get())?,
        })),
        _ => Ok(None),
    }
}

// What ITER finds, whose parts have this type.
fn over_parts(alloc: Global, part: &Ty) -> Result<Option<Tops>, Memory>
    ensures { IfOk result (λ o. option_map tops_of o ≡ Some (turning (kind part.now ∷ []) [] [])) }
{
    Ok(Some(Tops {
        begins: only(alloc, part)?,
        ends: Rows::new(alloc),
        leaves: Rows::new(alloc),
    }))
}

fn parts_turning(alloc: Global, top: &Ty) -> Result<Option<Tops>, Memory>
    ensures { IfOk result (λ o. option_map tops_of o ≡ looped loop.Parts (kind top.now ∷ [])) }
{
    match top {
        Ty::List(part) | Ty::Set(part) => over_parts(alloc, part.get()),
        Ty::Map(key, value) => {
            let part = pair_of(alloc, key.get(), value.get())?;
            over_parts(alloc, &part)
        }
        _ => Ok(None),
    }
}

/// The instruction with a body that is run again and again.
pub fn loop_instr(turns: Loop, body: Block) -> Instr
    ensures { code result ≡ loop_code turns (codes body) }
{
    match turns {
        Loop::Bool => Instr::Loop(body),
        Loop::Left => Instr::LoopLeft(body),
        Loop::Parts => Instr::Iter(body),
    }
}

/// The type of pairs of these. Memory where there is no room for it.
pub fn pair_of(alloc: Global, first: &Ty, second: &Ty) -> Result<Ty, Memory>
    ensures { IfOk result (λ a. kind a ≡ pair (kind first.now) (kind second.now)) }
{
    let first = Link::new(alloc, copy_type(alloc, first)?)?;
    let second = Link::new(alloc, copy_type(alloc, second)?)?;
    Ok(Ty::Pair(first, second))
}
