// Stacks of types.
ghost use Rattle.std.specs.Prelude.{◌≡◌, [], ◌∷◌, ◌++◌, drop, IfOk, MatchOption};
ghost use Rattle.rules_code.specs.typing.Typing.{made, shift};
ghost use Rattle.mich_base.specs.TypeView.{kind};
ghost use Rattle.mich_overload.specs.View.{kinds};
ghost use Rattle.mich_control.specs.Answers.{IsStack};

use mich_base::{Memory, Rows, Ty, copy_type};
use mich_stackrules::is_within_limit;
use mich_typed::CheckError;
use std::alloc::Global;

/// Takes the type on top; none where there is none.
#[tactic(auto, using(crate::proofs::Tops::pushed))]
pub fn pop_type(types: &mut Rows<Ty>) -> Option<Ty>
    ensures { MatchOption result (kinds types.old ≡ []) (λ a. kinds types.old ≡ kind a ∷ kinds types.new) }
{
    types.pop()
}

/// Puts a type on top. Memory where there is no room for it.
#[tactic(auto, using(crate::proofs::Tops::pushed))]
pub fn push_type(types: &mut Rows<Ty>, ty: Ty) -> Result<(), Memory>
    ensures { IfOk result (λ _. kinds types.new ≡ kind ty ∷ kinds types.old) }
{
    types.push(ty)
}

// An equal stack.
pub(crate) fn copied(alloc: Global, types: &[Ty]) -> Result<Rows<Ty>, Memory>
    ensures { IfOk result (λ ts. ts ≡ types.now) }
{
    let mut copies = Rows::new(alloc);
    for ty in types {
        copies.push(copy_type(alloc, ty)?)?;
    }
    Ok(copies)
}

/// The stack of one type. Memory where there is no room for it.
pub fn only(alloc: Global, ty: &Ty) -> Result<Rows<Ty>, Memory>
    ensures { IfOk result (λ ts. kinds ts ≡ kind ty.now ∷ []) }
{
    let mut types = Rows::new(alloc);
    push_type(&mut types, copy_type(alloc, ty)?)?;
    Ok(types)
}

// One stack on another.
#[tactic(auto, using(crate::proofs::Tops::kinds_append))]
pub(crate) fn stacked(upper: Rows<Ty>, lower: Rows<Ty>) -> Result<Rows<Ty>, Memory>
    ensures { IfOk result (λ ts. kinds ts ≡ kinds upper ++ kinds lower) }
{
    let mut whole = lower;
    whole.append(upper)?;
    Ok(whole)
}

// The stack without so many types on top.
#[tactic(auto, using(crate::proofs::Tops::kinds_lower))]
pub(crate) fn without(types: Rows<Ty>, count: usize) -> Rows<Ty>
    ensures { kinds result ≡ drop count (kinds types) }
{
    let kept = types.len().saturating_sub(count);
    let mut rest = types;
    rest.truncate(kept);
    rest
}

// The stack with one type more on top.
pub(crate) fn with_top(alloc: Global, top: &Ty, types: &[Ty]) -> Result<Rows<Ty>, Memory>
    ensures { IfOk result (λ ts. kinds ts ≡ kind top.now ∷ kinds types.now) }
{
    let mut whole = copied(alloc, types)?;
    push_type(&mut whole, copy_type(alloc, top)?)?;
    Ok(whole)
}

// The stack with a new type on top, which must be within the limit of types; else the fault is at this location.
#[tactic(auto, using(crate::proofs::Tops::made_well, crate::proofs::Tops::made_badly))]
pub(crate) fn with_made(ty: Ty, types: Rows<Ty>, at: u32) -> Result<Rows<Ty>, CheckError>
    ensures { IsStack (shift at (made (kind ty) (kinds types))) result }
{
    if !is_within_limit(&ty) {
        return Err(CheckError::IllTyped(at));
    }
    let mut whole = types;
    push_type(&mut whole, ty)?;
    Ok(whole)
}
