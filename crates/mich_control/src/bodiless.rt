// EXEC, APPLY, FAILWITH and NEVER.
ghost use Rattle.std.specs.Prelude.{◌≡◌, ◌∷◌, drop, IfOk, MatchOption, option_map};
ghost use Rattle.rules_data.specs.types.Kind.{lambda, pair};
ghost use Rattle.mich_base.specs.TypeView.{kind};
ghost use Rattle.mich_overload.specs.View.{kinds};
ghost use Rattle.mich_control.specs.declared.form.Bodiless.TheVariants as bodiless;
ghost use Rattle.mich_control.specs.Begun.{IsNoTaker, on_stack};
ghost use Rattle.mich_control.specs.View.{plain_of};

use crate::form::Bodiless;
use crate::stacks::{push_type, without};
use mich_base::{Link, Memory, Rows, Ty, copy_type};
use mich_instr::Instr;
use mich_overload::{same_kind, split_top, two_on_top};
use mich_typed::Made;
use mich_types::pushable;
use std::alloc::Global;

// The instruction on a stack; none where it has no place there.
pub(crate) fn bodiless_instr(
    alloc: Global,
    bodiless: Bodiless,
    types: Rows<Ty>,
) -> Result<Option<Made>, Memory>
    ensures { IfOk result (λ o. option_map plain_of o ≡ on_stack bodiless (kinds types)) }
{
    match bodiless {
        Bodiless::Exec => exec_on(alloc, types),
        Bodiless::Apply => apply_on(alloc, types),
        Bodiless::Failwith => failwith_on(alloc, types.as_slice()),
        Bodiless::Never => Ok(never_on(types.as_slice())),
    }
}

// The stack with one type in place of the two on top.
fn with_result(types: Rows<Ty>, ty: Ty) -> Result<Rows<Ty>, Memory>
    ensures { IfOk result (λ ts. kinds ts ≡ kind ty ∷ drop 2 (kinds types)) }
{
    let mut after = without(types, 2);
    push_type(&mut after, ty)?;
    Ok(after)
}

#[tactic(auto, using(crate::proofs::Tops::below_two))]
fn exec_on(alloc: Global, types: Rows<Ty>) -> Result<Option<Made>, Memory>
    ensures { IfOk result (λ o. option_map plain_of o ≡ on_stack bodiless.Exec (kinds types)) }
{
    let Some((argument, lambda, _rest)) = two_on_top(types.as_slice()) else {
        return Ok(None);
    };
    match lambda {
        Ty::Lambda(from, to) => {
            if !same_kind(argument, from.get()) {
                return Ok(None);
            }
            let arg = copy_type(alloc, from.get())?;
            let ret = copy_type(alloc, to.get())?;
            let result = copy_type(alloc, to.get())?;
            let after = with_result(types, result)?;
            Ok(Some(Made {
                instr: Instr::Exec { arg, ret },
                after: Some(after),
            }))
        }
        _ => Ok(None),
    }
}

// The type of lambdas of these types.
pub(crate) fn lambda_of(alloc: Global, arg: &Ty, ret: &Ty) -> Result<Ty, Memory>
    ensures { IfOk result (λ a. kind a ≡ lambda (kind arg.now) (kind ret.now)) }
{
    let first = Link::new(alloc, copy_type(alloc, arg)?)?;
    let second = Link::new(alloc, copy_type(alloc, ret)?)?;
    Ok(Ty::Lambda(first, second))
}

// The parts of the pairs that a lambda takes, and its result.
fn taker_of_pairs(ty: &Ty) -> Option<(&Ty, &Ty, &Ty)>
    ensures { MatchOption result (IsNoTaker (kind ty.now)) (λ p. kind ty.now ≡ lambda (pair (kind p.0.now) (kind p.1.now)) (kind p.2.now)) }
{
    match ty {
        Ty::Lambda(from, to) => match from.get() {
            Ty::Pair(first, second) => Some((first.get(), second.get(), to.get())),
            _ => None,
        },
        _ => None,
    }
}

#[tactic(auto, using(crate::proofs::Tops::below_two))]
fn apply_on(alloc: Global, types: Rows<Ty>) -> Result<Option<Made>, Memory>
    ensures { IfOk result (λ o. option_map plain_of o ≡ on_stack bodiless.Apply (kinds types)) }
{
    let Some((argument, top, _below)) = two_on_top(types.as_slice()) else {
        return Ok(None);
    };
    let Some((first, second, to)) = taker_of_pairs(top) else {
        return Ok(None);
    };
    if !same_kind(argument, first) {
        return Ok(None);
    }
    if !pushable(argument) {
        return Ok(None);
    }
    let captured = copy_type(alloc, first)?;
    let rest = copy_type(alloc, second)?;
    let ret = copy_type(alloc, to)?;
    let left = lambda_of(alloc, second, to)?;
    let after = with_result(types, left)?;
    Ok(Some(Made {
        instr: Instr::Apply {
            captured,
            rest,
            ret,
        },
        after: Some(after),
    }))
}

fn failwith_on(alloc: Global, types: &[Ty]) -> Result<Option<Made>, Memory>
    ensures { IfOk result (λ o. option_map plain_of o ≡ on_stack bodiless.Failwith (kinds types.now)) }
{
    let Some((top, _rest)) = split_top(types) else {
        return Ok(None);
    };
    if !pushable(top) {
        return Ok(None);
    }
    Ok(Some(Made::failwith(alloc, top)?))
}

fn never_on(types: &[Ty]) -> Option<Made>
    ensures { option_map plain_of result ≡ on_stack bodiless.Never (kinds types.now) }
{
    let (top, _rest) = split_top(types)?;
    match top {
        Ty::Never => Some(Made {
            instr: Instr::Never,
            after: None,
        }),
        _ => None,
    }
}
