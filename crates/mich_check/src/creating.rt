// What CREATE_CONTRACT asks of the stack and of its script.
ghost use Rattle.std.specs.Prelude.{◌≡◌, option_map};
ghost use Rattle.mich_base.specs.TypeView.{kind};
ghost use Rattle.mich_overload.specs.View.{kinds};
ghost use Rattle.mich_check.specs.Scripts.{IsBehind, is_amount, is_delegate, origin_of, originated};

use mich_base::{Rows, Ty};
use mich_control::{CheckError, pop_type, push_type};
use mich_overload::same_kind;

/// The type of the storage that CREATE_CONTRACT takes, and the stack below it.
#[derive(Drop)]
pub struct Origin {
    pub storage: Ty,
    pub rest: Rows<Ty>,
}

fn is_delegate(ty: &Ty) -> bool
    ensures { result ≡ is_delegate (kind ty.now) }
{
    match ty {
        Ty::Option(part) => matches!(part.get(), Ty::KeyHash),
        _ => false,
    }
}

fn is_amount(ty: &Ty) -> bool
    ensures { result ≡ is_amount (kind ty.now) }
{
    matches!(ty, Ty::Mutez)
}

/// What CREATE_CONTRACT takes from a stack of types. None where no delegate, amount and storage are on top (Michelson reference,
/// "CREATE_CONTRACT").
#[tactic(auto, using(crate::proofs::OriginStacks::empty, crate::proofs::OriginStacks::one, crate::proofs::OriginStacks::two, crate::proofs::OriginStacks::another_delegate, crate::proofs::OriginStacks::another_amount, crate::proofs::OriginStacks::fits))]
pub fn origination(types: Rows<Ty>) -> Option<Origin>
    ensures { option_map origin_of result ≡ originated (kinds types) }
{
    let mut rest = types;
    let delegate = pop_type(&mut rest)?;
    let amount = pop_type(&mut rest)?;
    let storage = pop_type(&mut rest)?;
    if is_delegate(&delegate) && is_amount(&amount) {
        Some(Origin { storage, rest })
    } else {
        None
    }
}

/// The stack behind CREATE_CONTRACT, whose script has a storage of this type. IllTyped at the location where it isn't the type of the
/// storage that was taken; Memory where there is no room for it (Michelson reference, "CREATE_CONTRACT").
pub fn stack_behind(origin: Origin, storage: &Ty, at: u32) -> Result<Rows<Ty>, CheckError>
    ensures { IsBehind at (kind storage.now) (origin_of origin) result }
{
    if !same_kind(storage, &origin.storage) {
        return Err(CheckError::IllTyped(at));
    }
    let mut after = origin.rest;
    push_type(&mut after, Ty::Address)?;
    push_type(&mut after, Ty::Operation)?;
    Ok(after)
}
