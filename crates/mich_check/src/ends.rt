// The types that the bodies of a script go from and to.
ghost use Rattle.std.specs.Prelude.{◌≡◌, IfOk};
ghost use Rattle.rules_data.specs.types.Kind.{list, operation, pair};
ghost use Rattle.rules_code.specs.typing.Scripts.{is_small};
ghost use Rattle.mich_base.specs.TypeView.{kind};
ghost use Rattle.mich_check.specs.Scripts.{AreCodeEnds, AreEnds};

use mich_base::{Link, Memory, Ty, copy_type};
use mich_control::{CheckError, pair_of};
use mich_stackrules::is_within_limit;
use std::alloc::Global;

/// The one type that a body begins with, and the one that it ends with.
#[derive(Drop)]
pub struct Ends {
    pub begins: Ty,
    pub ends: Ty,
}

fn operations(alloc: Global) -> Result<Ty, Memory>
    ensures { IfOk result (λ a. kind a ≡ list operation) }
{
    Ok(Ty::List(Link::new(alloc, Ty::Operation)?))
}

/// The ends of a script's code: the pair of parameter and storage, and the pair of the list of operations and storage. IllTyped at the
/// location where one of them is past the limit of types; Memory where there is no room for them (Octez "Michelson", scripts).
pub fn code_ends(alloc: Global, parameter: &Ty, storage: &Ty, at: u32) -> Result<Ends, CheckError>
    ensures { AreCodeEnds (kind parameter.now) (kind storage.now) at result }
{
    let begins = pair_of(alloc, parameter, storage)?;
    let operations = operations(alloc)?;
    let ends = pair_of(alloc, &operations, storage)?;
    if is_within_limit(&begins) && is_within_limit(&ends) {
        Ok(Ends { begins, ends })
    } else {
        Err(CheckError::IllTyped(at))
    }
}

/// The ends of a view's code: the pair of input and storage, and the output. IllTyped at the location where the pair is past the
/// limit of types; Memory where there is no room for them (Octez "Views").
pub fn view_ends(
    alloc: Global,
    input: &Ty,
    output: &Ty,
    storage: &Ty,
    at: u32,
) -> Result<Ends, CheckError>
    ensures { AreEnds (is_small (pair (kind input.now) (kind storage.now))) (pair (kind input.now) (kind storage.now)) (kind output.now) at result }
{
    let begins = pair_of(alloc, input, storage)?;
    let ends = copy_type(alloc, output)?;
    if is_within_limit(&begins) {
        Ok(Ends { begins, ends })
    } else {
        Err(CheckError::IllTyped(at))
    }
}
