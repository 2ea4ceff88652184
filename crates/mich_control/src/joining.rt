// How branches and bodies come together.
ghost use Rattle.std.specs.Prelude.{◌≡◌, ◌↔◌, IsTrue};
ghost use Rattle.rules_code.specs.instructions.Same.{same_kinds};
ghost use Rattle.rules_code.specs.typing.Typing.{join, shift};
ghost use Rattle.mich_overload.specs.View.{kinds};
ghost use Rattle.mich_control.specs.Answers.{IsAfter, ends_in, typing};

use mich_base::{Rows, Ty, same_type};
use mich_typed::CheckError;

#[tactic(auto, using(crate::proofs::Tops::alike_more, crate::proofs::Tops::alike_all, crate::proofs::Tops::differ))]
fn same_lists(types: &Rows<Ty>, others: &Rows<Ty>) -> bool
    ensures { IsTrue result ↔ (types.now ≡ others.now) }
{
    if types.len() != others.len() {
        return false;
    }
    for i in 0..types.len() {
        if !same_type(types.at(i), others.at(i)) {
            return false;
        }
    }
    true
}

// Whether two stacks have the same types.
pub(crate) fn same_types(types: &Rows<Ty>, others: &Rows<Ty>) -> bool
    ensures { result ≡ same_kinds (kinds types.now) (kinds others.now) }
{
    same_lists(types, others)
}

/// The stack behind two branches of the instruction at a location; none where both fail. IllTyped, at this location, where they
/// leave other types.
pub fn joined(
    one: Option<Rows<Ty>>,
    other: Option<Rows<Ty>>,
    at: u32,
) -> Result<Option<Rows<Ty>>, CheckError>
    ensures { IsAfter (shift at (join (typing one) (typing other))) result }
{
    let Some(types) = one else {
        return Ok(other);
    };
    let Some(others) = other else {
        return Ok(Some(types));
    };
    if same_types(&types, &others) {
        Ok(Some(types))
    } else {
        Err(CheckError::IllTyped(at))
    }
}

/// Whether a body ends with these types, or fails.
pub fn ends_in(after: &Option<Rows<Ty>>, types: &Rows<Ty>) -> bool
    ensures { result ≡ ends_in after.now (kinds types.now) }
{
    match after {
        Some(ends) => same_types(ends, types),
        None => true,
    }
}
