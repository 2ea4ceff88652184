// The check of instructions without bodies.
ghost use Rattle.std.specs.Prelude.{◌≡◌, ◌+◌, ◌<◌, ◌^◌};
ghost use Rattle.rules_text.specs.nodes.Tree.{prim, sizes};
ghost use Rattle.rules_code.specs.instructions.Forms as f;
ghost use Rattle.mich_base.specs.View.{trees};
ghost use Rattle.mich_overload.specs.View.{kinds};
ghost use Rattle.mich_instr.specs.Typed.{HasForm};
ghost use Rattle.mich_control.specs.View.{bodiless_form, context};
ghost use Rattle.mich_control.specs.Answers.{IsInstrAt};

use crate::bodiless::bodiless_instr;
use crate::form::Bodiless;
use crate::place::{Place, is_view};
use crate::plain::plain_app;
use mich_base::{App, Rows, Ty};
use mich_instr::Instr;
use mich_outline::TypingError;
use mich_stackrules::rule_at;
use mich_typed::{CheckError, Made};
use std::alloc::Global;

/// An instruction without bodies at a location, by its arguments and the stack. IllTyped has the location of its first fault;
/// Memory where there is no room.
pub fn check_straight(
    alloc: Global,
    app: &App,
    at: u32,
    _place: Place<'_>,
    types: Rows<Ty>,
) -> Result<Made, CheckError>
    requires fits { at + sizes (trees app.now.args) + 1 < 2 ^ 32 }
    requires form { HasForm f.straight app.now.name }
    ensures { IsInstrAt at (context _place.entry) (prim app.now.name app.now.annots (trees app.now.args)) (kinds types) result }
{
    let written = plain_app(alloc, app)?;
    match rule_at(alloc, app, at, types) {
        Ok((simple, after)) => Ok(Made {
            instr: Instr::Straight(simple, written),
            after: Some(after),
        }),
        Err(TypingError::Fault(location)) => Err(CheckError::IllTyped(location)),
        Err(TypingError::Memory) => Err(CheckError::Memory),
    }
}

/// TRANSFER_TOKENS at a location, which has no place in a view. IllTyped has the location of its first fault; Memory where there
/// is no room.
pub fn check_transfer(
    alloc: Global,
    app: &App,
    at: u32,
    place: Place<'_>,
    types: Rows<Ty>,
) -> Result<Made, CheckError>
    requires fits { at + sizes (trees app.now.args) + 1 < 2 ^ 32 }
    requires form { HasForm f.transfer app.now.name }
    ensures { IsInstrAt at (context place.entry) (prim app.now.name app.now.annots (trees app.now.args)) (kinds types) result }
{
    if is_view(place) {
        return Err(CheckError::IllTyped(at));
    }
    let written = plain_app(alloc, app)?;
    match rule_at(alloc, app, at, types) {
        Ok((simple, after)) => Ok(Made {
            instr: Instr::Straight(simple, written),
            after: Some(after),
        }),
        Err(TypingError::Fault(location)) => Err(CheckError::IllTyped(location)),
        Err(TypingError::Memory) => Err(CheckError::Memory),
    }
}

/// EXEC, APPLY, FAILWITH or NEVER at a location. IllTyped, at this location, where it has arguments or no place on the stack;
/// Memory where there is no room.
pub fn check_bodiless(
    alloc: Global,
    bodiless: Bodiless,
    app: &App,
    at: u32,
    _place: Place<'_>,
    types: Rows<Ty>,
) -> Result<Made, CheckError>
    requires { HasForm (bodiless_form bodiless) app.now.name }
    ensures { IsInstrAt at (context _place.entry) (prim app.now.name app.now.annots (trees app.now.args)) (kinds types) result }
{
    if !app.args.is_empty() {
        return Err(CheckError::IllTyped(at));
    }
    match bodiless_instr(alloc, bodiless, types)? {
        Some(made) => Ok(made),
        None => Err(CheckError::IllTyped(at)),
    }
}
