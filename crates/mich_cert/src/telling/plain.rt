// Instructions without bodies, of which the stack behind them alone is kept.
ghost use Rattle.std.specs.Prelude.{◌≡◌, ◌+◌, ◌<◌, ◌^◌};
ghost use Rattle.rules_text.specs.nodes.Tree.{prim, sizes};
ghost use Rattle.rules_code.specs.instructions.Forms as f;
ghost use Rattle.rules_code.specs.typing.Nodes.{tree_type};
ghost use Rattle.rules_code.specs.typing.Typing.{shift};
ghost use Rattle.mich_base.specs.View.{trees};
ghost use Rattle.mich_control.specs.Answers.{IsAfter};
ghost use Rattle.mich_control.specs.View.{bodiless_form, context};
ghost use Rattle.mich_instr.specs.Typed.{HasForm};
ghost use Rattle.mich_overload.specs.View.{kinds};

use crate::telling::nodes::After;
use mich_base::{App, Rows, Ty};
use mich_control::{
    Bodiless, CheckError, Place, check_bodiless, check_self, check_straight, check_transfer,
};
use std::alloc::Global;

pub(crate) fn behind_straight(
    alloc: Global,
    app: &App,
    at: u32,
    place: Place<'_>,
    types: Rows<Ty>,
) -> Result<After, CheckError>
    requires fits { at + sizes (trees app.now.args) + 1 < 2 ^ 32 }
    requires form { HasForm f.straight app.now.name }
    ensures { IsAfter (shift at (tree_type (prim app.now.name app.now.annots (trees app.now.args)) (context place.entry) (kinds types))) result }
{
    let made = check_straight(alloc, app, at, place, types)?;
    Ok(made.after)
}

// TRANSFER_TOKENS.
pub(crate) fn behind_transfer(
    alloc: Global,
    app: &App,
    at: u32,
    place: Place<'_>,
    types: Rows<Ty>,
) -> Result<After, CheckError>
    requires fits { at + sizes (trees app.now.args) + 1 < 2 ^ 32 }
    requires form { HasForm f.transfer app.now.name }
    ensures { IsAfter (shift at (tree_type (prim app.now.name app.now.annots (trees app.now.args)) (context place.entry) (kinds types))) result }
{
    let made = check_transfer(alloc, app, at, place, types)?;
    Ok(made.after)
}

// EXEC, APPLY, FAILWITH or NEVER.
pub(crate) fn behind_bodiless(
    alloc: Global,
    bodiless: Bodiless,
    app: &App,
    at: u32,
    place: Place<'_>,
    types: Rows<Ty>,
) -> Result<After, CheckError>
    requires { HasForm (bodiless_form bodiless) app.now.name }
    ensures { IsAfter (shift at (tree_type (prim app.now.name app.now.annots (trees app.now.args)) (context place.entry) (kinds types))) result }
{
    let made = check_bodiless(alloc, bodiless, app, at, place, types)?;
    Ok(made.after)
}

// SELF.
pub(crate) fn behind_self(
    alloc: Global,
    app: &App,
    at: u32,
    place: Place<'_>,
    types: Rows<Ty>,
) -> Result<After, CheckError>
    requires { HasForm f.self app.now.name }
    ensures { IsAfter (shift at (tree_type (prim app.now.name app.now.annots (trees app.now.args)) (context place.entry) (kinds types))) result }
{
    let made = check_self(alloc, app, at, place, types)?;
    Ok(made.after)
}
