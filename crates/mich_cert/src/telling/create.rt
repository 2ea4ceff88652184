// The entries of the script of CREATE_CONTRACT.
ghost use Rattle.std.specs.Prelude.{◌≡◌, ◌+◌, ◌<◌, ◌^◌};
ghost use Rattle.rules_text.specs.nodes.Primitives.{primitive_of_name};
ghost use Rattle.rules_text.specs.nodes.Tree.{sizes};
ghost use Rattle.rules_code.specs.instructions.Forms as f;
ghost use Rattle.rules_code.specs.instructions.Forms.{form_of};
ghost use Rattle.mich_base.specs.View.{trees};
ghost use Rattle.mich_control.specs.View.{context};
ghost use Rattle.mich_overload.specs.View.{kinds};
ghost use Rattle.mich_cert.specs.telling.Walk.{FollowsApp};

use crate::telling::nodes::After;
use crate::telling::scripts::tell_script;
use crate::telling::told::Told;
use mich_base::{App, Rows, Ty};
use mich_check::{origination, stack_behind};
use mich_control::{CheckError, Place, is_view};
use std::alloc::Global;

// CREATE_CONTRACT, which has no place in a view.
#[cycle(tell)]
pub(crate) fn tell_create(
    alloc: Global,
    app: &App,
    at: u32,
    place: Place<'_>,
    types: Rows<Ty>,
    told: &mut Told,
) -> Result<After, CheckError>
    requires fits { at + sizes (trees app.now.args) + 1 < 2 ^ 32 }
    requires form { form_of (primitive_of_name app.now.name) ≡ f.create_contract }
    ensures { FollowsApp at (context place.entry) app.now.name app.now.annots (trees app.now.args) (kinds types) told.old told.new result }
{
    if is_view(place) {
        return Err(CheckError::IllTyped(at));
    }
    let Some(node) = app.args.only() else {
        return Err(CheckError::IllTyped(at));
    };
    let Some(origin) = origination(types) else {
        return Err(CheckError::IllTyped(at));
    };
    let storage = tell_script(alloc, node, at + 1, told)?;
    let after = stack_behind(origin, &storage, at)?;
    Ok(Some(after))
}
