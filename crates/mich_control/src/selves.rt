// SELF.
ghost use Rattle.std.specs.Prelude.{◌≡◌, IfOk, option_map};
ghost use Rattle.rules_text.specs.nodes.Tree.{prim};
ghost use Rattle.rules_data.specs.types.Kind.{contract};
ghost use Rattle.rules_code.specs.instructions.Control.{self_of};
ghost use Rattle.rules_code.specs.instructions.Forms as f;
ghost use Rattle.mich_base.specs.TypeView.{kind};
ghost use Rattle.mich_base.specs.View.{trees};
ghost use Rattle.mich_types.specs.Entered.{entry_of};
ghost use Rattle.mich_overload.specs.View.{kinds};
ghost use Rattle.mich_outline.specs.Answers.{found_from};
ghost use Rattle.mich_instr.specs.Typed.{HasForm};
ghost use Rattle.mich_control.specs.Begun.{entry_in};
ghost use Rattle.mich_control.specs.View.{context};
ghost use Rattle.mich_control.specs.Answers.{IsFound, IsInstrAt};

use crate::place::Place;
use crate::plain::kept_annotations;
use crate::reading::entrypoint_name;
use crate::stacks::with_made;
use mich_base::{App, Link, Memory, Rows, Ty, copy_type};
use mich_forms::Entrypoint;
use mich_instr::Instr;
use mich_typed::{CheckError, Made};
use mich_types::{Entry, entrypoint};
use std::alloc::Global;

// The name that SELF gives.
#[tactic(auto, using(crate::proofs::Read::found_on, crate::proofs::SelfTyping::with_arguments, crate::proofs::SelfTyping::without_arguments))]
fn self_name(app: &App, at: u32) -> Result<Entrypoint, CheckError>
    ensures { IsFound (λ name. name) (found_from at (self_of app.now.annots (trees app.now.args))) result }
{
    let name = entrypoint_name(&app.annots, at)?;
    if !app.args.is_empty() {
        return Err(CheckError::IllTyped(at));
    }
    Ok(name)
}

// The entrypoint of this name where SELF stands; none outside of the code of a script.
fn named_entry<'a>(place: Place<'a>, name: &Entrypoint) -> Option<&'a Entry>
    ensures { option_map (λ e. entry_of e.now) result ≡ entry_in name.now (context place.entry) }
{
    match place {
        Place::Main(parameter) => entrypoint(parameter, name),
        Place::View | Place::Lambda => None,
    }
}

fn contract_of(alloc: Global, parameter: &Ty) -> Result<Ty, Memory>
    ensures { IfOk result (λ a. kind a ≡ contract (kind parameter.now)) }
{
    Ok(Ty::Contract(Link::new(alloc, copy_type(alloc, parameter)?)?))
}

/// SELF at a location, by the entrypoints of the script in whose code it stands. IllTyped has this location; Memory where there
/// is no room.
pub fn check_self(
    alloc: Global,
    app: &App,
    at: u32,
    place: Place<'_>,
    types: Rows<Ty>,
) -> Result<Made, CheckError>
    requires { HasForm f.self app.now.name }
    ensures { IsInstrAt at (context place.entry) (prim app.now.name app.now.annots (trees app.now.args)) (kinds types) result }
{
    let entrypoint = self_name(app, at)?;
    let Some(entry) = named_entry(place, &entrypoint) else {
        return Err(CheckError::IllTyped(at));
    };
    let ty = contract_of(alloc, &entry.ty)?;
    let annots = kept_annotations(alloc, app)?;
    let after = with_made(ty, types, at)?;
    Ok(Made {
        instr: Instr::SelfContract { entrypoint, annots },
        after: Some(after),
    })
}
