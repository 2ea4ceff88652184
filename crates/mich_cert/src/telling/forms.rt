// The entries of the bodies of instructions, as these are typed.
ghost use Rattle.std.specs.Prelude.{◌≡◌, ◌+◌, ◌<◌, ◌^◌, IfOk};
ghost use Rattle.rules_text.specs.nodes.Primitives.{primitive_of_name};
ghost use Rattle.rules_text.specs.nodes.Tree.{sizes};
ghost use Rattle.rules_code.specs.instructions.Forms as f;
ghost use Rattle.rules_code.specs.instructions.Forms.{form_of};
ghost use Rattle.mich_base.specs.View.{trees};
ghost use Rattle.mich_control.specs.View.{branch_form, context, loop_form};
ghost use Rattle.mich_instr.specs.Typed.{lambda_form};
ghost use Rattle.mich_overload.specs.View.{kinds};
ghost use Rattle.mich_cert.specs.telling.Walk.{FollowsApp};

use crate::telling::nodes::{After, tell_body};
use crate::telling::told::Told;
use mich_base::{App, Memory, Rows, Shared, Ty};
use mich_control::{
    Body, Branch, CheckError, Loop, Place, begun, behind_loop, branch_stacks, counted, dip_parts,
    dipped, ends_in, joined, lambda_made, loop_stacks, map_stacks, mapped, read_arrow, split_stack,
};
use mich_types::behind;
use std::alloc::Global;

// A body of which the stack behind it alone is kept.
fn without_code(alloc: Global, after: After) -> Result<Body, Memory>
    ensures { IfOk result (λ b. b.after ≡ after) }
{
    let code = Shared::new(alloc, Rows::new(alloc))?;
    Ok(Body { code, after })
}

// An instruction with two branches.
#[cycle(tell)]
pub(crate) fn tell_branch(
    alloc: Global,
    branch: Branch,
    app: &App,
    at: u32,
    place: Place<'_>,
    types: Rows<Ty>,
    told: &mut Told,
    end: &mut u32,
) -> Result<After, CheckError>
    requires fits { at + sizes (trees app.now.args) + 1 < 2 ^ 32 }
    requires form { form_of (primitive_of_name app.now.name) ≡ branch_form branch }
    ensures follows { FollowsApp at (context place.entry) app.now.name app.now.annots (trees app.now.args) (kinds types) told.old told.new result }
    ensures ends { IfOk result (λ _. end.new ≡ at + (sizes (trees app.now.args) + 1)) }
{
    let Some((one, other)) = app.args.both() else {
        return Err(CheckError::IllTyped(at));
    };
    let Some((first, second)) = branch_stacks(alloc, branch, types)? else {
        return Err(CheckError::IllTyped(at));
    };
    let one_after = tell_body(alloc, one, at + 1, place, first, told, end)?;
    let other_after = tell_body(alloc, other, *end, place, second, told, end)?;
    joined(one_after, other_after, at)
}

// An instruction with a body that is run again and again.
#[cycle(tell)]
pub(crate) fn tell_loop(
    alloc: Global,
    turns: Loop,
    app: &App,
    at: u32,
    place: Place<'_>,
    types: Rows<Ty>,
    told: &mut Told,
    end: &mut u32,
) -> Result<After, CheckError>
    requires fits { at + sizes (trees app.now.args) + 1 < 2 ^ 32 }
    requires form { form_of (primitive_of_name app.now.name) ≡ loop_form turns }
    ensures follows { FollowsApp at (context place.entry) app.now.name app.now.annots (trees app.now.args) (kinds types) told.old told.new result }
    ensures ends { IfOk result (λ _. end.new ≡ at + (sizes (trees app.now.args) + 1)) }
{
    let Some(node) = app.args.only() else {
        return Err(CheckError::IllTyped(at));
    };
    let Some(turning) = loop_stacks(alloc, turns, types)? else {
        return Err(CheckError::IllTyped(at));
    };
    let ends = tell_body(alloc, node, at + 1, place, turning.begins, told, end)?;
    if !ends_in(&ends, &turning.ends) {
        return Err(CheckError::IllTyped(at));
    }
    let after = behind_loop(turning.ends, turning.over, turning.leaves)?;
    Ok(Some(after))
}

#[cycle(tell)]
pub(crate) fn tell_dip(
    alloc: Global,
    app: &App,
    at: u32,
    place: Place<'_>,
    types: Rows<Ty>,
    told: &mut Told,
    end: &mut u32,
) -> Result<After, CheckError>
    requires fits { at + sizes (trees app.now.args) + 1 < 2 ^ 32 }
    requires form { form_of (primitive_of_name app.now.name) ≡ f.dip }
    ensures follows { FollowsApp at (context place.entry) app.now.name app.now.annots (trees app.now.args) (kinds types) told.old told.new result }
    ensures ends { IfOk result (λ _. end.new ≡ at + (sizes (trees app.now.args) + 1)) }
{
    let dip = dip_parts(&app.args, at)?;
    let Some((upper, lower)) = split_stack(types, counted(dip.count))? else {
        return Err(CheckError::IllTyped(at));
    };
    let ends = tell_body(alloc, dip.body, dip.place, place, lower, told, end)?;
    let body = without_code(alloc, ends)?;
    let made = dipped(alloc, dip.count, upper, body, at)?;
    Ok(made.after)
}

#[cycle(tell)]
pub(crate) fn tell_map(
    alloc: Global,
    app: &App,
    at: u32,
    place: Place<'_>,
    types: Rows<Ty>,
    told: &mut Told,
    end: &mut u32,
) -> Result<After, CheckError>
    requires fits { at + sizes (trees app.now.args) + 1 < 2 ^ 32 }
    requires form { form_of (primitive_of_name app.now.name) ≡ f.map }
    ensures follows { FollowsApp at (context place.entry) app.now.name app.now.annots (trees app.now.args) (kinds types) told.old told.new result }
    ensures ends { IfOk result (λ _. end.new ≡ at + (sizes (trees app.now.args) + 1)) }
{
    let Some(node) = app.args.only() else {
        return Err(CheckError::IllTyped(at));
    };
    let Some(mapping) = map_stacks(alloc, types)? else {
        return Err(CheckError::IllTyped(at));
    };
    let ends = tell_body(alloc, node, at + 1, place, mapping.begins, told, end)?;
    let body = without_code(alloc, ends)?;
    let made = mapped(alloc, mapping.target, mapping.rest, body, at)?;
    Ok(made.after)
}

// LAMBDA, or LAMBDA_REC.
#[cycle(tell)]
pub(crate) fn tell_lambda(
    alloc: Global,
    recursive: bool,
    app: &App,
    at: u32,
    _place: Place<'_>,
    types: Rows<Ty>,
    told: &mut Told,
    end: &mut u32,
) -> Result<After, CheckError>
    requires fits { at + sizes (trees app.now.args) + 1 < 2 ^ 32 }
    requires form { form_of (primitive_of_name app.now.name) ≡ lambda_form recursive }
    ensures follows { FollowsApp at (context _place.entry) app.now.name app.now.annots (trees app.now.args) (kinds types) told.old told.new result }
    ensures ends { IfOk result (λ _. end.new ≡ at + (sizes (trees app.now.args) + 1)) }
{
    let Some((first, second, node)) = app.args.three() else {
        return Err(CheckError::IllTyped(at));
    };
    let arrow = read_arrow(alloc, first, second, at)?;
    let begins = begun(alloc, recursive, &arrow, at)?;
    let place = behind(second, behind(first, at + 1));
    let ends = tell_body(alloc, node, place, Place::Lambda, begins, told, end)?;
    let body = without_code(alloc, ends)?;
    let written = (first, second, node);
    let made = lambda_made(alloc, recursive, written, arrow, body, types, at)?;
    Ok(made.after)
}
