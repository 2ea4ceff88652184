// The check of instructions and blocks.
ghost use Rattle.std.specs.Prelude.{◌≡◌, ◌+◌, ◌<◌, ◌^◌, [], ◌∷◌, IfOk};
ghost use Rattle.rules_text.specs.nodes.Tree.{Trees, none, prim, seq, size, sizes};
ghost use Rattle.rules_text.specs.nodes.Primitives.{primitive_of_name};
ghost use Rattle.rules_code.specs.instructions.Forms as f;
ghost use Rattle.rules_code.specs.instructions.Forms.{form_of};
ghost use Rattle.rules_code.specs.typing.Typing.{shift};
ghost use Rattle.rules_code.specs.typing.Nodes.{body, trees_type};
ghost use Rattle.rules_code.specs.typing.Literals.{fault_of_bodies};
ghost use Rattle.mich_base.specs.TypeView.{kind};
ghost use Rattle.mich_base.specs.View.{tree, trees};
ghost use Rattle.mich_data.specs.View.{all_pending, pending};
ghost use Rattle.mich_overload.specs.View.{kinds};
ghost use Rattle.rules_code.specs.instructions.Context.{lambda};
ghost use Rattle.rules_code.specs.instructions.Control.{call_kinds};
ghost use Rattle.mich_instr.specs.Code.{Codes, joined};
ghost use Rattle.mich_instr.specs.Code as made;
ghost use Rattle.mich_instr.specs.Typed.{AreCode, AreHeld, lambda_form};
ghost use Rattle.mich_instr.specs.View.{codes};
ghost use Rattle.mich_instr.specs.View as view;
ghost use Rattle.mich_check.specs.Pending.{AreSequences, IsFaulty, called_fault, codes_if, item_fault, moved, reach};
ghost use Rattle.mich_control.specs.View.{branch_form, context, loop_form};
ghost use Rattle.mich_control.specs.Answers.{IsBlock, IsBody, IsInstrAt};

use crate::literals::read_literal;
use crate::scripts::check_create;
use mich_base::{App, Memory, Node, Nodes, Rows, Shared, Ty, copy_node, copy_type};
use mich_control::{
    Body, Branch, CheckError, Form, Loop, Made, Place, begun, behind_loop, branch_instr,
    branch_stacks, call_types, check_bodiless, check_self, check_straight, check_transfer, counted,
    dip_parts, dipped, ends_in, form_of_name, joined, lambda_made, loop_instr, loop_stacks,
    map_stacks, mapped, only, push_made, read_arrow, split_stack, type_with,
};
use mich_data::Pending;
use mich_instr::{Block, Instr};
use mich_outline::Attribute;
use mich_types::{behind, behind_all};
use std::alloc::Global;

// The typed code of a block, whose first instruction is at a location; `end` becomes the location behind the block.
#[cycle(check)]
pub(crate) fn check_block(
    alloc: Global,
    nodes: &Nodes,
    at: u32,
    place: Place<'_>,
    types: Rows<Ty>,
    end: &mut u32,
) -> Result<Body, CheckError>
    requires { at + sizes (trees nodes.now) < 2 ^ 32 }
    ensures typed { IsBlock (context place.entry) (trees nodes.now) (kinds types) (shift at (trees_type (trees nodes.now) (context place.entry) (kinds types))) result }
    ensures ends { IfOk result (λ _. end.new ≡ at + sizes (trees nodes.now)) }
{
    let mut code = Rows::new(alloc);
    let mut after = Some(types);
    let mut last = at;
    let mut next = at;
    for node in nodes.as_slice() {
        let Some(before) = after else {
            return Err(CheckError::IllTyped(last));
        };
        last = next;
        let made = check_node(alloc, node, last, place, before, &mut next)?;
        code.push(made.instr)?;
        after = made.after;
    }
    let code = Shared::new(alloc, code)?;
    *end = next;
    Ok(Body { code, after })
}

// The typed code of the node at a location as a body; `end` becomes the location behind it.
#[cycle(check)]
pub(crate) fn check_body(
    alloc: Global,
    node: &Node,
    at: u32,
    place: Place<'_>,
    types: Rows<Ty>,
    end: &mut u32,
) -> Result<Body, CheckError>
    requires { at + size (tree node.now) < 2 ^ 32 }
    ensures typed { IsBody (context place.entry) (tree node.now) (kinds types) (body (tree node.now) at (context place.entry) (kinds types)) result }
    ensures ends { IfOk result (λ _. end.new ≡ at + size (tree node.now)) }
{
    match node {
        Node::Seq(nodes) => check_block(alloc, nodes, at + 1, place, types, end),
        _ => Err(CheckError::IllTyped(at)),
    }
}

// The typed instruction of the node at a location; `end` becomes the location behind it.
#[cycle(check)]
pub(crate) fn check_node(
    alloc: Global,
    node: &Node,
    at: u32,
    place: Place<'_>,
    types: Rows<Ty>,
    end: &mut u32,
) -> Result<Made, CheckError>
    requires { at + size (tree node.now) < 2 ^ 32 }
    ensures typed { IsInstrAt at (context place.entry) (tree node.now) (kinds types) result }
    ensures ends { IfOk result (λ _. end.new ≡ at + size (tree node.now)) }
{
    match node {
        Node::Prim(app) => check_app(alloc, app, at, place, types, end),
        Node::Seq(_) => {
            let body = check_body(alloc, node, at, place, types, end)?;
            Ok(Made {
                instr: Instr::Seq(body.code),
                after: body.after,
            })
        }
        _ => Err(CheckError::IllTyped(at)),
    }
}

#[cycle(check)]
fn check_app(
    alloc: Global,
    app: &App,
    at: u32,
    place: Place<'_>,
    types: Rows<Ty>,
    end: &mut u32,
) -> Result<Made, CheckError>
    requires { at + sizes (trees app.now.args) + 1 < 2 ^ 32 }
    ensures typed { IsInstrAt at (context place.entry) (prim app.now.name app.now.annots (trees app.now.args)) (kinds types) result }
    ensures ends { IfOk result (λ _. end.new ≡ at + (sizes (trees app.now.args) + 1)) }
{
    match form_of_name(&app.name) {
        Form::Straight => {
            *end = behind_all(&app.args, at + 1);
            check_straight(alloc, app, at, place, types)
        }
        Form::Transfer => {
            *end = behind_all(&app.args, at + 1);
            check_transfer(alloc, app, at, place, types)
        }
        Form::Bodiless(bodiless) => {
            *end = behind_all(&app.args, at + 1);
            check_bodiless(alloc, bodiless, app, at, place, types)
        }
        Form::Branch(branch) => check_branch(alloc, branch, app, at, place, types, end),
        Form::Loop(turns) => check_loop(alloc, turns, app, at, place, types, end),
        Form::SelfContract => {
            *end = behind_all(&app.args, at + 1);
            check_self(alloc, app, at, place, types)
        }
        Form::Dip => check_dip(alloc, app, at, place, types, end),
        Form::Map => check_map(alloc, app, at, place, types, end),
        Form::Lambda => check_lambda(alloc, false, app, at, place, types, end),
        Form::LambdaRec => check_lambda(alloc, true, app, at, place, types, end),
        Form::Push => {
            *end = behind_all(&app.args, at + 1);
            check_push(alloc, app, at, place, types)
        }
        Form::CreateContract => {
            *end = behind_all(&app.args, at + 1);
            check_create(alloc, app, at, place, types)
        }
    }
}

#[cycle(check)]
fn check_branch(
    alloc: Global,
    branch: Branch,
    app: &App,
    at: u32,
    place: Place<'_>,
    types: Rows<Ty>,
    end: &mut u32,
) -> Result<Made, CheckError>
    requires fits { at + sizes (trees app.now.args) + 1 < 2 ^ 32 }
    requires form { form_of (primitive_of_name app.now.name) ≡ branch_form branch }
    ensures typed { IsInstrAt at (context place.entry) (prim app.now.name app.now.annots (trees app.now.args)) (kinds types) result }
    ensures ends { IfOk result (λ _. end.new ≡ at + (sizes (trees app.now.args) + 1)) }
{
    let Some((one, other)) = app.args.both() else {
        return Err(CheckError::IllTyped(at));
    };
    let Some((first, second)) = branch_stacks(alloc, branch, types)? else {
        return Err(CheckError::IllTyped(at));
    };
    let one_body = check_body(alloc, one, at + 1, place, first, end)?;
    let other_body = check_body(alloc, other, *end, place, second, end)?;
    let after = joined(one_body.after, other_body.after, at)?;
    Ok(Made {
        instr: branch_instr(branch, one_body.code, other_body.code),
        after,
    })
}

#[cycle(check)]
fn check_loop(
    alloc: Global,
    turns: Loop,
    app: &App,
    at: u32,
    place: Place<'_>,
    types: Rows<Ty>,
    end: &mut u32,
) -> Result<Made, CheckError>
    requires fits { at + sizes (trees app.now.args) + 1 < 2 ^ 32 }
    requires form { form_of (primitive_of_name app.now.name) ≡ loop_form turns }
    ensures typed { IsInstrAt at (context place.entry) (prim app.now.name app.now.annots (trees app.now.args)) (kinds types) result }
    ensures ends { IfOk result (λ _. end.new ≡ at + (sizes (trees app.now.args) + 1)) }
{
    let Some(node) = app.args.only() else {
        return Err(CheckError::IllTyped(at));
    };
    let Some(turning) = loop_stacks(alloc, turns, types)? else {
        return Err(CheckError::IllTyped(at));
    };
    let body = check_body(alloc, node, at + 1, place, turning.begins, end)?;
    if !ends_in(&body.after, &turning.ends) {
        return Err(CheckError::IllTyped(at));
    }
    let after = behind_loop(turning.ends, turning.over, turning.leaves)?;
    Ok(Made {
        instr: loop_instr(turns, body.code),
        after: Some(after),
    })
}

#[cycle(check)]
fn check_dip(
    alloc: Global,
    app: &App,
    at: u32,
    place: Place<'_>,
    types: Rows<Ty>,
    end: &mut u32,
) -> Result<Made, CheckError>
    requires fits { at + sizes (trees app.now.args) + 1 < 2 ^ 32 }
    requires form { form_of (primitive_of_name app.now.name) ≡ f.dip }
    ensures typed { IsInstrAt at (context place.entry) (prim app.now.name app.now.annots (trees app.now.args)) (kinds types) result }
    ensures ends { IfOk result (λ _. end.new ≡ at + (sizes (trees app.now.args) + 1)) }
{
    let dip = dip_parts(&app.args, at)?;
    let Some((upper, lower)) = split_stack(types, counted(dip.count))? else {
        return Err(CheckError::IllTyped(at));
    };
    let body = check_body(alloc, dip.body, dip.place, place, lower, end)?;
    dipped(alloc, dip.count, upper, body, at)
}

#[cycle(check)]
fn check_map(
    alloc: Global,
    app: &App,
    at: u32,
    place: Place<'_>,
    types: Rows<Ty>,
    end: &mut u32,
) -> Result<Made, CheckError>
    requires fits { at + sizes (trees app.now.args) + 1 < 2 ^ 32 }
    requires form { form_of (primitive_of_name app.now.name) ≡ f.map }
    ensures typed { IsInstrAt at (context place.entry) (prim app.now.name app.now.annots (trees app.now.args)) (kinds types) result }
    ensures ends { IfOk result (λ _. end.new ≡ at + (sizes (trees app.now.args) + 1)) }
{
    let Some(node) = app.args.only() else {
        return Err(CheckError::IllTyped(at));
    };
    let Some(mapping) = map_stacks(alloc, types)? else {
        return Err(CheckError::IllTyped(at));
    };
    let body = check_body(alloc, node, at + 1, place, mapping.begins, end)?;
    mapped(alloc, mapping.target, mapping.rest, body, at)
}

// LAMBDA, or LAMBDA_REC.
#[cycle(check)]
fn check_lambda(
    alloc: Global,
    recursive: bool,
    app: &App,
    at: u32,
    _place: Place<'_>,
    types: Rows<Ty>,
    end: &mut u32,
) -> Result<Made, CheckError>
    requires fits { at + sizes (trees app.now.args) + 1 < 2 ^ 32 }
    requires form { form_of (primitive_of_name app.now.name) ≡ lambda_form recursive }
    ensures typed { IsInstrAt at (context _place.entry) (prim app.now.name app.now.annots (trees app.now.args)) (kinds types) result }
    ensures ends { IfOk result (λ _. end.new ≡ at + (sizes (trees app.now.args) + 1)) }
{
    let Some((first, second, node)) = app.args.three() else {
        return Err(CheckError::IllTyped(at));
    };
    let arrow = read_arrow(alloc, first, second, at)?;
    let begins = begun(alloc, recursive, &arrow, at)?;
    let place = behind(second, behind(first, at + 1));
    let body = check_body(alloc, node, place, Place::Lambda, begins, end)?;
    lambda_made(
        alloc,
        recursive,
        (first, second, node),
        arrow,
        body,
        types,
        at,
    )
}

#[cycle(check)]
fn check_push(
    alloc: Global,
    app: &App,
    at: u32,
    _place: Place<'_>,
    types: Rows<Ty>,
) -> Result<Made, CheckError>
    requires fits { at + sizes (trees app.now.args) + 1 < 2 ^ 32 }
    requires form { form_of (primitive_of_name app.now.name) ≡ f.push }
    ensures { IsInstrAt at (context _place.entry) (prim app.now.name app.now.annots (trees app.now.args)) (kinds types) result }
{
    let Some((written, literal)) = app.args.both() else {
        return Err(CheckError::IllTyped(at));
    };
    let ty = type_with(alloc, Attribute::Pushable, written, at + 1)?;
    let read = read_literal(alloc, &ty, literal, behind(written, 1), at)?;
    let lambdas = check_pending(alloc, &read.pending, at)?;
    let made = push_made(alloc, ty, written, literal, lambdas, types)?;
    Ok(made)
}

// The bodies that are pending as lambdas with their typed code, in order, where none has a fault. Locations are counted from one.
#[cycle(check)]
pub(crate) fn check_pending(
    alloc: Global,
    pending: &Rows<Pending>,
    at: u32,
) -> Result<Rows<Instr>, CheckError>
    requires { at + reach (all_pending pending.now) < 2 ^ 32 }
    ensures fault { IsFaulty (moved at (fault_of_bodies (all_pending pending.now))) result }
    ensures held { IfOk result (λ is. AreSequences (all_pending pending.now) → AreHeld (all_pending pending.now) (codes is)) }
{
    let mut lambdas = Rows::new(alloc);
    for item in pending.as_slice() {
        let lambda = check_item(alloc, item, at)?;
        put_lambda(&mut lambdas, lambda)?;
    }
    Ok(lambdas)
}

// Puts a lambda, if there is one, behind others.
fn put_lambda(lambdas: &mut Rows<Instr>, lambda: Option<Instr>) -> Result<(), Memory>
    ensures { IfOk result (λ _. codes lambdas.new ≡ joined (codes lambdas.old) (codes_if lambda)) }
{
    match lambda {
        Some(instr) => {
            lambdas.push(instr)?;
            Ok(())
        }
        None => Ok(()),
    }
}

#[cycle(check)]
fn check_item(alloc: Global, item: &Pending, at: u32) -> Result<Option<Instr>, CheckError>
    requires { at + reach (pending item.now ∷ []) < 2 ^ 32 }
    ensures fault { IsFaulty (moved at (item_fault (pending item.now))) result }
    ensures held { IfOk result (λ o. AreSequences (pending item.now ∷ []) → AreHeld (pending item.now ∷ []) (codes_if o)) }
{
    match item {
        Pending::Body {
            location,
            arg,
            ret,
            recursive,
            node,
        } => {
            let code = check_called(alloc, arg, ret, *recursive, node, at + *location)?;
            let lambda = held_lambda(alloc, arg, ret, *recursive, node, code)?;
            Ok(Some(lambda))
        }
        Pending::Claim { .. } => Ok(None),
    }
}

// A body with its typed code, as LAMBDA with no types written.
fn held_lambda(
    alloc: Global,
    arg: &Ty,
    ret: &Ty,
    recursive: bool,
    node: &Node,
    code: Block,
) -> Result<Instr, Memory>
    ensures { IfOk result (λ i. view.code i ≡ made.lambda recursive (kind arg.now) (kind ret.now) none (tree node.now) (codes code)) }
{
    let body = Shared::new(alloc, copy_node(alloc, node)?)?;
    let arg = copy_type(alloc, arg)?;
    let ret = copy_type(alloc, ret)?;
    Ok(Instr::Lambda {
        recursive,
        arg,
        ret,
        written: Nodes::new(alloc),
        body,
        code,
    })
}

// The instructions of a sequence, or the one instruction that is none.
fn block_of(alloc: Global, instr: Instr) -> Result<Block, Memory>
    ensures { IfOk result (λ b. (is : Codes) → view.code instr ≡ made.seq is → codes b ≡ is) }
{
    match instr {
        Instr::Seq(block) => Ok(block),
        other => {
            let mut code = Rows::new(alloc);
            code.push(other)?;
            Shared::new(alloc, code)
        }
    }
}

// The typed code of the node at a location as the body of a lambda of these types, where it has no fault.
#[cycle(check)]
fn check_called(
    alloc: Global,
    arg: &Ty,
    ret: &Ty,
    recursive: bool,
    node: &Node,
    at: u32,
) -> Result<Block, CheckError>
    requires { at + size (tree node.now) < 2 ^ 32 }
    ensures fault { IsFaulty (called_fault at (kind arg.now) (kind ret.now) recursive (tree node.now)) result }
    ensures code { IfOk result (λ b. (ts : Trees) → tree node.now ≡ seq ts → AreCode lambda ts (codes b) (call_kinds (kind arg.now) (kind ret.now) recursive) (kind ret.now ∷ [])) }
{
    let types = call_types(alloc, arg, ret, recursive)?;
    let mut end = at;
    let made = check_node(alloc, node, at, Place::Lambda, types, &mut end)?;
    let ends = only(alloc, ret)?;
    if !ends_in(&made.after, &ends) {
        return Err(CheckError::IllTyped(at));
    }
    Ok(block_of(alloc, made.instr)?)
}
