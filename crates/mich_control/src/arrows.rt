// LAMBDA and LAMBDA_REC.
ghost use Rattle.std.specs.Prelude.{◌≡◌, ◌+◌, ◌<◌, ◌^◌, IfOk};
ghost use Rattle.rules_text.specs.nodes.Tree.{more, none, size};
ghost use Rattle.rules_code.specs.instructions.Control.{call_kinds};
ghost use Rattle.mich_base.specs.TypeView.{kind};
ghost use Rattle.mich_base.specs.View.{tree, trees};
ghost use Rattle.mich_overload.specs.View.{kinds};
ghost use Rattle.mich_outline.specs.Answers.{found_from};
ghost use Rattle.mich_instr.specs.Plain.{bare};
ghost use Rattle.mich_instr.specs.View.{code, codes};
ghost use Rattle.mich_control.specs.Answers.{IsFound};
ghost use Rattle.mich_control.specs.Arrows.{IsBegun, IsLambdaFrom, arrow_in, arrow_of, lambda_code};

use crate::bodiless::lambda_of;
use crate::joining::ends_in;
use crate::plain::bare_node;
use crate::reading::type_with;
use crate::stacks::{only, push_type, with_made};
use mich_base::{Link, Memory, Node, Nodes, Rows, Shared, Ty, copy_node, copy_type};
use mich_instr::{Block, Instr};
use mich_outline::Attribute;
use mich_stackrules::is_within_limit;
use mich_typed::{Body, CheckError, Made};
use mich_types::behind;
use std::alloc::Global;

/// The types of a lambda's argument and of its result.
#[derive(Drop)]
pub struct Arrow {
    pub arg: Ty,
    pub ret: Ty,
}

/// The arguments of LAMBDA: its two types and its body.
pub type Written<'a> = (&'a Node, &'a Node, &'a Node);

/// The types that the instruction at a location spells. IllTyped has the location of the first fault in them; Memory where
/// there is no room for them.
#[tactic(auto, using(crate::proofs::LambdaTyping::arrow_is))]
pub fn read_arrow(alloc: Global, first: &Node, second: &Node, at: u32) -> Result<Arrow, CheckError>
    requires { at + 1 + size (tree first.now) + size (tree second.now) < 2 ^ 32 }
    ensures { IsFound arrow_of (found_from at (arrow_in (tree first.now) (tree second.now))) result }
{
    let arg = type_with(alloc, Attribute::Any, first, at + 1)?;
    let ret = type_with(alloc, Attribute::Any, second, behind(first, at + 1))?;
    Ok(Arrow { arg, ret })
}

/// The stack that a lambda's body begins with. Memory where there is no room for it.
pub fn call_types(alloc: Global, arg: &Ty, ret: &Ty, recursive: bool) -> Result<Rows<Ty>, Memory>
    ensures { IfOk result (λ ts. kinds ts ≡ call_kinds (kind arg.now) (kind ret.now) recursive) }
{
    let mut types = Rows::new(alloc);
    if recursive {
        let first = Link::new(alloc, copy_type(alloc, arg)?)?;
        let second = Link::new(alloc, copy_type(alloc, ret)?)?;
        push_type(&mut types, Ty::Lambda(first, second))?;
    }
    push_type(&mut types, copy_type(alloc, arg)?)?;
    Ok(types)
}

/// The stack that the body begins with. A recursive lambda stands on it itself, so that its type is tried first: IllTyped,
/// at this location, where it is past the limit of types; Memory where there is no room.
pub fn begun(alloc: Global, recursive: bool, arrow: &Arrow, at: u32) -> Result<Rows<Ty>, CheckError>
    ensures { IsBegun at recursive (kind arrow.now.arg) (kind arrow.now.ret) result }
{
    if recursive {
        let lambda = lambda_of(alloc, &arrow.arg, &arrow.ret)?;
        if !is_within_limit(&lambda) {
            return Err(CheckError::IllTyped(at));
        }
    }
    Ok(call_types(alloc, &arrow.arg, &arrow.ret, recursive)?)
}

// The types as they are written, without annotations.
fn types_written(alloc: Global, first: &Node, second: &Node) -> Result<Nodes, Memory>
    ensures { IfOk result (λ ns. trees ns ≡ more (bare (tree first.now)) (more (bare (tree second.now)) none)) }
{
    let mut nodes = Nodes::new(alloc);
    nodes.push(bare_node(alloc, first)?)?;
    nodes.push(bare_node(alloc, second)?)?;
    Ok(nodes)
}

fn lambda_instr(
    alloc: Global,
    recursive: bool,
    written: Written<'_>,
    arrow: Arrow,
    block: Block,
) -> Result<Instr, Memory>
    ensures { IfOk result (λ i. code i ≡ lambda_code recursive (tree written.entry.0.now) (tree written.entry.1.now) (tree written.entry.2.now) arrow (codes block)) }
{
    let types = types_written(alloc, written.0, written.1)?;
    let body = Shared::new(alloc, copy_node(alloc, written.2)?)?;
    Ok(Instr::Lambda {
        recursive,
        arg: arrow.arg,
        ret: arrow.ret,
        written: types,
        body,
        code: block,
    })
}

/// LAMBDA or LAMBDA_REC with its typed body, at a location. IllTyped, at this location, where the body ends with other types
/// or the lambda's type is past the limit; Memory where there is no room.
#[tactic(auto, using(crate::proofs::LambdaTyping::ends_otherwise, crate::proofs::LambdaTyping::ends_large, crate::proofs::LambdaTyping::ends_well))]
pub fn lambda_made(
    alloc: Global,
    recursive: bool,
    written: Written<'_>,
    arrow: Arrow,
    body: Body,
    types: Rows<Ty>,
    at: u32,
) -> Result<Made, CheckError>
    ensures { IsLambdaFrom arrow at recursive (tree written.entry.0.now) (tree written.entry.1.now) (tree written.entry.2.now) (kinds types) body result }
{
    let ends = only(alloc, &arrow.ret)?;
    if !ends_in(&body.after, &ends) {
        return Err(CheckError::IllTyped(at));
    }
    let lambda = lambda_of(alloc, &arrow.arg, &arrow.ret)?;
    let after = with_made(lambda, types, at)?;
    let instr = lambda_instr(alloc, recursive, written, arrow, body.code)?;
    Ok(Made {
        instr,
        after: Some(after),
    })
}
