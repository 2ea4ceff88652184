// The check of the bodies of lambdas.
ghost use Rattle.std.specs.Prelude.{◌≡◌, ◌<◌, ◌^◌};
ghost use Rattle.rules_text.specs.nodes.Tree.{seq, size};
ghost use Rattle.mich_base.specs.TypeView.{kind};
ghost use Rattle.mich_base.specs.View.{tree};
ghost use Rattle.mich_control.specs.Answers.{IsLambda, inside};

use crate::nodes;
use mich_base::{Node, Ty};
use mich_control::{CheckError, Place, call_types, ends_in, only};
use mich_instr::Block;
use std::alloc::Global;

/// The typed code of a node as the body of a lambda of these types, which may be recursive (Michelson reference, "LAMBDA"
/// and "LAMBDA_REC"). IllTyped has the location of its first fault; Memory where there is no room for it.
pub fn check_body(
    alloc: Global,
    arg: &Ty,
    ret: &Ty,
    recursive: bool,
    node: &Node,
) -> Result<Block, CheckError>
    requires sequence { tree node.now ≡ seq (inside (tree node.now)) }
    requires fits { size (tree node.now) < 2 ^ 32 }
    ensures { IsLambda (kind arg.now) (kind ret.now) recursive (tree node.now) result }
{
    let types = call_types(alloc, arg, ret, recursive)?;
    let mut end = 0;
    let body = nodes::check_body(alloc, node, 0, Place::Lambda, types, &mut end)?;
    let ends = only(alloc, ret)?;
    if !ends_in(&body.after, &ends) {
        return Err(CheckError::IllTyped(0));
    }
    Ok(body.code)
}
