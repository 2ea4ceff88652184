// APPLY.
ghost use Rattle.std.specs.Prelude.{◌≡◌, true, IfOk};
ghost use Rattle.rules_data.specs.types.Kind.{pair};
ghost use Rattle.rules_code.specs.evaluation.Calls.{applied, push_node, rec_node};
ghost use Rattle.mich_base.specs.TypeView.{kind};
ghost use Rattle.mich_base.specs.View.{tree};
ghost use Rattle.mich_instr.specs.Code as made;
ghost use Rattle.mich_term.specs.ValueView.{val};
ghost use Rattle.mich_interpreter.specs.Ends.{Comes, Carries, Spends};
ghost use Rattle.mich_interpreter.specs.Calls.{capturing};

use crate::act::{Act, Failed};
use crate::applied::made_body;
use crate::calls::pop_lambda;
use crate::paying::pay_capped;
use crate::stack::{pop, push};
use mich_base::{
    APPLIED_DEPTH, APPLIED_SIZE, Memory, Node, Nodes, Ty, copy_node, depth_within, size_within,
};
use mich_data::value_node;
use mich_gas::{Costs, Kind};
use mich_state::State;
use mich_term::{Value, weight};
use mich_types::{application, bare, over_two, type_node};
use std::alloc::Global;

// PUSH of a value of a type.
fn push_node(alloc: Global, ty: &Ty, value: &Value) -> Result<Node, Memory>
    ensures { IfOk result (λ n. tree n ≡ push_node (kind ty.now) (val value.now)) }
{
    let written = type_node(alloc, ty)?;
    over_two(alloc, b"PUSH", written, value_node(alloc, value)?)
}

// LAMBDA_REC from a pair of types.
fn rec_node(alloc: Global, first: &Ty, second: &Ty, ret: &Ty, body: &Node) -> Result<Node, Memory>
    ensures { IfOk result (λ n. tree n ≡ rec_node (pair (kind first.now) (kind second.now)) (kind ret.now) (tree body.now)) }
{
    let part = type_node(alloc, first)?;
    let both = over_two(alloc, b"pair", part, type_node(alloc, second)?)?;
    let mut args = Nodes::new(alloc);
    args.push(both)?;
    args.push(type_node(alloc, ret)?)?;
    args.push(copy_node(alloc, body)?)?;
    application(alloc, b"LAMBDA_REC", args)
}

// The body that takes the other part alone: it pushes the value, pairs the two and goes on with the old body.
fn plain_node(alloc: Global, captured: &Ty, value: &Value, body: &Node) -> Result<Node, Memory>
    ensures { IfOk result (λ n. tree n ≡ capturing (kind captured.now) (val value.now) (tree body.now)) }
{
    let mut nodes = Nodes::new(alloc);
    nodes.push(push_node(alloc, captured, value)?)?;
    nodes.push(bare(alloc, b"PAIR")?)?;
    nodes.push(copy_node(alloc, body)?)?;
    Ok(Node::Seq(nodes))
}

// The same of a recursive lambda, which is called on the pair.
fn recursive_node(
    alloc: Global,
    captured: &Ty,
    rest: &Ty,
    ret: &Ty,
    value: &Value,
    body: &Node,
) -> Result<Node, Memory>
    ensures { IfOk result (λ n. tree n ≡ applied (kind captured.now) (kind rest.now) (kind ret.now) (val value.now) (tree body.now) true) }
{
    let mut nodes = Nodes::new(alloc);
    nodes.push(push_node(alloc, captured, value)?)?;
    nodes.push(bare(alloc, b"PAIR")?)?;
    nodes.push(rec_node(alloc, captured, rest, ret, body)?)?;
    nodes.push(bare(alloc, b"SWAP")?)?;
    nodes.push(bare(alloc, b"EXEC")?)?;
    Ok(Node::Seq(nodes))
}

// What APPLY makes of a lambda and a value.
fn applied_node(
    alloc: Global,
    captured: &Ty,
    rest: &Ty,
    ret: &Ty,
    value: &Value,
    body: &Node,
    recursive: bool,
) -> Result<Node, Memory>
    ensures { IfOk result (λ n. tree n ≡ applied (kind captured.now) (kind rest.now) (kind ret.now) (val value.now) (tree body.now) recursive) }
{
    if recursive {
        recursive_node(alloc, captured, rest, ret, value, body)
    } else {
        plain_node(alloc, captured, value, body)
    }
}

pub(crate) fn act_apply(
    alloc: Global,
    m: &mut State,
    costs: &Costs,
    captured: &Ty,
    rest: &Ty,
    ret: &Ty,
) -> Result<Act, Memory>
    requires { Comes (made.apply (kind captured.now) (kind rest.now) (kind ret.now)) costs.now m.old }
    ensures acts { Carries (made.apply (kind captured.now) (kind rest.now) (kind ret.now)) costs.now m.old m.new result }
    ensures less { IfOk result (λ a. Spends a m.old.meter m.new.meter) }
    ensures ledger { m.new.ledger ≡ m.old.ledger }
    ensures counts { m.new.counts ≡ m.old.counts }
    ensures issued { m.new.issued ≡ m.old.issued }
{
    let value = pop(&mut m.stack);
    if !pay_capped(&mut m.meter, costs, Kind::Apply, weight(&value)) {
        return Ok(Act::Failed(Failed::OutOfGas));
    }
    let (body, recursive) = pop_lambda(&mut m.stack);
    let old = body.get();
    let made = applied_node(alloc, captured, rest, ret, &value, old.node(), recursive)?;
    if !size_within(&made, APPLIED_SIZE) {
        return Ok(Act::Failed(Failed::SizeLimit));
    }
    if !depth_within(&made, APPLIED_DEPTH) {
        return Ok(Act::Failed(Failed::DepthLimit));
    }
    let taken = made_body(alloc, captured, rest, ret, &value, old, recursive, made)?;
    push(&mut m.stack, Value::Lambda(taken, false))?;
    Ok(Act::On)
}
