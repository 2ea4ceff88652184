// EXEC, FAILWITH and NEVER.
ghost use Rattle.std.specs.Prelude.{◌≡◌, ◌∷◌, IfOk};
ghost use Rattle.rules_data.specs.values.Val.{lambda};
ghost use Rattle.mich_base.specs.TypeView.{kind};
ghost use Rattle.mich_base.specs.View.{tree};
ghost use Rattle.mich_instr.specs.Code as made;
ghost use Rattle.mich_stack.specs.Views.{Sight, seen};
ghost use Rattle.mich_interpreter.specs.View.{tops};
ghost use Rattle.mich_interpreter.specs.Calls.{HasLambda, called};
ghost use Rattle.mich_interpreter.specs.Ends.{Comes, Carries, Spends};

use crate::act::{Act, Failed};
use crate::frame::Frame;
use crate::paying::pay;
use crate::stack::{pop, push};
use mich_base::{Link, Memory, Rows, Shared, Ty, copy_type};
use mich_check::cache::Bodies;
use mich_gas::{Costs, Kind};
use mich_instr::Body;
use mich_state::State;
use mich_term::Value;
use std::alloc::Global;
use std::mem;

// Takes the lambda on top: its body, and whether it is recursive.
pub(crate) fn pop_lambda(stack: &mut Rows<Value>) -> (Shared<Body>, bool)
    requires { (big : Sight) × HasLambda (tops big stack.old) }
    ensures { (big : Sight) → tops big stack.old ≡ lambda (tree result.0) result.1 ∷ tops big stack.new }
{
    match stack.pop() {
        Some(Value::Lambda(body, recursive)) => (body, recursive),
        _ => unreachable!(),
    }
}

// The stack that a body begins with: the argument, and below it a recursive lambda itself.
fn call_stack(
    alloc: Global,
    argument: Value,
    body: Shared<Body>,
    recursive: bool,
) -> Result<Rows<Value>, Memory>
    ensures { IfOk result (λ s. (big : Sight) → tops big s ≡ called (seen big argument) (tree body) recursive) }
{
    let mut stack = Rows::new(alloc);
    if !recursive {
        push(&mut stack, argument)?;
        return Ok(stack);
    }
    push(&mut stack, Value::Lambda(body, true))?;
    push(&mut stack, argument)?;
    Ok(stack)
}

pub(crate) fn act_exec(
    alloc: Global,
    m: &mut State,
    costs: &Costs,
    bodies: &mut Bodies,
    arg: &Ty,
    ret: &Ty,
) -> Result<Act, Memory>
    requires { Comes (made.exec (kind arg.now) (kind ret.now)) costs.now m.old }
    ensures acts { Carries (made.exec (kind arg.now) (kind ret.now)) costs.now m.old m.new result }
    ensures less { IfOk result (λ a. Spends a m.old.meter m.new.meter) }
    ensures ledger { m.new.ledger ≡ m.old.ledger }
    ensures counts { m.new.counts ≡ m.old.counts }
    ensures issued { m.new.issued ≡ m.old.issued }
{
    if !pay(&mut m.meter, costs, Kind::Exec, 0) {
        return Ok(Act::Failed(Failed::OutOfGas));
    }
    let argument = pop(&mut m.stack);
    let (body, recursive) = pop_lambda(&mut m.stack);
    let code = bodies.code(alloc, arg, ret, recursive, &body)?;
    let stack = call_stack(alloc, argument, body, recursive)?;
    let below = mem::replace(&mut m.stack, stack);
    Ok(Act::Open(Some(Frame::Call(below)), code))
}

pub(crate) fn act_failwith(
    alloc: Global,
    m: &mut State,
    costs: &Costs,
    ty: &Ty,
) -> Result<Act, Memory>
    requires { Comes (made.failwith (kind ty.now)) costs.now m.old }
    ensures acts { Carries (made.failwith (kind ty.now)) costs.now m.old m.new result }
    ensures less { IfOk result (λ a. Spends a m.old.meter m.new.meter) }
    ensures ledger { m.new.ledger ≡ m.old.ledger }
    ensures counts { m.new.counts ≡ m.old.counts }
    ensures issued { m.new.issued ≡ m.old.issued }
{
    if !pay(&mut m.meter, costs, Kind::Failwith, 0) {
        return Ok(Act::Failed(Failed::OutOfGas));
    }
    let value = pop(&mut m.stack);
    let shown = copy_type(alloc, ty)?;
    let ty = Link::new(alloc, shown)?;
    let value = Link::new(alloc, value)?;
    Ok(Act::Failed(Failed::With(ty, value)))
}

// No run comes to NEVER.
pub(crate) fn act_never(m: &mut State, costs: &Costs) -> Result<Act, Memory>
    requires { Comes made.never costs.now m.old }
    ensures acts { Carries made.never costs.now m.old m.new result }
    ensures less { IfOk result (λ a. Spends a m.old.meter m.new.meter) }
    ensures ledger { m.new.ledger ≡ m.old.ledger }
    ensures counts { m.new.counts ≡ m.old.counts }
    ensures issued { m.new.issued ≡ m.old.issued }
{
    unreachable!()
}
