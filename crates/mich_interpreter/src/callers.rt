// Whoever called a view.
ghost use Rattle.std.specs.Prelude.{◌≡◌, IfOk};
ghost use Rattle.mich_stack.specs.Views.{Sight};
ghost use Rattle.mich_frames.specs.Shapes.{HasTop};
ghost use Rattle.mich_interpreter.specs.Callers.{IsEntered, IsBack, home};
ghost use Rattle.mich_interpreter.specs.View.{tops};

use crate::act::View;
use crate::frame::Frame;
use crate::machine::Machine;
use crate::stack::{pop, push};
use mich_base::{BLOCK_LIMIT, Boxed, Link, Memory, Rows};
use mich_instr::Block;
use mich_ops::Issued;
use mich_state::State;
use mich_step::Env;
use mich_term::Value;
use mich_tickets::Ledger;
use std::alloc::Global;
use std::mem;

// What it had in hand, and the rest of its code.
#[derive(Drop)]
pub(crate) struct Caller {
    pub(crate) block: Block,
    pub(crate) at: usize,
    pub(crate) frames: Rows<Frame>,
    pub(crate) env: Env,
    pub(crate) ledger: Ledger,
    pub(crate) issued: Rows<Issued>,
    pub(crate) below: Rows<Value>,
}

// Opens a view, with a ledger of its own, where not too many blocks are open.
pub(crate) fn enter(
    alloc: Global,
    m: &mut Machine,
    callers: &mut Rows<Caller>,
    view: Boxed<View>,
) -> Result<bool, Memory>
    ensures { IfOk result (λ b. IsEntered b view m.old callers.old m.new callers.new) }
{
    if m.depth >= BLOCK_LIMIT {
        return Ok(false);
    }
    let view = view.into_value();
    let outer = m.state.enter(alloc, view.value, view.env)?;
    let caller = Caller {
        block: mem::replace(&mut m.block, view.code),
        at: mem::replace(&mut m.at, 0),
        frames: mem::replace(&mut m.frames, Rows::new(alloc)),
        env: outer.env,
        ledger: outer.ledger,
        issued: outer.issued,
        below: outer.below,
    };
    callers.push(caller)?;
    m.depth += 1;
    Ok(true)
}

// Ends a view: what it gives comes on top of its caller's stack, and its ledger and operations are dropped.
pub(crate) fn go_back(alloc: Global, m: &mut Machine, caller: Caller) -> Result<(), Memory>
    requires { (big : Sight) × HasTop (tops big m.old.state.stack) }
    ensures { IfOk result (λ _. IsBack caller m.old m.new) }
{
    let value = pop(&mut m.state.stack);
    let given = Value::Some(Link::new(alloc, value)?);
    let mut stack = caller.below;
    push(&mut stack, given)?;
    m.block = caller.block;
    m.at = caller.at;
    m.frames = caller.frames;
    m.state.env = caller.env;
    m.state.ledger = caller.ledger;
    m.state.issued = caller.issued;
    m.state.stack = stack;
    Ok(())
}

// A state with the ledger and the operations of the first caller, if there is one.
pub(crate) fn go_home(state: State, callers: Rows<Caller>) -> State
    ensures { result ≡ home callers state }
{
    let mut callers = callers;
    callers.truncate(1);
    match callers.pop() {
        Some(first) => State {
            stack: state.stack,
            meter: state.meter,
            counts: state.counts,
            env: state.env,
            ledger: first.ledger,
            issued: first.issued,
        },
        None => state,
    }
}
