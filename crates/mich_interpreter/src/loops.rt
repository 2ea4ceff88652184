// LOOP and LOOP_LEFT.
ghost use Rattle.std.specs.Prelude.{◌≡◌, List, IfOk};
ghost use Rattle.mich_instr.specs.Code as made;
ghost use Rattle.mich_instr.specs.View.{codes};
ghost use Rattle.mich_instr.specs.declared.instr.Instr.{Instr};
ghost use Rattle.mich_interpreter.specs.Ends.{Comes, Carries, Waits, Resumes, Spends, Turns, TurnsSo, IsTurned};

use crate::act::{Act, Failed};
use crate::frame::Frame;
use crate::paying::pay;
use crate::stack::{is_left, is_true, open_union, pop_truth};
use mich_base::Memory;
use mich_gas::{Costs, Kind};
use mich_instr::Block;
use mich_state::State;

// What comes after a turn of a LOOP.
#[derive(Drop)]
pub(crate) enum Turn {
    // Its end: the truth value on top says so, and is still there.
    Over,
    // A further turn that there isn't gas for.
    Unpaid,
    // A further turn, which is paid for.
    Paid,
}

// Takes the truth value on top and pays for a further turn, where it says that there is one. Else nothing is changed.
#[inline(always)]
pub(crate) fn further_turn(m: &mut State, costs: &Costs) -> Turn
    requires { (body : List Instr) × Waits (Frame.Turns body) costs.now m.old }
    ensures turned { TurnsSo result costs.now m.old m.new }
    ensures gas { IsTurned result m.old m.new }
    ensures ledger { m.new.ledger ≡ m.old.ledger }
    ensures counts { m.new.counts ≡ m.old.counts }
    ensures issued { m.new.issued ≡ m.old.issued }
{
    if !is_true(&m.stack) {
        return Turn::Over;
    }
    pop_truth(&mut m.stack);
    if pay(&mut m.meter, costs, Kind::Turn, 0) {
        Turn::Paid
    } else {
        Turn::Unpaid
    }
}

// The next turn of a LOOP, or its end.
pub(crate) fn next_turn(m: &mut State, costs: &Costs, body: Block) -> Result<Act, Memory>
    requires { Waits (Frame.Turns body) costs.now m.old }
    ensures acts { Resumes (Frame.Turns body) costs.now m.old m.new result }
    ensures gas { IfOk result (λ a. Turns a m.old.meter m.new.meter) }
    ensures ledger { m.new.ledger ≡ m.old.ledger }
    ensures counts { m.new.counts ≡ m.old.counts }
    ensures issued { m.new.issued ≡ m.old.issued }
{
    match further_turn(m, costs) {
        Turn::Over => {
            pop_truth(&mut m.stack);
            Ok(Act::On)
        }
        Turn::Unpaid => Ok(Act::Failed(Failed::OutOfGas)),
        Turn::Paid => {
            let code = body.share()?;
            Ok(Act::Open(Some(Frame::Turns(body)), code))
        }
    }
}

pub(crate) fn act_loop(m: &mut State, costs: &Costs, body: &Block) -> Result<Act, Memory>
    requires { Comes (made.loop (codes body.now)) costs.now m.old }
    ensures acts { Carries (made.loop (codes body.now)) costs.now m.old m.new result }
    ensures less { IfOk result (λ a. Spends a m.old.meter m.new.meter) }
    ensures ledger { m.new.ledger ≡ m.old.ledger }
    ensures counts { m.new.counts ≡ m.old.counts }
    ensures issued { m.new.issued ≡ m.old.issued }
{
    if !pay(&mut m.meter, costs, Kind::Loop, 0) {
        return Ok(Act::Failed(Failed::OutOfGas));
    }
    let body = body.share()?;
    let act = next_turn(m, costs, body)?;
    Ok(act)
}

// The next turn of a LOOP_LEFT, or its end.
pub(crate) fn next_left_turn(m: &mut State, costs: &Costs, body: Block) -> Result<Act, Memory>
    requires { Waits (Frame.LeftTurns body) costs.now m.old }
    ensures acts { Resumes (Frame.LeftTurns body) costs.now m.old m.new result }
    ensures gas { IfOk result (λ a. Turns a m.old.meter m.new.meter) }
    ensures ledger { m.new.ledger ≡ m.old.ledger }
    ensures counts { m.new.counts ≡ m.old.counts }
    ensures issued { m.new.issued ≡ m.old.issued }
{
    if !is_left(&m.stack) {
        open_union(&mut m.stack)?;
        return Ok(Act::On);
    }
    if !pay(&mut m.meter, costs, Kind::Turn, 0) {
        return Ok(Act::Failed(Failed::OutOfGas));
    }
    open_union(&mut m.stack)?;
    let code = body.share()?;
    Ok(Act::Open(Some(Frame::LeftTurns(body)), code))
}

pub(crate) fn act_loop_left(m: &mut State, costs: &Costs, body: &Block) -> Result<Act, Memory>
    requires { Comes (made.loop_left (codes body.now)) costs.now m.old }
    ensures acts { Carries (made.loop_left (codes body.now)) costs.now m.old m.new result }
    ensures less { IfOk result (λ a. Spends a m.old.meter m.new.meter) }
    ensures ledger { m.new.ledger ≡ m.old.ledger }
    ensures counts { m.new.counts ≡ m.old.counts }
    ensures issued { m.new.issued ≡ m.old.issued }
{
    if !pay(&mut m.meter, costs, Kind::LoopLeft, 0) {
        return Ok(Act::Failed(Failed::OutOfGas));
    }
    let body = body.share()?;
    let act = next_left_turn(m, costs, body)?;
    Ok(act)
}
