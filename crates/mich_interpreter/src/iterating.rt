// ITER.
ghost use Rattle.std.specs.Prelude.{◌≡◌, IfOk};
ghost use Rattle.mich_instr.specs.Code as made;
ghost use Rattle.mich_instr.specs.View.{codes};
ghost use Rattle.mich_interpreter.specs.Ends.{Comes, Carries, Waits, Resumes, Spends, Turns};

use crate::act::{Act, Failed};
use crate::frame::Frame;
use crate::items::{Items, is_done, items_of, next_item};
use crate::paying::pay;
use crate::stack::{pop, push};
use mich_base::Memory;
use mich_gas::{Costs, Kind};
use mich_instr::Block;
use mich_state::State;
use std::alloc::Global;

// ITER's turn for the next item, or its end.
pub(crate) fn next_each(
    alloc: Global,
    m: &mut State,
    costs: &Costs,
    body: Block,
    items: Items,
) -> Result<Act, Memory>
    requires { Waits (Frame.Each body items) costs.now m.old }
    ensures acts { Resumes (Frame.Each body items) costs.now m.old m.new result }
    ensures gas { IfOk result (λ a. Turns a m.old.meter m.new.meter) }
    ensures ledger { m.new.ledger ≡ m.old.ledger }
    ensures counts { m.new.counts ≡ m.old.counts }
    ensures issued { m.new.issued ≡ m.old.issued }
{
    if is_done(&items) {
        return Ok(Act::On);
    }
    if !pay(&mut m.meter, costs, Kind::Turn, 0) {
        return Ok(Act::Failed(Failed::OutOfGas));
    }
    let mut items = items;
    let item = next_item(alloc, &mut items)?;
    push(&mut m.stack, item)?;
    let code = body.share()?;
    Ok(Act::Open(Some(Frame::Each(body, items)), code))
}

pub(crate) fn act_iter(
    alloc: Global,
    m: &mut State,
    costs: &Costs,
    body: &Block,
) -> Result<Act, Memory>
    requires { Comes (made.iter (codes body.now)) costs.now m.old }
    ensures acts { Carries (made.iter (codes body.now)) costs.now m.old m.new result }
    ensures less { IfOk result (λ a. Spends a m.old.meter m.new.meter) }
    ensures ledger { m.new.ledger ≡ m.old.ledger }
    ensures counts { m.new.counts ≡ m.old.counts }
    ensures issued { m.new.issued ≡ m.old.issued }
{
    if !pay(&mut m.meter, costs, Kind::Iter, 0) {
        return Ok(Act::Failed(Failed::OutOfGas));
    }
    let over = pop(&mut m.stack);
    let items = items_of(alloc, over)?;
    let body = body.share()?;
    let act = next_each(alloc, m, costs, body, items)?;
    Ok(act)
}
