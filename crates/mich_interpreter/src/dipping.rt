// DIP.
ghost use Rattle.std.specs.Prelude.{◌≡◌, IfOk, ◌≤◌, length};
ghost use Rattle.rules_text.specs.nodes.Tree.{Trees};
ghost use Rattle.mich_instr.specs.Code as made;
ghost use Rattle.mich_instr.specs.View.{codes};
ghost use Rattle.mich_interpreter.specs.View.{AreTaken};
ghost use Rattle.mich_interpreter.specs.Ends.{Comes, Carries, Spends};

use crate::act::{Act, Failed};
use crate::frame::Frame;
use crate::paying::pay;
use mich_base::{Memory, Rows};
use mich_gas::{Costs, Kind};
use mich_instr::Block;
use mich_state::State;
use mich_term::Value;
use std::alloc::Global;
use std::mem;

// Takes so many values from the top.
#[inline(always)]
fn take_above(alloc: Global, stack: &mut Rows<Value>, count: usize) -> Result<Rows<Value>, Memory>
    requires { count ≤ length stack.old }
    ensures { IfOk result (λ above. AreTaken count stack.old above stack.new) }
{
    let mut values = mem::replace(stack, Rows::new(alloc)).into_vec();
    let place = values.len() - count;
    let above = values.split_off(place)?;
    *stack = Rows::from_vec(values);
    Ok(Rows::from_vec(above))
}

pub(crate) fn act_dip(
    alloc: Global,
    m: &mut State,
    costs: &Costs,
    count: u32,
    body: &Block,
) -> Result<Act, Memory>
    requires { (written : Trees) × Comes (made.dip count written (codes body.now)) costs.now m.old }
    ensures acts { (written : Trees) → Carries (made.dip count written (codes body.now)) costs.now m.old m.new result }
    ensures less { IfOk result (λ a. Spends a m.old.meter m.new.meter) }
    ensures ledger { m.new.ledger ≡ m.old.ledger }
    ensures counts { m.new.counts ≡ m.old.counts }
    ensures issued { m.new.issued ≡ m.old.issued }
{
    if !pay(&mut m.meter, costs, Kind::Dip, 0) {
        return Ok(Act::Failed(Failed::OutOfGas));
    }
    let above = take_above(alloc, &mut m.stack, count as usize)?;
    let body = body.share()?;
    Ok(Act::Open(Some(Frame::Under(above)), body))
}
