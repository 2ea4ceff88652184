// Instructions without bodies.
ghost use Rattle.std.specs.Prelude.{◌≡◌, true, IfOk};
ghost use Rattle.rules_text.specs.nodes.Tree.{Tree};
ghost use Rattle.mich_instr.specs.Code as made;
ghost use Rattle.mich_overload.specs.View.{straight};
ghost use Rattle.mich_overload.specs.Steps.{in_step};
ghost use Rattle.mich_stack.specs.Views.{Sight, failure as step_failure};
ghost use Rattle.mich_interpreter.specs.Ends.{Comes, Carries, ComesIn, CarriesIn, Spends, KeepsAct, failure};

use crate::act::{Act, Failed};
use crate::big_maps::act_big_map;
use crate::hashing::act_packing;
use crate::issuing::act_operation;
use crate::paying::pay_capped;
use mich_base::Memory;
use mich_check::cache::Bodies;
use mich_gas::Costs;
use mich_overload::Simple;
use mich_stack::{StepError, StepFailure};
use mich_state::State;
use mich_step::prices::{price, weigh};
use mich_step::step;
use mich_world::World;
use std::alloc::Global;

// The failure of a run by that of an instruction.
pub(crate) fn failed(why: StepFailure) -> Failed
    ensures { (big : Sight) → failure big result ≡ step_failure why }
{
    match why {
        StepFailure::IntegerLimit => Failed::IntegerLimit,
        StepFailure::MutezOverflow => Failed::MutezOverflow,
        StepFailure::ShiftLimit => Failed::ShiftLimit,
        StepFailure::SizeLimit => Failed::SizeLimit,
    }
}

// One that asks for nothing but the stack, the tickets and what surrounds the run.
fn act_step(alloc: Global, m: &mut State, costs: &Costs, instr: &Simple) -> Result<Act, Memory>
    requires in_step { in_step (straight instr.now) ≡ true }
    requires comes { (app : Tree) × Comes (made.straight (straight instr.now) app) costs.now m.old }
    ensures acts { (app : Tree) → Carries (made.straight (straight instr.now) app) costs.now m.old m.new result }
    ensures less { IfOk result (λ a. Spends a m.old.meter m.new.meter) }
    ensures keeps { IfOk result (λ a. KeepsAct a m.old m.new) }
{
    let weight = weigh(alloc, instr, &m.stack)?;
    if !pay_capped(&mut m.meter, costs, price(instr), weight) {
        return Ok(Act::Failed(Failed::OutOfGas));
    }
    match step(alloc, instr, &mut m.stack, &mut m.ledger, &m.env) {
        Ok(()) => Ok(Act::On),
        Err(StepError::Failed(why)) => Ok(Act::Failed(failed(why))),
        Err(StepError::Memory) => Err(Memory),
    }
}

#[tactic(auto, using(crate::proofs::Keeping::acts_group))]
pub(crate) fn act_straight(
    alloc: Global,
    m: &mut State,
    costs: &Costs,
    world: &World,
    bodies: &mut Bodies,
    instr: &Simple,
) -> Result<Act, Memory>
    requires { (app : Tree) × ComesIn world.now (made.straight (straight instr.now) app) costs.now m.old }
    ensures acts { (app : Tree) → CarriesIn world.now (made.straight (straight instr.now) app) costs.now m.old m.new result }
    ensures less { IfOk result (λ a. Spends a m.old.meter m.new.meter) }
    ensures keeps { IfOk result (λ a. KeepsAct a m.old m.new) }
{
    if instr.in_step() {
        let act = act_step(alloc, m, costs, instr)?;
        return Ok(act);
    }
    match instr {
        Simple::Operations(row) => Ok(act_operation(alloc, m, costs, world, bodies, row)?),
        Simple::Hashes(row) => Ok(act_packing(alloc, m, costs, bodies, row)?),
        Simple::Collections(row) => Ok(act_big_map(alloc, m, costs, world, row)?),
        _ => unreachable!(),
    }
}
