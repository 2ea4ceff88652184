// PACK, UNPACK and the hashes.
ghost use Rattle.std.specs.Prelude.{◌≡◌, false, IfOk};
ghost use Rattle.rules_text.specs.nodes.Tree.{Tree};
ghost use Rattle.rules_code.specs.instructions.Straight.{on_hashes};
ghost use Rattle.mich_store_steps.specs.hashes.Operands.{is_unpack};
ghost use Rattle.mich_instr.specs.Code as made;
ghost use Rattle.mich_overload.specs.View.{hash_row};
ghost use Rattle.mich_interpreter.specs.Ends.{Comes, Carries, Spends, KeepsAct};

use crate::act::{Act, Failed};
use crate::paying::pay_capped;
use crate::straights::failed;
use crate::unpacking::act_unpack;
use mich_base::Memory;
use mich_check::cache::Bodies;
use mich_gas::Costs;
use mich_overload::HashRow;
use mich_stack::StepError;
use mich_state::State;
use mich_step::prices::hash_price;
use mich_store_steps::hashes::{hash_step, hash_weight};
use std::alloc::Global;

// Not for UNPACK.
fn act_hash(alloc: Global, m: &mut State, costs: &Costs, row: &HashRow) -> Result<Act, Memory>
    requires no_unpack { is_unpack (hash_row row.now) ≡ false }
    requires comes { (app : Tree) × Comes (made.straight (on_hashes (hash_row row.now)) app) costs.now m.old }
    ensures acts { (app : Tree) → Carries (made.straight (on_hashes (hash_row row.now)) app) costs.now m.old m.new result }
    ensures less { IfOk result (λ a. Spends a m.old.meter m.new.meter) }
    ensures keeps { IfOk result (λ a. KeepsAct a m.old m.new) }
{
    let weight = hash_weight(row, &m.stack);
    if !pay_capped(&mut m.meter, costs, hash_price(row), weight) {
        return Ok(Act::Failed(Failed::OutOfGas));
    }
    match hash_step(alloc, row, &mut m.stack) {
        Ok(()) => Ok(Act::On),
        Err(StepError::Failed(why)) => Ok(Act::Failed(failed(why))),
        Err(StepError::Memory) => Err(Memory),
    }
}

#[tactic(auto, using(crate::proofs::Keeping::acts_same))]
pub(crate) fn act_packing(
    alloc: Global,
    m: &mut State,
    costs: &Costs,
    bodies: &mut Bodies,
    row: &HashRow,
) -> Result<Act, Memory>
    requires { (app : Tree) × Comes (made.straight (on_hashes (hash_row row.now)) app) costs.now m.old }
    ensures acts { (app : Tree) → Carries (made.straight (on_hashes (hash_row row.now)) app) costs.now m.old m.new result }
    ensures less { IfOk result (λ a. Spends a m.old.meter m.new.meter) }
    ensures keeps { IfOk result (λ a. KeepsAct a m.old m.new) }
{
    match row {
        HashRow::Unpack(ty) => Ok(act_unpack(alloc, m, costs, bodies, ty)?),
        _ => Ok(act_hash(alloc, m, costs, row)?),
    }
}
