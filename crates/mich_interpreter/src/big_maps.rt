// Instructions on big maps.
ghost use Rattle.std.specs.Prelude.{◌≡◌, true, IfOk};
ghost use Rattle.rules_text.specs.nodes.Tree.{Tree};
ghost use Rattle.rules_code.specs.instructions.Straight.{on_collections};
ghost use Rattle.mich_instr.specs.Code as made;
ghost use Rattle.mich_overload.specs.Steps.{is_on_big_map};
ghost use Rattle.mich_overload.specs.View.{collection_row};
ghost use Rattle.mich_interpreter.specs.Ends.{ComesIn, CarriesIn, Spends, KeepsAct};

use crate::act::{Act, Failed};
use crate::burning::burn_value;
use crate::paying::pay_capped;
use mich_base::Memory;
use mich_gas::Costs;
use mich_overload::CollectionRow;
use mich_state::State;
use mich_step::prices::collection_price;
use mich_store_steps::big_maps::{big_map_step, big_map_weight};
use mich_world::World;
use std::alloc::Global;

// They are seen in the store of the world in which the run began.
pub(crate) fn act_big_map(
    alloc: Global,
    m: &mut State,
    costs: &Costs,
    world: &World,
    row: &CollectionRow,
) -> Result<Act, Memory>
    requires on_big_map { is_on_big_map (collection_row row.now) ≡ true }
    requires comes { (app : Tree) × ComesIn world.now (made.straight (on_collections (collection_row row.now)) app) costs.now m.old }
    ensures acts { (app : Tree) → CarriesIn world.now (made.straight (on_collections (collection_row row.now)) app) costs.now m.old m.new result }
    ensures less { IfOk result (λ a. Spends a m.old.meter m.new.meter) }
    ensures keeps { IfOk result (λ a. KeepsAct a m.old m.new) }
{
    let store = world.store();
    let weight = big_map_weight(alloc, row, &m.stack, store)?;
    if !pay_capped(&mut m.meter, costs, collection_price(row), weight) {
        return Ok(Act::Failed(Failed::OutOfGas));
    }
    let gone = big_map_step(alloc, row, &mut m.stack, store)?;
    burn_value(alloc, &mut m.ledger, gone)?;
    Ok(Act::On)
}
