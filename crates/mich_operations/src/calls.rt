// Calls that a source orders.
ghost use Rattle.std.specs.Prelude.{IfOk};
ghost use Rattle.rules_world.specs.world.Contents.{Call};
ghost use Rattle.rules_world.specs.world.Outcomes.{ordered};
ghost use Rattle.mich_base.specs.View.{tree};
ghost use Rattle.mich_bigmap.specs.Extended.{Extends};
ghost use Rattle.mich_forms.specs.Spelled.{place_bytes};
ghost use Rattle.mich_machine.specs.Calls.{IsHosting};
ghost use Rattle.mich_world.specs.Marks.{KeepsWorld};
ghost use Rattle.mich_operations.specs.Calls.{CallsPlace};
ghost use Rattle.mich_operations.specs.Going.{KeepsContracts, WithMemory, SomeBegins};

use crate::accounts::call_account;
use crate::applied::{Applied, ApplyError};
use crate::arguments::argument_of;
use crate::running::call_contract;
use mich_base::Node;
use mich_forms::{Entrypoint, KeyHash, Place};
use mich_gas::{Costs, Meter};
use mich_machine::{Bodies, Counts};
use mich_world::World;
use std::alloc::Global;

// Calls an entrypoint of a place with an argument and mutez of the source.
pub(crate) fn call(
    alloc: Global,
    world: &mut World,
    costs: &Costs,
    source: &KeyHash,
    meter: &mut Meter,
    counts: &mut Counts,
    bodies: &mut Bodies,
    amount: u64,
    to: &Place,
    entry: &Entrypoint,
    argument: &Node,
) -> Result<Applied, ApplyError>
    requires next { SomeBegins world.old costs.now counts.old source.now (ordered (Call amount (place_bytes to.now) entry.now (tree argument.now))) }
    requires hosting { IsHosting world.old }
    ensures ends { CallsPlace costs.entry source.entry amount to.entry entry.entry argument.entry world.old meter.old counts.old world.new meter.new counts.new result }
    ensures hosting { IfOk result (λ _. IsHosting world.new) }
    ensures bases { IfOk result (λ _. Extends world.old.store.bases.present world.new.store.bases.present) }
    ensures contracts { IfOk result (λ _. KeepsContracts world.old world.new) }
    ensures keeps { WithMemory result (KeepsWorld world.old world.new) }
{
    match to {
        Place::Implicit(who) => call_account(alloc, world, source, who, entry, amount, argument),
        Place::Contract(hash) => match argument_of(alloc, world, hash, entry, argument) {
            Ok(value) => {
                let from = Place::Implicit(*source);
                call_contract(
                    alloc, world, costs, source, meter, counts, bodies, &from, hash, entry, amount,
                    value,
                )
            }
            Err(why) => Err(why),
        },
    }
}
