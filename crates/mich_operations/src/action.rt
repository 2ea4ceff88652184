// Operations that a source orders.
ghost use Rattle.std.specs.Prelude.{IfOk};
ghost use Rattle.rules_world.specs.world.Outcomes.{ordered};
ghost use Rattle.mich_bigmap.specs.Extended.{Extends};
ghost use Rattle.mich_machine.specs.Calls.{IsHosting};
ghost use Rattle.mich_ops.specs.View.{action as action_of};
ghost use Rattle.mich_world.specs.Marks.{KeepsWorld};
ghost use Rattle.mich_operations.specs.Going.{Applies, KeepsContracts, WithMemory, SomeBegins};

use crate::applied::{Applied, ApplyError};
use crate::calls::call;
use crate::charging::charge;
use crate::giving::give;
use crate::originating::originate;
use mich_forms::KeyHash;
use mich_gas::{Costs, Kind, Meter};
use mich_machine::{Bodies, Counts};
use mich_ops::Action;
use mich_world::World;
use std::alloc::Global;

/// Applies an action that a source orders. Failed exactly where the rules say that it fails; the world can then be taken back to an
/// earlier mark. After Memory the world is given up (Octez "Operations", manager operations).
pub fn apply_action(
    alloc: Global,
    world: &mut World,
    costs: &Costs,
    source: &KeyHash,
    meter: &mut Meter,
    counts: &mut Counts,
    bodies: &mut Bodies,
    action: &Action,
) -> Result<Applied, ApplyError>
    requires next { SomeBegins world.old costs.now counts.old source.now (ordered (action_of action.now)) }
    requires hosting { IsHosting world.old }
    ensures ends { Applies costs.entry source.entry (ordered (action_of action.entry.now)) world.old meter.old counts.old world.new meter.new counts.new result }
    ensures hosting { IfOk result (λ _. IsHosting world.new) }
    ensures bases { IfOk result (λ _. Extends world.old.store.bases.present world.new.store.bases.present) }
    ensures contracts { IfOk result (λ _. KeepsContracts world.old world.new) }
    ensures keeps { WithMemory result (KeepsWorld world.old world.new) }
{
    match action {
        Action::Call {
            amount,
            to,
            entry,
            argument,
        } => {
            charge(costs, meter, Kind::Transfer)?;
            call(
                alloc, world, costs, source, meter, counts, bodies, *amount, to, entry, argument,
            )
        }
        Action::Originate {
            balance,
            script,
            storage,
        } => {
            charge(costs, meter, Kind::Origination)?;
            originate(alloc, world, source, counts, *balance, script, storage)
        }
        Action::Give {
            issuer,
            ty,
            content,
            amount,
            to,
            entry,
        } => {
            charge(costs, meter, Kind::Transfer)?;
            give(
                alloc, world, costs, source, meter, counts, bodies, issuer, ty, content, *amount,
                to, entry,
            )
        }
    }
}
