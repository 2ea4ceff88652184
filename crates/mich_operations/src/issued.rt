// Operations that a contract issued.
ghost use Rattle.std.specs.Prelude.{◌≡◌, true, is_some, IfOk};
ghost use Rattle.mich_bigmap.specs.Extended.{Extends};
ghost use Rattle.mich_machine.specs.Calls.{IsHanded, IsHosting};
ghost use Rattle.mich_world.specs.Holders.{contract_at};
ghost use Rattle.mich_world.specs.Marks.{KeepsWorld};
ghost use Rattle.mich_operations.specs.Going.{Applies, KeepsContracts, WithMemory, issued_by, SomeBegins};

use crate::applied::{Applied, ApplyError};
use crate::charging::charge;
use crate::founding::found;
use crate::sending::send;
use crate::telling::tell;
use mich_forms::{KeyHash, Place};
use mich_gas::{Costs, Kind, Meter};
use mich_machine::{Bodies, Counts};
use mich_ops::{Failure, Issued};
use mich_term::abandon;
use mich_world::World;
use std::alloc::Global;

/// Applies an operation that the contract of these 20 bytes issued. Failed exactly where the rules say that it fails; the world can
/// then be taken back to an earlier mark. After Memory the world is given up (Octez "Operations", internal operations).
pub fn apply_issued(
    alloc: Global,
    world: &mut World,
    costs: &Costs,
    source: &KeyHash,
    meter: &mut Meter,
    counts: &mut Counts,
    bodies: &mut Bodies,
    by: [u8; 20],
    operation: Issued,
) -> Result<Applied, ApplyError>
    requires next { SomeBegins world.old costs.now counts.old source.now (issued_by world.old.store.bases.present by operation) }
    requires hosting { IsHosting world.old }
    requires there { is_some (contract_at world.old.funds.present by) ≡ true }
    requires handed { IsHanded world.old.store.bases.present operation }
    ensures ends { Applies costs.entry source.entry (issued_by world.old.store.bases.present by operation) world.old meter.old counts.old world.new meter.new counts.new result }
    ensures hosting { IfOk result (λ _. IsHosting world.new) }
    ensures bases { IfOk result (λ _. Extends world.old.store.bases.present world.new.store.bases.present) }
    ensures contracts { IfOk result (λ _. KeepsContracts world.old world.new) }
    ensures keeps { WithMemory result (KeepsWorld world.old world.new) }
{
    match operation {
        Issued::Transfer {
            argument,
            amount,
            to,
            ..
        } => {
            charge(costs, meter, Kind::Transfer)?;
            send(
                alloc, world, costs, source, meter, counts, bodies, by, &to, amount, argument,
            )
        }
        Issued::Origination {
            delegate,
            amount,
            script,
            storage,
            hash,
            ..
        } => {
            charge(costs, meter, Kind::Origination)?;
            if delegate.is_some() {
                abandon(storage);
                return Err(ApplyError::Failed(Failure::UnregisteredDelegate));
            }
            found(
                alloc,
                world,
                source,
                &Place::Contract(by),
                hash,
                amount,
                script,
                storage,
            )
        }
        Issued::Event { tag, ty, value, .. } => {
            charge(costs, meter, Kind::Event)?;
            let told = tell(alloc, world, by, tag, &ty, &value);
            abandon(value);
            told
        }
    }
}
