// Contracts that are made.
ghost use Rattle.std.specs.Prelude.{◌≡◌, [], None, true, false, is_some, IfOk};
ghost use Rattle.rules_data.specs.values.Tickets.{tickets};
ghost use Rattle.mich_bigmap.specs.Extended.{Extends};
ghost use Rattle.mich_bigmap.specs.Layers.{HasBases};
ghost use Rattle.mich_forms.specs.declared.places.Place.TheVariants as place;
ghost use Rattle.mich_instr.specs.Scripts.{IsTypedScript};
ghost use Rattle.mich_machine.specs.Calls.{IsHosting};
ghost use Rattle.mich_ops.specs.declared.receipt.Effect.TheVariants as effect;
ghost use Rattle.mich_term.specs.Layers.{AreFormed};
ghost use Rattle.mich_term.specs.ValueView.{val};
ghost use Rattle.mich_tickets.specs.Carrying.{MayEnter};
ghost use Rattle.mich_world.specs.Holders.{contract_at, may_receive};
ghost use Rattle.mich_world.specs.Marks.{KeepsWorld};
ghost use Rattle.mich_world.specs.Storages.{owner_of};
ghost use Rattle.mich_operations.specs.Foundings.{Founds, founding};
ghost use Rattle.mich_operations.specs.Going.{KeepsContracts};

use crate::applied::{Applied, ApplyError};
use crate::growing::with_growth;
use mich_base::{Rows, Shared};
use mich_forms::{KeyHash, Place};
use mich_instr::Script;
use mich_ops::{Effect, Failure};
use mich_term::Value;
use mich_world::{MoveError, World};
use std::alloc::Global;

// A contract of these 20 bytes is made, whose balance a place pays; what it takes is charged to the source.
pub(crate) fn found(
    alloc: Global,
    world: &mut World,
    source: &KeyHash,
    from: &Place,
    hash: [u8; 20],
    balance: u64,
    script: Shared<Script>,
    storage: Value,
) -> Result<Applied, ApplyError>
    requires absent { is_some (contract_at world.old.funds.present hash) ≡ false }
    requires there { may_receive world.old.funds.present from.now ≡ true }
    requires enter { MayEnter (owner_of hash) world.old.ledger.books.present (tickets (val storage)) }
    requires formed { AreFormed storage }
    requires based { HasBases world.old.store.bases.present storage }
    requires typed { IsTypedScript script }
    requires hosting { IsHosting world.old }
    ensures ends { Founds world.old source.now from.now (founding world.old.store.bases.present from.now hash balance script storage) world.new result }
    ensures hosting { IfOk result (λ _. IsHosting world.new) }
    ensures bases { IfOk result (λ _. Extends world.old.store.bases.present world.new.store.bases.present) }
    ensures contracts { IfOk result (λ _. KeepsContracts world.old world.new) }
    ensures keeps { KeepsWorld world.old world.new }
{
    match world.install(alloc, hash, *from, balance, script, storage) {
        Ok(()) => with_growth(alloc, world, source, made(alloc, from, hash, balance)),
        Err(MoveError::BalanceTooLow) => Err(ApplyError::Failed(Failure::BalanceTooLow)),
        Err(MoveError::NoContract) => unreachable!(),
        Err(MoveError::Memory) => Err(ApplyError::Memory),
    }
}

// What an origination did.
fn made(alloc: Global, from: &Place, hash: [u8; 20], balance: u64) -> Applied
    ensures effect { result.effect ≡ effect.Origination from.now (place.Contract hash) balance }
    ensures growth { result.growth ≡ None }
    ensures by { result.by ≡ hash }
    ensures emitted { result.emitted ≡ [] }
{
    let address = Place::Contract(hash);
    Applied {
        effect: Effect::Origination(*from, address, balance),
        growth: None,
        by: hash,
        emitted: Rows::new(alloc),
    }
}
