// Contracts that grew, and what is burnt for that.
ghost use Rattle.std.specs.Prelude.{◌≡◌, None, true, is_some, IfOk};
ghost use Rattle.rules_world.specs.world.Growth.{size_of};
ghost use Rattle.mich_machine.specs.Calls.{IsHosting};
ghost use Rattle.mich_world.specs.Holders.{contract_at};
ghost use Rattle.mich_world.specs.Marks.{KeepsWorld};
ghost use Rattle.mich_world.specs.Standing.{plain};
ghost use Rattle.mich_operations.specs.Going.{KeepsContracts};
ghost use Rattle.mich_operations.specs.Growths.{Charges, Grows, Pays};

use crate::applied::{Applied, ApplyError};
use mich_base::Memory;
use mich_bigmap::{Store, flat};
use mich_forms::{KeyHash, Place};
use mich_ops::{Effect, Failure};
use mich_pack::{node_len, stored_len};
use mich_term::abandon;
use mich_world::{Contract, MoveError, World};
use std::alloc::Global;

// The size of a contract in bytes, counted up to 2^64-1.
fn size_of(alloc: Global, store: &Store, contract: &Contract) -> Result<u64, Memory>
    ensures { IfOk result (λ n. n ≡ size_of (plain store.now.bases.present contract.now)) }
{
    let storage = flat(alloc, store, &contract.storage)?;
    let size = node_len(&contract.script.get().node).saturating_add(stored_len(&storage));
    abandon(storage);
    Ok(size)
}

// Charges the growth of a contract that is there to the source. None where there is no rate, or where it is no larger than it has
// paid for.
fn charge(
    alloc: Global,
    world: &mut World,
    source: &KeyHash,
    hash: &[u8; 20],
) -> Result<Option<Effect>, ApplyError>
    requires { is_some (contract_at world.old.funds.present hash.now) ≡ true }
    ensures pays { Pays source.now hash.now world.old world.new }
    ensures charges { Charges source.now hash.now world.old world.new result }
    ensures keeps { KeepsWorld world.old world.new }
{
    if world.rate().is_none() {
        return Ok(None);
    }
    let Some(contract) = world.contract(hash) else {
        return Ok(None);
    };
    let paid = contract.paid;
    let size = size_of(alloc, world.store(), contract)?;
    if size <= paid {
        return Ok(None);
    }
    match world.pay_storage(hash, size, *source) {
        Ok(burn) => {
            let address = Place::Contract(*hash);
            Ok(Some(Effect::Storage(address, size - paid, burn)))
        }
        Err(MoveError::BalanceTooLow) => Err(ApplyError::Failed(Failure::CannotPayBurn)),
        Err(MoveError::NoContract) => unreachable!(),
        Err(MoveError::Memory) => Err(ApplyError::Memory),
    }
}

// What an operation did whose contract is there, with the growth of that contract behind it, which the source is charged.
pub(crate) fn with_growth(
    alloc: Global,
    world: &mut World,
    source: &KeyHash,
    applied: Applied,
) -> Result<Applied, ApplyError>
    requires none { applied.growth ≡ None }
    requires there { is_some (contract_at world.old.funds.present applied.by) ≡ true }
    requires hosting { IsHosting world.old }
    ensures ends { Grows world.old source.now applied world.new result }
    ensures hosting { IfOk result (λ _. IsHosting world.new) }
    ensures store { world.new.store ≡ world.old.store }
    ensures contracts { KeepsContracts world.old world.new }
    ensures keeps { KeepsWorld world.old world.new }
{
    let growth = charge(alloc, world, source, &applied.by)?;
    Ok(Applied {
        effect: applied.effect,
        growth,
        by: applied.by,
        emitted: applied.emitted,
    })
}
