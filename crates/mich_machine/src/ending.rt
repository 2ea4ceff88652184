// What is made of the end of a contract's code.
ghost use Rattle.std.specs.Prelude.{◌≡◌, [], true, is_some, IfOk};
ghost use Rattle.rules_data.specs.values.Tickets.{tickets};
ghost use Rattle.mich_bigmap.specs.Extended.{Extends};
ghost use Rattle.mich_bigmap.specs.Layers.{HasBases};
ghost use Rattle.mich_machine.specs.Calls.{IsHosting, WithMemory};
ghost use Rattle.mich_machine.specs.Ends.{EndsSo};
ghost use Rattle.mich_machine.specs.Endings.{IsEnding};
ghost use Rattle.mich_machine.specs.Plain.{is_plain};
ghost use Rattle.mich_term.specs.Layers.{AreFormed};
ghost use Rattle.mich_term.specs.ValueView.{val};
ghost use Rattle.mich_world.specs.Holders.{contract_at};
ghost use Rattle.mich_world.specs.Marks.{KeepsWorld};
ghost use Rattle.mich_world.specs.Storages.{AreStored, Commits, MayReplace, owner_of, stored_tickets};

use crate::lending::{discard_left, take_changes};
use crate::returning::{by_number, parts, pick};
use crate::running::{Finished, RunError};
use mich_base::{Memory, Rows};
use mich_ops::{Failure, Issued};
use mich_term::Value;
use mich_types::duplicable;
use mich_world::World;
use std::alloc::Global;

// Whether the contract of these 20 bytes is there, and its storages can hold no ticket by their type.
fn is_plain(world: &World, hash: &[u8; 20]) -> bool
    ensures { result ≡ is_plain (contract_at world.now.funds.present hash.now) }
{
    match world.contract(hash) {
        Some(contract) => duplicable(&contract.script.get().storage),
        None => false,
    }
}

// A contract that is there has a new storage. Tickets are looked for only where its type lets it hold some.
fn keep(alloc: Global, world: &mut World, hash: &[u8; 20], storage: Value) -> Result<(), Memory>
    requires there { is_some (contract_at world.old.funds.present hash.now) ≡ true }
    requires replace { MayReplace (owner_of hash.now) world.old.ledger.books.present (stored_tickets (contract_at world.old.funds.present hash.now)) (tickets (val storage)) }
    requires before { is_plain (contract_at world.old.funds.present hash.now) ≡ true → stored_tickets (contract_at world.old.funds.present hash.now) ≡ [] }
    requires after { is_plain (contract_at world.old.funds.present hash.now) ≡ true → tickets (val storage) ≡ [] }
    requires formed { AreFormed storage }
    requires based { HasBases world.old.store.bases.present storage }
    ensures commits { IfOk result (λ _. Commits hash.now storage world.old world.new) }
    ensures stored { AreStored world.old → AreStored world.new }
    ensures keeps { KeepsWorld world.old world.new }
{
    if is_plain(world, hash) {
        world.commit_plain(alloc, hash, storage)
    } else {
        world.commit(alloc, hash, storage)
    }
}

// The operations that are returned are taken out of those that were issued, and the others are discarded; the new storage is kept.
// An operation that is returned twice is a failure.
pub(crate) fn finish(
    alloc: Global,
    world: &mut World,
    to: &[u8; 20],
    stack: Rows<Value>,
    issued: Rows<Issued>,
) -> Result<Finished, RunError>
    requires { IsEnding world.old to.now stack issued }
    ensures ends { (e : IsEnding world.old to.entry.now stack issued) → EndsSo e world.new result }
    ensures hosting { IfOk result (λ _. IsHosting world.new) }
    ensures bases { IfOk result (λ _. Extends world.old.store.bases.present world.new.store.bases.present) }
    ensures keeps { WithMemory result (KeepsWorld world.old world.new) }
{
    let (numbers, storage) = parts(stack)?;
    let mut all = by_number(alloc, issued)?;
    let Some(returned) = pick(alloc, &mut all, numbers)? else {
        return Err(RunError::Failed(Failure::OperationReplay));
    };
    discard_left(alloc, world, all)?;
    keep(alloc, world, to, storage)?;
    let changes = take_changes(world);
    Ok(Finished { returned, changes })
}
