// States from bytes.
ghost use Rattle.std.specs.Prelude.{◌≡◌, IfOk, if◌then◌else◌};
ghost use Rattle.std.specs.List.{AllByRecursion};
ghost use Rattle.mich_bigmap.specs.Ticketless.{HoldNoTickets};
ghost use Rattle.mich_instr.specs.Scripts.{IsTypedScript};
ghost use Rattle.mich_world.specs.Storages.{AreStored};
ghost use Rattle.rules_files.specs.snapshots.Loading.{loaded};
ghost use Rattle.rules_files.specs.snapshots.Rules.{parts};
ghost use Rattle.rules_files.specs.snapshots.State.{State as PlainState};
ghost use Rattle.mich_snapshot.specs.Loaded.{IsLoaded, IsReadOf, IsSoundState, MayBeTried};
ghost use Rattle.mich_snapshot.specs.Tried.{Tries};

use crate::heads::try_heads;
use crate::holders::{sound_accounts, sound_contracts, sound_totals};
use crate::state::State;
use crate::sums::Sums;
use mich_base::Rows;
use mich_forms::ChainId;
use mich_gas::{Costs, Price};
use mich_saved::{Head, LoadError, ReadState, read};
use mich_world::{Saved, World};
use std::alloc::Global;

// A state that is sound: its head, its prices, and what its world is restored from.
#[derive(Drop)]
struct SoundState {
    head: Head,
    prices: Rows<Price>,
    saved: Saved,
}

// The mutez that a byte of storage costs, if any.
fn rate_of(head: &Head) -> Option<u64>
    ensures { result ≡ (if head.now.pays then Some head.now.rate else None) }
{
    if head.pays { Some(head.rate) } else { None }
}

// A state that was read, whose rules hold. Unsound at the earliest part whose rules fail.
fn sound_state(alloc: Global, read: ReadState) -> Result<SoundState, LoadError>
    requires { MayBeTried read }
    ensures tries { (s : PlainState) → IsReadOf s read → Tries 0 (parts s) result }
    ensures sound { (s : PlainState) → IsReadOf s read → IfOk result (λ x. (x.head ≡ read.head) × IsSoundState s x.prices x.saved) }
{
    try_heads(&read)?;
    let head = read.head;
    let mut sums = Sums::of_totals(alloc, &read.tickets)?;
    let accounts = sound_accounts(alloc, &mut sums, read.accounts)?;
    let contracts = sound_contracts(alloc, &head, &mut sums, read.contracts)?;
    let totals = sound_totals(alloc, &sums, &contracts, read.tickets)?;
    let saved = Saved {
        chain: ChainId {
            body: head.moment.chain,
        },
        level: head.moment.level,
        moment: head.moment.now,
        rate: rate_of(&head),
        fees: read.fees,
        burned: read.storage_burn,
        accounts,
        contracts,
        totals,
    };
    Ok(SoundState {
        head,
        prices: read.prices,
        saved,
    })
}

/// The state that bytes spell (this host's own). BadForm exactly where they spell none, at the first field that can't be read, or the
/// first byte behind the last field; Unsound exactly where they spell one that isn't sound, at the first byte of the earliest part whose
/// rules fail. Memory where there is no room for it.
pub fn load(alloc: Global, bytes: &[u8]) -> Result<State, LoadError>
    ensures loaded { IsLoaded (loaded bytes.now) result }
    ensures stored { IfOk result (λ s. AreStored s.world) }
    ensures ticketless { IfOk result (λ s. HoldNoTickets s.world.store.bases.present) }
    ensures typed { IfOk result (λ s. AllByRecursion (λ c. IsTypedScript c.1.script) s.world.funds.present.contracts) }
{
    let state = read(alloc, bytes)?;
    let sound = sound_state(alloc, state)?;
    let head = sound.head;
    let costs = Costs::of_prices(sound.prices.as_slice());
    let world = World::restore(alloc, sound.saved)?;
    Ok(State {
        world,
        costs,
        groups: head.groups,
        costs_stood: head.costs_stood,
        started: head.started,
    })
}
