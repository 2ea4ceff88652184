// Bytes from states.
ghost use Rattle.std.specs.Prelude.{◌≡◌, ◌<ℤ◌, pos, ◌++◌, map, OnOk};
ghost use Rattle.std.specs.List.{AllByRecursion, flat_map, list_any};
ghost use Rattle.std.specs.List.Sorted.{IsStrictlySortedBy};
ghost use Rattle.std.specs.Map.{keys_of};
ghost use Rattle.rules_files.specs.snapshots.Course.{all_prices};
ghost use Rattle.rules_files.specs.snapshots.Loading.{is_long, saved};
ghost use Rattle.rules_files.specs.snapshots.Spelling.{counted, eight, holding_spelling, node_spelling, price_spelling, profile, total_spelling};
ghost use Rattle.rules_world.specs.world.World.{World as PlainWorld};
ghost use Rattle.mich_bigmap.specs.Standing.{val_in};
ghost use Rattle.mich_gas.specs.View.{listed};
ghost use Rattle.mich_instr.specs.View.{script_node};
ghost use Rattle.mich_report.specs.Amounts.{by_print, seen};
ghost use Rattle.mich_report.specs.State.{IsAtRest};
ghost use Rattle.mich_term.specs.TicketView.{identity};
ghost use Rattle.mich_world.specs.Standing.{plain};
ghost use Rattle.mich_snapshot.specs.Puts.{IsPut, IsSaved, PutsValue};
ghost use Rattle.mich_snapshot.specs.Saved.{PutsAccount, PutsAccountOf, PutsAccounts, PutsContract, PutsContracts, PutsFront, PutsHoldings, PutsState, PutsTickets, contract_nodes_at, contract_text_at, head_text, marks_text, moment_text, rate_text, total_in};
ghost use Rattle.mich_snapshot.specs.Snapshots.{snapshot_of};

use crate::errors::SaveError;
use crate::spelling::{put_node, put_value};
use crate::state::State;
use mich_base::{Bytes, Memory, Shared};
use mich_bigmap::{Store, flat};
use mich_forms::{KeyHash, Place};
use mich_gas::Costs;
use mich_instr::Script;
use mich_report::{Amounts, Purses, all_minted, held_by_accounts};
use mich_saved::{
    put, put_eight, put_four, put_identity, put_mark, put_price, put_signed_eight,
    put_signed_sixteen,
};
use mich_term::{TicketId, Value};
use mich_tickets::Ledger;
use mich_world::{Contract, World};
use std::alloc::Global;

// 2 where storage is paid for, else 1.
fn put_profile(out: &mut Vec<u8>, pays: bool) -> Result<(), Memory>
    ensures { OnOk result (out.new.items ≡ out.old.items ++ profile pays) }
{
    if pays { put(out, &[2]) } else { put(out, &[1]) }
}

// What a snapshot begins with, and where and when its world is.
#[tactic(auto, using(crate::proofs::Putting::put_four_parts))]
fn put_moment(out: &mut Vec<u8>, world: &World) -> Result<(), Memory>
    ensures { OnOk result (out.new.items ≡ out.old.items ++ moment_text world.now) }
{
    let (chain, level, moment) = world.clock();
    put(out, b"MICHSNP1")?;
    put(out, &chain.body)?;
    put_four(out, level)?;
    put_signed_eight(out, moment)
}

// Whether storage is paid for, and what a byte of it costs.
#[tactic(auto, using(crate::proofs::Putting::put_both))]
fn put_rate(out: &mut Vec<u8>, rate: Option<u64>) -> Result<(), Memory>
    ensures { OnOk result (out.new.items ≡ out.old.items ++ rate_text rate) }
{
    put_profile(out, rate.is_some())?;
    put_eight(out, rate.unwrap_or(0))
}

// How many groups there were, and what stood.
#[tactic(auto, using(crate::proofs::Putting::put_three))]
fn put_marks(out: &mut Vec<u8>, state: &State) -> Result<(), Memory>
    ensures { OnOk result (out.new.items ≡ out.old.items ++ marks_text state.now) }
{
    put_eight(out, state.groups)?;
    put_mark(out, state.costs_stood)?;
    put_mark(out, state.started)
}

#[tactic(auto, using(crate::proofs::Putting::put_three))]
fn put_head(out: &mut Vec<u8>, state: &State) -> Result<(), Memory>
    ensures { OnOk result (out.new.items ≡ out.old.items ++ head_text state.now) }
{
    put_moment(out, &state.world)?;
    put_rate(out, state.world.rate())?;
    put_marks(out, state)
}

fn put_costs(alloc: Global, out: &mut Vec<u8>, costs: &Costs) -> Result<(), Memory>
    ensures { OnOk result (out.new.items ≡ out.old.items ++ flat_map price_spelling (all_prices (listed costs.now))) }
{
    let prices = costs.prices(alloc)?;
    for price in prices.as_slice() {
        put_price(out, price)?;
    }
    Ok(())
}

#[tactic(auto, using(crate::proofs::Putting::put_both))]
fn put_sums(out: &mut Vec<u8>, world: &World) -> Result<(), Memory>
    ensures { OnOk result (out.new.items ≡ out.old.items ++ (eight world.now.funds.present.fees ++ eight world.now.funds.present.storage_burn)) }
{
    put_eight(out, world.fees())?;
    put_eight(out, world.storage_burn())
}

#[tactic(auto, using(crate::proofs::Putting::put_both))]
fn put_holding(alloc: Global, out: &mut Vec<u8>, id: &TicketId, amount: i128) -> Result<(), Memory>
    ensures { OnOk result (out.new.items ≡ out.old.items ++ holding_spelling (identity id.now, amount)) }
{
    put_identity(alloc, out, id)?;
    put_signed_sixteen(out, amount)
}

// A count of holdings, and these.
fn put_holdings(alloc: Global, out: &mut Vec<u8>, held: &Amounts) -> Result<(), Memory>
    ensures holdings { OnOk result (out.new.items ≡ out.old.items ++ counted holding_spelling (map seen held.now)) }
    ensures order { IsStrictlySortedBy by_print (keys_of held.now) }
    ensures positive { AllByRecursion (λ e. pos 0 <ℤ e.1) held.now }
{
    put_eight(out, held.map.len() as u64)?;
    'holdings: for (ticket, amount) in &held.map {
        put_holding(alloc, out, &ticket.id, *amount)?;
    }
    Ok(())
}

// The same of an account.
fn put_purse(alloc: Global, out: &mut Vec<u8>, purses: &Purses, who: &KeyHash) -> Result<(), Memory>
    ensures { PutsHoldings purses.now.entries who.now out.old.items out.new.items result }
{
    match purses.get(who) {
        Some(held) => put_holdings(alloc, out, held),
        None => put_eight(out, 0),
    }
}

fn put_account(
    alloc: Global,
    out: &mut Vec<u8>,
    purses: &Purses,
    who: &KeyHash,
    balance: u64,
) -> Result<(), Memory>
    ensures { PutsAccount purses.now.entries who.now balance out.old.items out.new.items result }
{
    put(out, who.bytes().as_slice())?;
    put_eight(out, balance)?;
    put_purse(alloc, out, purses, who)
}

// The account of a key hash, where it is there.
fn put_account_of(
    alloc: Global,
    out: &mut Vec<u8>,
    world: &World,
    purses: &Purses,
    who: &KeyHash,
) -> Result<(), Memory>
    ensures { PutsAccountOf world.now purses.now.entries who.now out.old.items out.new.items result }
{
    match world.balance(Place::Implicit(*who)) {
        Some(balance) => put_account(alloc, out, purses, who, balance),
        None => Ok(()),
    }
}

fn put_accounts(
    alloc: Global,
    out: &mut Vec<u8>,
    world: &World,
    purses: &Purses,
) -> Result<(), Memory>
    ensures { PutsAccounts world.now purses.now.entries out.old.items out.new.items result }
{
    let keys = world.account_keys(alloc)?;
    put_eight(out, keys.len() as u64)?;
    'accounts: for who in keys.as_slice() {
        put_account_of(alloc, out, world, purses, who)?;
    }
    Ok(())
}

fn put_script(alloc: Global, out: &mut Vec<u8>, script: &Shared<Script>) -> Result<(), SaveError>
    ensures { IsPut out.old.items out.new.items (node_spelling (script_node script.now)) (is_long (script_node script.now)) result }
{
    put_node(alloc, out, &script.get().node)
}

// A storage with what its big maps hold.
fn put_storage(
    alloc: Global,
    out: &mut Vec<u8>,
    store: &Store,
    storage: &Value,
) -> Result<(), SaveError>
    ensures { PutsValue out.old.items out.new.items (val_in store.now.bases.present storage.now) result }
{
    let storage = flat(alloc, store, storage)?;
    put_value(alloc, out, &storage)
}

// A contract before its script.
#[tactic(auto, using(crate::proofs::Putting::put_three))]
fn put_funds(out: &mut Vec<u8>, hash: &[u8; 20], contract: &Contract) -> Result<(), Memory>
    ensures { OnOk result (out.new.items ≡ out.old.items ++ (hash.now ++ (eight contract.now.balance ++ eight contract.now.paid))) }
{
    put(out, hash)?;
    put_eight(out, contract.balance)?;
    put_eight(out, contract.paid)
}

fn put_contract(
    alloc: Global,
    out: &mut Vec<u8>,
    store: &Store,
    hash: &[u8; 20],
    contract: &Contract,
) -> Result<(), SaveError>
    ensures { PutsContract out.old.items out.new.items (hash.now, plain store.now.bases.present contract.now) result }
{
    put_funds(out, hash, contract)?;
    put_script(alloc, out, &contract.script)?;
    put_storage(alloc, out, store, &contract.storage)
}

// The contract of these 20 bytes, where it is there.
fn put_contract_of(
    alloc: Global,
    out: &mut Vec<u8>,
    world: &World,
    hash: &[u8; 20],
) -> Result<(), SaveError>
    ensures { IsPut out.old.items out.new.items (contract_text_at world.now hash.now) (list_any is_long (contract_nodes_at world.now hash.now)) result }
{
    match world.contract(hash) {
        Some(contract) => put_contract(alloc, out, world.store(), hash, contract),
        None => Ok(()),
    }
}

fn put_contracts(alloc: Global, out: &mut Vec<u8>, world: &World) -> Result<(), SaveError>
    ensures { PutsContracts world.now out.old.items out.new.items result }
{
    let keys = world.contract_keys(alloc)?;
    put_eight(out, keys.len() as u64)?;
    'contracts: for hash in keys.as_slice() {
        put_contract_of(alloc, out, world, hash)?;
    }
    Ok(())
}

#[tactic(auto, using(crate::proofs::Putting::put_three))]
fn put_total(alloc: Global, out: &mut Vec<u8>, ledger: &Ledger, id: &TicketId) -> Result<(), Memory>
    ensures { OnOk result (out.new.items ≡ out.old.items ++ total_spelling (total_in ledger.now.books.present (identity id.now))) }
{
    let totals = ledger.totals(id);
    put_identity(alloc, out, id)?;
    put_signed_sixteen(out, totals.minted)?;
    put_signed_sixteen(out, totals.burnt)
}

// A count of tickets, and these with their totals.
fn put_totals(
    alloc: Global,
    out: &mut Vec<u8>,
    ledger: &Ledger,
    minted: &Amounts,
) -> Result<(), Memory>
    ensures totals { OnOk result
        (out.new.items ≡ out.old.items ++ counted total_spelling (map (λ e. total_in ledger.now.books.present e.0) (map seen minted.now))) }
    ensures order { IsStrictlySortedBy by_print (keys_of minted.now) }
    ensures positive { AllByRecursion (λ e. pos 0 <ℤ e.1) minted.now }
{
    put_eight(out, minted.map.len() as u64)?;
    'tickets: for (ticket, amount) in &minted.map {
        let _minted = amount;
        put_total(alloc, out, ledger, &ticket.id)?;
    }
    Ok(())
}

fn put_tickets(alloc: Global, out: &mut Vec<u8>, world: &World) -> Result<(), Memory>
    ensures { PutsTickets world.now out.old.items out.new.items result }
{
    let ledger = world.ledger();
    let minted = all_minted(alloc, ledger.lines())?;
    put_totals(alloc, out, ledger, &minted)
}

// All that stands before the contracts.
fn put_front(alloc: Global, out: &mut Vec<u8>, state: &State) -> Result<(), Memory>
    ensures { PutsFront state.now out.old.items out.new.items result }
{
    let purses = held_by_accounts(alloc, state.world.ledger().lines())?;
    put_head(out, state)?;
    put_costs(alloc, out, &state.costs)?;
    put_sums(out, &state.world)?;
    put_accounts(alloc, out, &state.world, &purses)
}

fn put_state(alloc: Global, out: &mut Vec<u8>, state: &State) -> Result<(), SaveError>
    ensures { PutsState state.now out.old.items out.new.items result }
{
    put_front(alloc, out, state)?;
    put_contracts(alloc, out, &state.world)?;
    Ok(put_tickets(alloc, out, &state.world)?)
}

/// The bytes of a state whose world stands for a good one in which nothing waits (this host's own). TooLong exactly where the binary form
/// of a script, or of a lambda in a storage, has more than 268,435,456 bytes. Memory where there is no room for them.
pub fn save(alloc: Global, state: &State) -> Result<Bytes, SaveError>
    requires { (w : PlainWorld) × IsAtRest state.now.world w }
    ensures { (w : PlainWorld) → IsAtRest state.now.world w → IsSaved (saved (snapshot_of state.now w)) result }
{
    let mut out = Vec::new(alloc);
    put_state(alloc, &mut out, state)?;
    Ok(Bytes::from_vec(out)?)
}
