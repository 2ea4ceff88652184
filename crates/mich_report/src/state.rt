// The world at the end.
ghost use Rattle.std.specs.List.{AllByRecursion, flat_map};
ghost use Rattle.std.specs.List.Sorted.{IsStrictlySortedBy};
ghost use Rattle.std.specs.Map.{keys_of};
ghost use Rattle.std.specs.Prelude.{◌≡◌, ◌<ℤ◌, ◌≤ℤ◌, ℤ, pos, ◌++◌, IfOk, map};
ghost use Rattle.rules_world.specs.lines.Nodes.{burn_nodes, contract_node, line, state_nodes};
ghost use Rattle.rules_data.specs.values.Canonical.{canonical};
ghost use Rattle.rules_world.specs.world.World.{World as PlainWorld};
ghost use Rattle.mich_base.specs.View.{tree};
ghost use Rattle.mich_bigmap.specs.Standing.{val_in};
ghost use Rattle.mich_term.specs.TicketView.{identity};
ghost use Rattle.mich_world.specs.Standing.{plain};
ghost use Rattle.mich_report.specs.Amounts.{by_print, seen};
ghost use Rattle.mich_report.specs.State.{AreTotals, GathersOf, IsAtRest, account_lines, sum_lines, ticket_of, totals_node, PrintsAccount, PrintsHoldings};

use crate::amounts::Amounts;
use crate::gathering::{Purses, all_minted, held_by_accounts};
use crate::line::node_line;
use crate::parts::{bytes_node, number_node, place_node, sequence_node, ticket_nodes};
use mich_base::{Memory, Node, Nodes, Text, Texts};
use mich_bigmap::{Store, flat};
use mich_data::value_node;
use mich_forms::{KeyHash, Place};
use mich_term::{TicketId, Value};
use mich_tickets::{Ledger, Totals};
use mich_types::{application, over_one};
use mich_world::{Contract, World};
use std::alloc::Global;

// What an account holds.
fn purse_nodes(alloc: Global, purses: &Purses, who: &KeyHash) -> Result<Nodes, Memory>
    ensures { PrintsHoldings purses.now.entries who.now result }
{
    match purses.get(who) {
        Some(purse) => purse.held_nodes(alloc),
        None => Ok(Nodes::new(alloc)),
    }
}

// An account with its balance.
fn account_line(alloc: Global, who: &KeyHash, balance: u64, purses: &Purses) -> Result<Text, Memory>
    ensures { PrintsAccount purses.now.entries who.now balance result }
{
    let mut fields = Nodes::new(alloc);
    fields.push(bytes_node(alloc, who.bytes().as_slice())?)?;
    fields.push(number_node(balance))?;
    let held = purse_nodes(alloc, purses, who)?;
    fields.push(sequence_node(held))?;
    let node = application(alloc, b"Account", fields)?;
    node_line(alloc, &node)
}

/// Accounts by the bytes of their key hashes.
pub(crate) fn add_accounts(
    alloc: Global,
    world: &World,
    purses: &Purses,
    lines: &mut Texts,
) -> Result<(), Memory>
    ensures { (w : PlainWorld) → IsAtRest world.now w → GathersOf world.now purses.now.entries → IfOk result (λ _. lines.new ≡ lines.old ++ account_lines w) }
{
    let keys = world.account_keys(alloc)?;
    'accounts: for who in keys.as_slice() {
        if let Some(balance) = world.balance(Place::Implicit(*who)) {
            lines.push(account_line(alloc, who, balance, purses)?)?;
        }
    }
    Ok(())
}

// The literal of a storage, with what its big maps hold.
fn storage_node(alloc: Global, store: &Store, storage: &Value) -> Result<Node, Memory>
    ensures { IfOk result (λ n. tree n ≡ canonical (val_in store.now.bases.present storage.now)) }
{
    let storage = flat(alloc, store, storage)?;
    value_node(alloc, &storage)
}

// A contract with its balance, its storage, and where there is a rate the bytes that it has paid for.
fn contract_line(
    alloc: Global,
    store: &Store,
    rate: Option<u64>,
    hash: &[u8; 20],
    contract: &Contract,
) -> Result<Text, Memory>
    ensures { IfOk result (λ t. t ≡ line (contract_node rate (hash.now, plain store.now.bases.present contract.now))) }
{
    let mut fields = Nodes::new(alloc);
    fields.push(place_node(alloc, &Place::Contract(*hash))?)?;
    fields.push(number_node(contract.balance))?;
    fields.push(storage_node(alloc, store, &contract.storage)?)?;
    if rate.is_some() {
        fields.push(number_node(contract.paid))?;
    }
    let node = application(alloc, b"Contract", fields)?;
    node_line(alloc, &node)
}

/// Contracts by their bytes.
pub(crate) fn add_contracts(alloc: Global, world: &World, lines: &mut Texts) -> Result<(), Memory>
    ensures { (w : PlainWorld) → IsAtRest world.now w → IfOk result (λ _. lines.new ≡ lines.old ++ map line (map (contract_node w.rate) w.contracts)) }
{
    let keys = world.contract_keys(alloc)?;
    'contracts: for hash in keys.as_slice() {
        if let Some(contract) = world.contract(hash) {
            lines.push(contract_line(alloc, world.store(), world.rate(), hash, contract)?)?;
        }
    }
    Ok(())
}

// A ticket with what was minted of it, what was burnt, and the rest, which is held.
fn totals_node(alloc: Global, id: &TicketId, totals: Totals) -> Result<Node, Memory>
    requires minted { pos 0 ≤ℤ totals.minted }
    requires burnt { pos 0 ≤ℤ totals.burnt }
    ensures { IfOk result (λ n. tree n ≡ totals_node totals (identity id.now)) }
{
    let mut fields = ticket_nodes(alloc, id, totals.minted)?;
    fields.push(Node::Int(totals.burnt))?;
    fields.push(Node::Int(totals.minted - totals.burnt))?;
    application(alloc, b"Tickets", fields)
}

/// Its line.
pub(crate) fn ticket_line(alloc: Global, id: &TicketId, totals: Totals) -> Result<Text, Memory>
    requires minted { pos 0 ≤ℤ totals.minted }
    requires burnt { pos 0 ≤ℤ totals.burnt }
    ensures { IfOk result (λ t. t ≡ line (totals_node totals (identity id.now))) }
{
    let node = totals_node(alloc, id, totals)?;
    node_line(alloc, &node)
}

// Tickets in their order, with their totals.
fn add_tickets(
    alloc: Global,
    ledger: &Ledger,
    minted: &Amounts,
    lines: &mut Texts,
) -> Result<(), Memory>
    requires { AreTotals ledger.now.books.present }
    ensures lines { IfOk result (λ _. lines.new ≡ lines.old ++ map line (map (ticket_of ledger.now.books.present) (map seen minted.now))) }
    ensures order { IsStrictlySortedBy by_print (keys_of minted.now) }
    ensures positive { AllByRecursion (λ e. pos 0 <ℤ e.1) minted.now }
{
    let _count = minted.map.len();
    'tickets: for (id, amount) in &minted.map {
        let _minted = amount;
        let totals = ledger.totals(&id.id);
        lines.push(ticket_line(alloc, &id.id, totals)?)?;
    }
    Ok(())
}

// What was burnt for storage, where there is a rate.
fn add_burn(alloc: Global, world: &World, lines: &mut Texts) -> Result<(), Memory>
    ensures { IfOk result (λ _. lines.new ≡ lines.old ++ map line (burn_nodes world.now.funds.present.rate world.now.funds.present.storage_burn)) }
{
    if world.rate().is_some() {
        let burn = over_one(alloc, b"StorageBurn", number_node(world.storage_burn()))?;
        lines.push(node_line(alloc, &burn)?)?;
    }
    Ok(())
}

/// The fees that were taken, what was burnt for storage, and all mutez.
pub(crate) fn add_sums(alloc: Global, world: &World, lines: &mut Texts) -> Result<(), Memory>
    ensures { IfOk result (λ _. lines.new ≡ lines.old ++ sum_lines world.now.funds.present) }
{
    let fees = over_one(alloc, b"Fees", number_node(world.fees()))?;
    lines.push(node_line(alloc, &fees)?)?;
    add_burn(alloc, world, lines)?;
    let supply = over_one(alloc, b"Supply", number_node(world.supply()))?;
    lines.push(node_line(alloc, &supply)?)?;
    Ok(())
}

/// The lines of a world that stands for a good one, in which nothing waits: its accounts with the tickets that they hold, its contracts
/// with their storages, all tickets that were ever minted, the fees, what was burnt for storage, and all mutez (this host's own).
/// Memory where there is no room for them.
pub fn state_lines(alloc: Global, world: &World) -> Result<Texts, Memory>
    requires { (w : PlainWorld) × IsAtRest world.now w }
    ensures { (w : PlainWorld) → IsAtRest world.now w → IfOk result (λ lines. lines ≡ map line (state_nodes w)) }
{
    let ledger = world.ledger();
    let purses = held_by_accounts(alloc, ledger.lines())?;
    let minted = all_minted(alloc, ledger.lines())?;
    let mut lines = Texts::new(alloc);
    add_accounts(alloc, world, &purses, &mut lines)?;
    add_contracts(alloc, world, &mut lines)?;
    add_tickets(alloc, ledger, &minted, &mut lines)?;
    add_sums(alloc, world, &mut lines)?;
    Ok(lines)
}

/// The same as one text.
pub fn state_text(alloc: Global, world: &World) -> Result<Text, Memory>
    requires { (w : PlainWorld) × IsAtRest world.now w }
    ensures { (w : PlainWorld) → IsAtRest world.now w → IfOk result (λ text. text ≡ flat_map line (state_nodes w)) }
{
    let lines = state_lines(alloc, world)?;
    let mut text = Vec::new(alloc);
    for line in lines.as_slice() {
        text.extend_from_slice(line.as_slice())?;
    }
    let written = Text::from_vec(text)?;
    Ok(written)
}
