// The rules of accounts, of contracts and of tickets.
ghost use Rattle.std.specs.Prelude.{◌≡◌, ◌<◌, ◌^◌, ◌&&◌, option_map, true, IfOk, IfSome, IsSome, ℕ, List, Option, None, map, take, drop, replicate};
ghost use Rattle.std.specs.Int.{from_be_bytes, w64};
ghost use Rattle.std.specs.Str.{bytes_eq};
ghost use Rattle.std.specs.List.{AllByRecursion};
ghost use Rattle.rules_code.specs.evaluation.Surroundings.{Contract as PlainContract};
ghost use Rattle.rules_data.specs.values.Tickets.{tickets};
ghost use Rattle.rules_text.specs.nodes.Tree.{size};
ghost use Rattle.rules_world.specs.world.World.{identity_order};
ghost use Rattle.rules_files.specs.snapshots.Rules.{byte_order, is_above, is_hash, is_paid};
ghost use Rattle.rules_files.specs.snapshots.Spelt.{HasSpelling, IsIssuer};
ghost use Rattle.rules_files.specs.snapshots.State.{State};
ghost use Rattle.mich_base.specs.TypeView.{kind};
ghost use Rattle.mich_base.specs.View.{tree};
ghost use Rattle.mich_forms.specs.Spelled.{place_bytes};
ghost use Rattle.mich_instr.specs.Scripts.{IsTypedScript};
ghost use Rattle.mich_instr.specs.View.{script_node};
ghost use Rattle.mich_saved.specs.KeptStates.{IsKeptContract};
ghost use Rattle.mich_saved.specs.Shown.{IsAloneContract, account as shown_account, contract as shown_contract, holding, total as shown_total};
ghost use Rattle.mich_term.specs.TicketView.{identity};
ghost use Rattle.mich_term.specs.ValueView.{val};
ghost use Rattle.mich_world.specs.Restoring.{IsAlone, contract_of};
ghost use Rattle.mich_snapshot.specs.Holders.{AreHashes, AreOfSpelt, AreReady, IsOfSpelt, IsPaying, IsPushed, IsScriptOf, SavesAccount, SavesAccounts, SavesContract, SavesContracts, SavesTotal, TellsLeft, TriesAccounts, TriesContracts, TriesForContract, TriesForHolding, TriesHolder, TriesHolding, TriesHoldings, TriesNextHolding, TriesNextTotal, TriesStorage, TriesTickets, TriesTotal, TriesTotals, TypedAs, is_issued, total_of};

use crate::forms::datum_fits;
use crate::stored::value_fits;
use crate::sums::Sums;
use mich_base::{Memory, Node, Rows, Shared, Ty};
use mich_check::{CheckError, check_script};
use mich_forms::{KeyHash, Place};
use mich_instr::Script;
use mich_pack::{node_len, stored_len};
use mich_report::Printed;
use mich_saved::{Head, LoadError, ReadAccount, ReadContract, ReadTotal};
use mich_term::{TicketId, Value};
use mich_tickets::{Totals, tickets_of};
use mich_world::{Contract, SavedAccount, SavedContract};
use std::alloc::Global;
use std::collections::BTreeSet;

// ---- accounts

// Whether a ticket stands above the one before, if there was one.
fn id_is_above(former: &Option<Printed>, id: &Printed) -> bool
    ensures { result ≡ is_above identity_order (option_map identity former.now) (identity id.now) }
{
    match former {
        Some(former) => former.cmp(id).is_lt(),
        None => true,
    }
}

// Whether a holding is positive, of a ticket that has a total and whose content is one of its type.
fn holding_holds(
    alloc: Global,
    sums: &mut Sums,
    id: &TicketId,
    amount: i128,
) -> Result<bool, Memory>
    ensures { TriesHolding sums.old.found.entries sums.new.found.entries (identity id.now) amount result }
{
    if amount < 1 {
        return Ok(false);
    }
    let fits = datum_fits(alloc, &id.ty, &id.content)?;
    if !fits {
        return Ok(false);
    }
    Ok(sums.add(id, amount))
}

// Whether so, and it stands above the one before.
fn next_holds(
    alloc: Global,
    sums: &mut Sums,
    former: &Option<Printed>,
    printed: &Printed,
    id: &TicketId,
    amount: i128,
) -> Result<bool, Memory>
    requires { printed.now ≡ id.now }
    ensures { TriesNextHolding sums.old.found.entries sums.new.found.entries (option_map identity former.now) (identity id.now) amount result }
{
    if !id_is_above(former, printed) {
        return Ok(false);
    }
    holding_holds(alloc, sums, id, amount)
}

// The ticket of a holding, where so much holds of it. None where it doesn't.
fn next_holding(
    alloc: Global,
    sums: &mut Sums,
    former: &Option<Printed>,
    id: &TicketId,
    amount: i128,
) -> Result<Option<Printed>, Memory>
    ensures holds { TriesForHolding sums.old.found.entries sums.new.found.entries (option_map identity former.now) (identity id.now) amount result }
    ensures same { IfOk result (λ o. IfSome o (λ printed. printed ≡ id.now)) }
{
    let printed = Printed::of(alloc, id)?;
    let holds = next_holds(alloc, sums, former, &printed, id, amount)?;
    if !holds {
        return Ok(None);
    }
    Ok(Some(printed))
}

// Whether so of each, and each stands above the one before.
fn holdings_hold(
    alloc: Global,
    sums: &mut Sums,
    holdings: &Rows<(TicketId, i128)>,
) -> Result<bool, Memory>
    ensures { TriesHoldings sums.old.found.entries sums.new.found.entries (map holding holdings.now) result }
{
    let mut former = None;
    for (id, amount) in holdings.as_slice() {
        let next = next_holding(alloc, sums, &former, id, *amount)?;
        if next.is_none() {
            return Ok(false);
        }
        former = next;
    }
    Ok(true)
}

fn who_is_above(former: &Option<KeyHash>, who: &KeyHash) -> bool
    ensures { result ≡ is_above byte_order former.now who.now }
{
    match former {
        Some(former) => former.cmp(who).is_lt(),
        None => true,
    }
}

// Whether the rules of an account hold.
fn account_holds(
    alloc: Global,
    sums: &mut Sums,
    former: &Option<KeyHash>,
    account: &ReadAccount,
) -> Result<bool, Memory>
    ensures { TriesHolder sums.old.found.entries sums.new.found.entries former.now (shown_account account.now).1 result }
{
    if !who_is_above(former, &account.who) {
        return Ok(false);
    }
    holdings_hold(alloc, sums, &account.holdings)
}

// An account, whose rules hold.
fn sound_account(
    alloc: Global,
    sums: &mut Sums,
    former: &Option<KeyHash>,
    account: ReadAccount,
) -> Result<SavedAccount, LoadError>
    ensures { SavesAccount sums.old.found.entries sums.new.found.entries former.now (shown_account account) result }
{
    let holds = account_holds(alloc, sums, former, &account)?;
    if !holds {
        return Err(LoadError::Unsound(account.place));
    }
    Ok(SavedAccount {
        who: account.who,
        balance: account.balance,
        held: account.holdings,
    })
}

/// The accounts that were read, where the rules of each hold, with what they hold of tickets added to the sums. Unsound at the first byte of the
/// first account whose rules fail (this host's own). Memory where there is no room.
pub fn sound_accounts(
    alloc: Global,
    sums: &mut Sums,
    accounts: Rows<ReadAccount>,
) -> Result<Rows<SavedAccount>, LoadError>
    ensures tries { TriesAccounts sums.old.found.entries (map shown_account accounts) result }
    ensures saved { SavesAccounts sums.old.found.entries sums.new.found.entries (map shown_account accounts) result }
{
    let mut sound = Rows::new(alloc);
    let mut former = None;
    for account in accounts.into_vec() {
        let who = account.who;
        let next = sound_account(alloc, sums, &former, account)?;
        sound.push(next)?;
        former = Some(who);
    }
    Ok(sound)
}

// ---- contracts

fn hash_is_above(former: &Option<[u8; 20]>, hash: &[u8; 20]) -> bool
    ensures { result ≡ is_above byte_order former.now hash.now }
{
    match former {
        Some(former) => former.cmp(hash).is_lt(),
        None => true,
    }
}

// The number with which the 20 bytes begin.
fn number_of(hash: &[u8; 20]) -> u64
    ensures { result ≡ from_be_bytes w64 (take 8 hash.now) }
{
    let mut first = [0; 8];
    first.copy_from_slice(&hash[..8]);
    u64::from_be_bytes(first)
}

fn ends_with_zeros(hash: &[u8; 20]) -> bool
    ensures { result ≡ bytes_eq (drop 12 hash.now) (replicate 8 0) }
{
    hash[12..] == [0; 8]
}

// Whether the 20 bytes begin with the number of a group that there was, and end with 8 zeros.
fn hash_holds(groups: u64, hash: &[u8; 20]) -> bool
    ensures { (s : State) → s.groups ≡ groups → result ≡ is_hash s hash.now }
{
    let number = number_of(hash);
    1 <= number && number <= groups && ends_with_zeros(hash)
}

// Whether so, above the 20 bytes before.
fn hash_stands(groups: u64, former: &Option<[u8; 20]>, hash: &[u8; 20]) -> bool
    ensures { (s : State) → s.groups ≡ groups → result ≡ (is_above byte_order former.now hash.now && is_hash s hash.now) }
{
    hash_is_above(former, hash) && hash_holds(groups, hash)
}

// The typed script of a node. None where it is ill typed.
fn typed_script(alloc: Global, node: &Node) -> Result<Option<Script>, Memory>
    requires { size (tree node.now) < 2 ^ 32 }
    ensures { IfOk result (TypedAs (tree node.now)) }
{
    match check_script(alloc, node) {
        Ok(script) => Ok(Some(script)),
        Err(CheckError::IllTyped(_)) => Ok(None),
        Err(CheckError::Memory) => Err(Memory),
    }
}

// Whether a contract has paid for as many bytes as it takes, or for none where storage isn't paid for.
fn paid_holds(pays: bool, paid: u64, script: &Node, storage: &Value) -> bool
    ensures { (c : PlainContract) → IsPaying paid (tree script.now) (val storage.now) c → result ≡ is_paid pays c }
{
    if pays {
        node_len(script).saturating_add(stored_len(storage)) <= paid
    } else {
        paid == 0
    }
}

// Whether each ticket in a storage has a total.
fn tickets_hold(alloc: Global, sums: &mut Sums, storage: &Value) -> Result<bool, Memory>
    ensures { TriesTickets sums.old.found.entries sums.new.found.entries (tickets (val storage.now)) result }
{
    let tickets = tickets_of(alloc, storage)?;
    Ok(sums.add_all(&tickets))
}

// Whether the rules of a storage of a type hold.
fn storage_holds(
    alloc: Global,
    pays: bool,
    sums: &mut Sums,
    ty: &Ty,
    contract: &ReadContract,
    storage: &Value,
) -> Result<bool, Memory>
    requires { HasSpelling (kind ty.now) (val storage.now) }
    ensures { TriesStorage sums.old.found.entries sums.new.found.entries pays (kind ty.now)
        (IsPaying contract.now.paid (tree contract.now.script) (val storage.now)) result }
{
    if !value_fits(alloc, ty, storage)? {
        return Ok(false);
    }
    if !paid_holds(pays, contract.paid, &contract.script, storage) {
        return Ok(false);
    }
    tickets_hold(alloc, sums, storage)
}

// The typed script of a contract whose rules hold. None where they don't.
fn sound_script(
    alloc: Global,
    head: &Head,
    sums: &mut Sums,
    former: &Option<[u8; 20]>,
    contract: &ReadContract,
) -> Result<Option<Script>, Memory>
    requires { IsOfSpelt (shown_contract contract.now).1 }
    ensures rules { TriesForContract head.now sums.old.found.entries sums.new.found.entries former.now (shown_contract contract.now).1 result }
    ensures typed { IfOk result (λ o. IfSome o (IsScriptOf (tree contract.now.script))) }
    ensures stored { IfOk result (λ o. IsSome o → IsSome contract.now.storage) }
{
    let Some(storage) = &contract.storage else {
        return Ok(None);
    };
    if !hash_stands(head.groups, former, &contract.hash) {
        return Ok(None);
    }
    let Some(script) = typed_script(alloc, &contract.script)? else {
        return Ok(None);
    };
    if !storage_holds(alloc, head.pays, sums, &script.storage, contract, storage)? {
        return Ok(None);
    }
    Ok(Some(script))
}

// A contract with its typed script.
fn saved_contract(
    alloc: Global,
    contract: ReadContract,
    script: Script,
) -> Result<SavedContract, Memory>
    requires { IsSome contract.storage }
    ensures same { (c : List ℕ × PlainContract) → IsKeptContract c (shown_contract contract).1 → script_node script ≡ tree contract.script
        → IfOk result (λ saved. contract_of saved ≡ c) }
    ensures script { IfOk result (λ saved. saved.contract.script ≡ script) }
    ensures alone { IsAloneContract contract → IfOk result IsAlone }
{
    let hash = contract.hash;
    let balance = contract.balance;
    let paid = contract.paid;
    let storage = contract.storage;
    let Some(storage) = storage else {
        unreachable!();
    };
    let script = Shared::new(alloc, script)?;
    let contract = Contract {
        balance,
        paid,
        script,
        storage,
    };
    Ok(SavedContract { hash, contract })
}

// A contract, whose rules hold.
fn sound_contract(
    alloc: Global,
    head: &Head,
    sums: &mut Sums,
    former: &Option<[u8; 20]>,
    contract: ReadContract,
) -> Result<SavedContract, LoadError>
    requires { IsOfSpelt (shown_contract contract).1 }
    ensures tries { SavesContract head.now sums.old.found.entries sums.new.found.entries former.now (shown_contract contract) result }
    ensures typed { IfOk result (λ saved. IsTypedScript saved.contract.script) }
    ensures alone { IsAloneContract contract → IfOk result IsAlone }
{
    let Some(script) = sound_script(alloc, head, sums, former, &contract)? else {
        return Err(LoadError::Unsound(contract.place));
    };
    let saved = saved_contract(alloc, contract, script)?;
    Ok(saved)
}

/// The contracts that were read with their typed scripts, where the rules of each hold, with the tickets that they store added to the sums. Unsound at
/// the first byte of the first contract whose rules fail (this host's own). Memory where there is no room.
pub fn sound_contracts(
    alloc: Global,
    head: &Head,
    sums: &mut Sums,
    contracts: Rows<ReadContract>,
) -> Result<Rows<SavedContract>, LoadError>
    requires { AreOfSpelt contracts }
    ensures tries { TriesContracts head.now sums.old.found.entries (map shown_contract contracts) result }
    ensures saved { SavesContracts head.now sums.old.found.entries sums.new.found.entries (map shown_contract contracts) result }
    ensures typed { IfOk result (AllByRecursion (λ saved. IsTypedScript saved.contract.script)) }
    ensures alone { AllByRecursion IsAloneContract contracts → IfOk result (AllByRecursion IsAlone) }
{
    let mut sound = Rows::new(alloc);
    let mut former = None;
    for contract in contracts.into_vec() {
        let hash = contract.hash;
        let next = sound_contract(alloc, head, sums, &former, contract)?;
        sound.push(next)?;
        former = Some(hash);
    }
    Ok(sound)
}

// ---- tickets

// The 20 bytes of all contracts.
fn hashes_of(alloc: Global, contracts: &Rows<SavedContract>) -> Result<BTreeSet<[u8; 20]>, Memory>
    ensures { IfOk result (λ hashes. AreHashes (map contract_of contracts.now) hashes.keys) }
{
    let mut hashes = BTreeSet::new(alloc);
    for saved in contracts.as_slice() {
        hashes.insert(saved.hash)?;
    }
    Ok(hashes)
}

// Whether a contract of the state issued a ticket.
fn issuer_holds(hashes: &BTreeSet<[u8; 20]>, issuer: &Place) -> bool
    ensures { (cs : List (List ℕ × PlainContract)) → AreHashes cs hashes.now.keys → IsIssuer (place_bytes issuer.now)
        → result ≡ is_issued cs (place_bytes issuer.now) }
{
    match issuer {
        Place::Contract(hash) => hashes.contains(hash),
        Place::Implicit(_) => false,
    }
}

// Whether a ticket was minted, and is there as often as it was minted less what was burnt.
fn totals_hold(sums: &Sums, total: &ReadTotal) -> bool
    ensures { TellsLeft sums.now.found.entries (shown_total total.now).1 result }
{
    1 <= total.minted
        && 0 <= total.burnt
        && total.burnt <= total.minted
        && sums.is(&total.id, total.minted - total.burnt)
}

fn total_holds(
    alloc: Global,
    sums: &Sums,
    hashes: &BTreeSet<[u8; 20]>,
    total: &ReadTotal,
) -> Result<bool, Memory>
    ensures { TriesTotal sums.now.found.entries hashes.now.keys (shown_total total.now).1 result }
{
    if !issuer_holds(hashes, &total.id.issuer) {
        return Ok(false);
    }
    if !totals_hold(sums, total) {
        return Ok(false);
    }
    datum_fits(alloc, &total.id.ty, &total.id.content)
}

// Whether so, and its ticket stands above the one before.
fn next_total_holds(
    alloc: Global,
    sums: &Sums,
    hashes: &BTreeSet<[u8; 20]>,
    former: &Option<Printed>,
    printed: &Printed,
    total: &ReadTotal,
) -> Result<bool, Memory>
    requires { printed.now ≡ total.now.id }
    ensures { TriesNextTotal sums.now.found.entries hashes.now.keys (option_map identity former.now) (shown_total total.now).1 result }
{
    if !id_is_above(former, printed) {
        return Ok(false);
    }
    total_holds(alloc, sums, hashes, total)
}

// The totals of a ticket, whose rules hold.
fn sound_total(
    alloc: Global,
    sums: &Sums,
    hashes: &BTreeSet<[u8; 20]>,
    former: &Option<Printed>,
    printed: &Printed,
    total: ReadTotal,
) -> Result<(TicketId, Totals), LoadError>
    requires { printed.now ≡ total.id }
    ensures tries { SavesTotal sums.now.found.entries hashes.now.keys (option_map identity former.now) (shown_total total)
        (λ t. total_of t ≡ (shown_total total).1) result }
    ensures same { IfOk result (λ t. total_of t ≡ (shown_total total).1) }
{
    let holds = next_total_holds(alloc, sums, hashes, former, printed, &total)?;
    if !holds {
        return Err(LoadError::Unsound(total.place));
    }
    let totals = Totals {
        minted: total.minted,
        burnt: total.burnt,
    };
    Ok((total.id, totals))
}

// One more total whose rules hold is put behind the others.
fn push_total(
    alloc: Global,
    sums: &Sums,
    hashes: &BTreeSet<[u8; 20]>,
    former: &Option<Printed>,
    total: ReadTotal,
    sound: &mut Rows<(TicketId, Totals)>,
) -> Result<Printed, LoadError>
    ensures tries { SavesTotal sums.now.found.entries hashes.now.keys (option_map identity former.now) (shown_total total)
        (λ printed. printed ≡ total.id) result }
    ensures pushed { IfOk result (λ _. IsPushed sound.old sound.new (shown_total total).1) }
{
    let printed = Printed::of(alloc, &total.id)?;
    let next = sound_total(alloc, sums, hashes, former, &printed, total)?;
    sound.push(next)?;
    Ok(printed)
}

// The totals of all tickets, whose rules hold.
fn tried_totals(
    alloc: Global,
    sums: &Sums,
    hashes: &BTreeSet<[u8; 20]>,
    totals: Rows<ReadTotal>,
) -> Result<Rows<(TicketId, Totals)>, LoadError>
    ensures tries { (s : State) (place : ℕ) (cs : List (List ℕ × PlainContract)) → AreReady s sums.now.found.entries cs → AreHashes cs hashes.now.keys
        → TriesTotals place s (map shown_total totals) result }
    ensures saved { IfOk result (λ ts. map total_of ts ≡ map (λ t. (shown_total t).1) totals) }
{
    let mut sound = Rows::new(alloc);
    let mut former = None;
    for total in totals.into_vec() {
        let printed = push_total(alloc, sums, hashes, &former, total, &mut sound)?;
        former = Some(printed);
    }
    Ok(sound)
}

/// The totals of tickets that were read, where the rules of each hold: the sums are then of all that is held and stored. Unsound at the first byte of
/// the first ticket whose rules fail (this host's own). Memory where there is no room.
pub fn sound_totals(
    alloc: Global,
    sums: &Sums,
    contracts: &Rows<SavedContract>,
    totals: Rows<ReadTotal>,
) -> Result<Rows<(TicketId, Totals)>, LoadError>
    ensures tries { (s : State) (place : ℕ) → AreReady s sums.now.found.entries (map contract_of contracts.now)
        → TriesTotals place s (map shown_total totals) result }
    ensures saved { IfOk result (λ ts. map total_of ts ≡ map (λ t. (shown_total t).1) totals) }
{
    let hashes = hashes_of(alloc, contracts)?;
    tried_totals(alloc, sums, &hashes, totals)
}
