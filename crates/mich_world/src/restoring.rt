// Worlds that are made anew from what was saved of them.
ghost use Rattle.std.specs.Prelude.{◌≡◌, ◌+◌, ◌≤◌, ◌+ℤ◌, ◌≤ℤ◌, [], ◌∷◌, pos, IfOk, map};
ghost use Rattle.std.specs.List.{AllByRecursion, flat_map, sum_by};
ghost use Rattle.rules_text.specs.nodes.Limits.{most_mutez};
ghost use Rattle.rules_code.specs.steps.Changes.{minted, minted_in};
ghost use Rattle.rules_data.specs.forms.Spelling.{implicit_place};
ghost use Rattle.rules_data.specs.values.Tickets.{Identity};
ghost use Rattle.mich_bigmap.specs.Ticketless.{HoldNoTickets};
ghost use Rattle.mich_term.specs.TicketView.{held, identity};
ghost use Rattle.mich_tickets.specs.Carrying.{Enters, MayEnter};
ghost use Rattle.mich_tickets.specs.Effects.{Adds};
ghost use Rattle.mich_tickets.specs.Most.{most};
ghost use Rattle.mich_tickets.specs.Sums.{burnt_of, minted_of};
ghost use Rattle.mich_world.specs.Holders.{IsNew, with_rate};
ghost use Rattle.mich_world.specs.Restoring.{AreTotals, IsBegun, IsRestorable, IsRestored, MayPutAccounts, MayPutContracts, PutsAccounts, PutsContracts, StaysRestored, supply_of, ticket_of, told_of, world_of};
ghost use Rattle.mich_world.specs.Standing.{StandsFor};
ghost use Rattle.mich_world.specs.Storages.{AreStored};
ghost use Rattle.mich_world.specs.World.{with_funds};

use crate::contract::Contract;
use crate::world::World;
use mich_base::{Memory, Rows};
use mich_bigmap::settle_all;
use mich_forms::{ChainId, KeyHash, Place};
use mich_term::{Ticket, TicketId, copy_id};
use mich_tickets::{Ledger, MintError, Totals};
use std::alloc::Global;

/// An account that was saved: its key hash, its balance in mutez, and a positive amount of each ticket that it holds.
#[derive(Drop)]
pub struct SavedAccount {
    pub who: KeyHash,
    pub balance: u64,
    pub held: Rows<(TicketId, i128)>,
}

/// A contract that was saved: its 20 bytes, and the contract, whose big maps keep all entries in themselves.
#[derive(Drop)]
pub struct SavedContract {
    pub hash: [u8; 20],
    pub contract: Contract,
}

/// What was saved of a world: where and when it is, the mutez that a byte of storage costs, if any, the fees, what was burnt for storage,
/// accounts and contracts by their bytes, and what was minted and burnt of each ticket, in the order of tickets.
#[derive(Drop)]
pub struct Saved {
    pub chain: ChainId,
    pub level: u32,
    pub moment: i64,
    pub rate: Option<u64>,
    pub fees: u64,
    pub burned: u64,
    pub accounts: Rows<SavedAccount>,
    pub contracts: Rows<SavedContract>,
    pub totals: Rows<(TicketId, Totals)>,
}

// The balances of accounts.
fn account_balances(accounts: &Rows<SavedAccount>) -> u64
    requires { sum_by (λ a. a.balance) accounts.now ≤ most_mutez }
    ensures { result ≡ sum_by (λ a. a.balance) accounts.now }
{
    let mut sum: u64 = 0;
    for account in accounts.as_slice() {
        sum = sum.saturating_add(account.balance);
    }
    sum
}

// The balances of contracts.
fn contract_balances(contracts: &Rows<SavedContract>) -> u64
    requires { sum_by (λ c. c.contract.balance) contracts.now ≤ most_mutez }
    ensures { result ≡ sum_by (λ c. c.contract.balance) contracts.now }
{
    let mut sum: u64 = 0;
    for saved in contracts.as_slice() {
        sum = sum.saturating_add(saved.contract.balance);
    }
    sum
}

// All mutez.
fn supply_of(saved: &Saved) -> u64
    requires { supply_of saved.now ≤ most_mutez }
    ensures { result ≡ supply_of saved.now }
{
    account_balances(&saved.accounts)
        .saturating_add(contract_balances(&saved.contracts))
        .saturating_add(saved.fees)
        .saturating_add(saved.burned)
}

// So much of a ticket.
fn so_much(id: TicketId, amount: i128) -> Ticket
    ensures { result ≡ record { id = id; amount = amount } }
{
    Ticket { id, amount }
}

// What was minted of a ticket.
fn put_minted(alloc: Global, ledger: &mut Ledger, id: &TicketId, amount: i128) -> Result<(), Memory>
    requires positive { pos 1 ≤ℤ amount }
    requires fits { (minted_of ledger.old.books.present (identity id.now) +ℤ amount) ≤ℤ most }
    ensures { IfOk result (λ _. Adds (minted (held (record { id = id.now; amount = amount })) ∷ []) ledger.old.books.present ledger.new.books.present) }
{
    let made = copy_id(alloc, id)?;
    match ledger.mint(alloc, made, amount) {
        Ok(_) => Ok(()),
        Err(MintError::IntegerLimit) => unreachable!(),
        Err(MintError::Memory) => Err(Memory),
    }
}

// What was minted of a ticket, and what was burnt.
fn put_total(alloc: Global, ledger: &mut Ledger, id: TicketId, totals: Totals) -> Result<(), Memory>
    requires totals { AreTotals totals }
    requires fits { (minted_of ledger.old.books.present (identity id) +ℤ totals.minted) ≤ℤ most }
    requires burnt { burnt_of ledger.old.books.present (identity id) ≤ℤ minted_of ledger.old.books.present (identity id) }
    ensures { IfOk result (λ _. Adds (told_of (id, totals)) ledger.old.books.present ledger.new.books.present) }
{
    put_minted(alloc, ledger, &id, totals.minted)?;
    if totals.burnt == 0 {
        return Ok(());
    }
    ledger.burn(alloc, so_much(id, totals.burnt))?;
    Ok(())
}

fn put_totals(
    alloc: Global,
    ledger: &mut Ledger,
    totals: Rows<(TicketId, Totals)>,
) -> Result<(), Memory>
    requires totals { AllByRecursion (λ t. AreTotals t.1) totals }
    requires fits { (id : Identity) → (minted_of ledger.old.books.present id +ℤ minted_in id (flat_map told_of totals)) ≤ℤ most }
    requires burnt { (id : Identity) → burnt_of ledger.old.books.present id ≤ℤ minted_of ledger.old.books.present id }
    ensures { IfOk result (λ _. Adds (flat_map told_of totals) ledger.old.books.present ledger.new.books.present) }
{
    for (id, total) in totals.into_vec() {
        put_total(alloc, ledger, id, total)?;
    }
    Ok(())
}

// What an account holds.
fn put_held(
    alloc: Global,
    ledger: &mut Ledger,
    who: KeyHash,
    held: Rows<(TicketId, i128)>,
) -> Result<(), Memory>
    requires { MayEnter (implicit_place who) ledger.old.books.present (map ticket_of held) }
    ensures { IfOk result (λ _. Enters (implicit_place who) (map ticket_of held) ledger.old.books.present ledger.new.books.present) }
{
    for (id, amount) in held.into_vec() {
        ledger.credit(alloc, Place::Implicit(who), so_much(id, amount))?;
    }
    Ok(())
}

impl World {
    // The rate, if there is one, of a world of nobody.
    fn put_rate(&mut self, rate: Option<u64>)
        requires { IsNew self.old.funds.present }
        ensures rate { self.new.funds.present ≡ with_rate self.old.funds.present rate }
        ensures others { self.new ≡ with_funds self.old self.new.funds }
    {
        if let Some(rate) = rate {
            self.set_rate(rate);
        }
    }

    // The world that what was saved begins with: nobody is there, and all mutez of it are granted.
    fn begun(alloc: Global, saved: &Saved) -> Result<World, Memory>
        requires { supply_of saved.now ≤ most_mutez }
        ensures { IfOk result (IsBegun saved.now) }
    {
        let mut world = World::new(alloc, saved.chain, saved.level, saved.moment);
        world.put_rate(saved.rate);
        world.funds.write_granted(supply_of(saved))?;
        world.funds.write_fees(saved.fees)?;
        world.funds.write_storage_burn(saved.burned)?;
        Ok(world)
    }

    // An account, and the tickets that it holds.
    fn put_account(&mut self, alloc: Global, account: SavedAccount) -> Result<(), Memory>
        requires { MayPutAccounts (account ∷ []) self.old }
        ensures { IfOk result (λ _. PutsAccounts (account ∷ []) self.old self.new) }
    {
        self.funds.write_account(account.who, account.balance)?;
        put_held(alloc, &mut self.ledger, account.who, account.held)?;
        Ok(())
    }

    fn put_accounts(&mut self, alloc: Global, accounts: Rows<SavedAccount>) -> Result<(), Memory>
        requires { MayPutAccounts accounts self.old }
        ensures { IfOk result (λ _. PutsAccounts accounts self.old self.new) }
    {
        for account in accounts.into_vec() {
            self.put_account(alloc, account)?;
        }
        Ok(())
    }

    // A contract, which holds the tickets in its storage. Its big maps are settled in the store.
    fn put_saved(&mut self, alloc: Global, saved: SavedContract) -> Result<(), Memory>
        requires { MayPutContracts (saved ∷ []) self.old }
        ensures { IfOk result (λ _. PutsContracts (saved ∷ []) self.old self.new) }
    {
        let hash = saved.hash;
        let contract = saved.contract;
        self.ledger
            .enter(alloc, Place::Contract(hash), &contract.storage)?;
        let storage = settle_all(
            alloc,
            &mut self.store,
            contract.storage,
            &contract.script.get().storage,
        )?;
        let settled = Contract {
            balance: contract.balance,
            paid: contract.paid,
            script: contract.script,
            storage,
        };
        self.funds.write_contract(hash, settled)?;
        Ok(())
    }

    fn put_contracts(&mut self, alloc: Global, contracts: Rows<SavedContract>) -> Result<(), Memory>
        requires { MayPutContracts contracts self.old }
        ensures { IfOk result (λ _. PutsContracts contracts self.old self.new) }
    {
        for saved in contracts.into_vec() {
            self.put_saved(alloc, saved)?;
        }
        Ok(())
    }

    // Totals, accounts and contracts.
    fn fill(&mut self, alloc: Global, saved: Saved) -> Result<(), Memory>
        requires saved { IsRestorable saved }
        requires begun { IsBegun saved self.old }
        ensures { IfOk result (λ _. IsRestored saved self.new) }
    {
        put_totals(alloc, &mut self.ledger, saved.totals)?;
        self.put_accounts(alloc, saved.accounts)?;
        self.put_contracts(alloc, saved.contracts)?;
        Ok(())
    }

    // Forgets what was told, and ends all marks.
    fn begin_anew(&mut self)
        ensures { StaysRestored self.old self.new }
    {
        let told = self.ledger.take_changes();
        drop(told);
        self.keep();
    }

    /// The world that was saved. Its log tells, of each ticket in order, one mint of all that was minted and one burn of what was burnt, if
    /// any was; as much is granted as there is. Memory where there is no room for it.
    pub fn restore(alloc: Global, saved: Saved) -> Result<World, Memory>
        requires { IsRestorable saved }
        ensures stands { IfOk result (λ w. StandsFor w (world_of saved)) }
        ensures stored { IfOk result AreStored }
        ensures ticketless { IfOk result (λ w. HoldNoTickets w.store.bases.present) }
        ensures scripts { IfOk result (λ w. map (λ c. c.1.script) w.funds.present.contracts ≡ map (λ c. c.contract.script) saved.contracts) }
    {
        let mut world = World::begun(alloc, &saved)?;
        world.fill(alloc, saved)?;
        world.begin_anew();
        Ok(world)
    }
}
