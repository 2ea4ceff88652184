// The world.
ghost use Rattle.std.specs.Borrow.{sem};
ghost use Rattle.std.specs.Prelude.{◌≡◌, ◌+◌, true, [], OnOk, option_map, is_some, unwrap_or, Some};
ghost use Rattle.mich_base.specs.undo.History.{Keeps};
ghost use Rattle.mich_world.specs.Answers.{IsGrant, IsMove, IsFee, IsPayment};
ghost use Rattle.mich_world.specs.Holders.{IsNew, balance_at, contract_at, may_receive, total, with_rate};
ghost use Rattle.mich_world.specs.Lending.{LendsLedger, LendsStore};
ghost use Rattle.mich_world.specs.Marks.{mark_of, at_mark, IsGood, KeepsWorld, IsSame};
ghost use Rattle.mich_world.specs.World.{no_world, with_clock, with_funds};

use crate::contract::Contract;
use crate::errors::{GrantError, MoveError};
use crate::funds::Funds;
use crate::mark::Mark;
use mich_bigmap::Store;
use mich_forms::{ChainId, KeyHash, Place};
use mich_tickets::Ledger;
use std::alloc::Global;
use std::marker::Model;

/// Where and when operations are applied, who has how much mutez, the contracts, the ledger of tickets and the store of big maps,
/// with journals by which writes are taken back (Octez "Operations"). All amounts are in mutez.
#[derive(Drop)]
pub struct World {
    chain: ChainId,
    level: u32,
    moment: i64,
    pub(crate) funds: Funds,
    pub(crate) ledger: Ledger,
    pub(crate) store: Store,
}

impl Model for World {
    ghost use Rattle.mich_world.specs.World.{World as Whole, world_code};

    ghost Value = { Whole };

    ghost coded = { world_code };

    ghost view = { λ w. record { chain = w.chain; level = w.level; moment = w.moment; funds = w.funds; ledger = w.ledger; store = w.store } };
}

impl World {
    /// A world of nobody, of a chain at a level and at a moment in seconds; takes no memory.
    pub fn new(alloc: Global, chain: ChainId, level: u32, now: i64) -> World
        ensures { result ≡ no_world chain level now }
    {
        World {
            chain,
            level,
            moment: now,
            funds: Funds::new(alloc),
            ledger: Ledger::new(alloc),
            store: Store::new(alloc),
        }
    }

    #[tactic(auto, using(crate::proofs::Marks::world_clock))]
    /// Sets the level and the moment in seconds; takes no memory.
    pub fn set_moment(&mut self, level: u32, now: i64)
        ensures world { self.new ≡ with_clock self.old level now }
        ensures keeps { KeepsWorld self.old self.new }
    {
        self.level = level;
        self.moment = now;
    }

    /// The chain, the level and the moment in seconds; takes no memory.
    pub fn clock(&self) -> (ChainId, u32, i64)
        ensures chain { result.0 ≡ self.now.chain }
        ensures level { result.1 ≡ self.now.level }
        ensures moment { result.2 ≡ self.now.moment }
    {
        (self.chain, self.level, self.moment)
    }

    /// Sets how many mutez are burnt for a byte of storage, before there is anybody; takes no memory (Octez "Operations", storage fees
    /// and burn).
    pub fn set_rate(&mut self, rate: u64)
        requires { IsNew self.old.funds.present }
        ensures rate { self.new.funds.present ≡ with_rate self.old.funds.present (Some rate) }
        ensures others { self.new ≡ with_funds self.old self.new.funds }
    {
        self.funds.set_rate(rate);
    }

    /// How many mutez are burnt for a byte of storage. None exactly where that wasn't set. It takes no memory.
    pub fn rate(&self) -> Option<u64>
        ensures { result ≡ self.now.funds.present.rate }
    {
        self.funds.rate()
    }

    /// The balance at a place. None where there is no such account or contract. It takes no memory.
    pub fn balance(&self, place: Place) -> Option<u64>
        ensures { result ≡ balance_at self.now.funds.present place }
    {
        self.funds.balance(&place)
    }

    /// The contract of these 20 bytes. None where there is none. It takes no memory.
    pub fn contract(&self, hash: &[u8; 20]) -> Option<&Contract>
        ensures { option_map (λ c. c.now) result ≡ contract_at self.now.funds.present hash.now }
    {
        self.funds.contract(hash)
    }

    /// The fees that were taken; takes no memory.
    pub fn fees(&self) -> u64
        ensures { result ≡ self.now.funds.present.fees }
    {
        self.funds.fees()
    }

    /// What was burnt for storage; takes no memory.
    pub fn storage_burn(&self) -> u64
        ensures { result ≡ self.now.funds.present.storage_burn }
    {
        self.funds.storage_burn()
    }

    /// All that was granted; takes no memory.
    pub fn granted(&self) -> u64
        ensures { result ≡ self.now.funds.present.granted }
    {
        self.funds.granted()
    }

    /// All balances, the fees and what was burnt for storage; takes no memory.
    pub fn supply(&self) -> u64
        ensures { result ≡ total self.now.funds.present }
    {
        self.funds.supply()
    }

    #[tactic(auto, using(crate::proofs::Marks::world_funds))]
    /// Makes an account with a balance. RepeatedAccount exactly where it is there; SupplyLimit exactly where it isn't and all that is
    /// granted would pass 2^63-1. After an error the world is unchanged (Octez "Accounts and addresses").
    pub fn grant(&mut self, who: KeyHash, mutez: u64) -> Result<(), GrantError>
        ensures answer { IsGrant who mutez self.old.funds self.new.funds result }
        ensures supply { OnOk result (total self.new.funds.present ≡ total self.old.funds.present + mutez) }
        ensures others { self.new ≡ with_funds self.old self.new.funds }
        ensures keeps { KeepsWorld self.old self.new }
    {
        self.funds.grant(who, mutez)
    }

    #[tactic(auto, using(crate::proofs::Marks::world_funds))]
    /// Moves mutez from a place to another; where both are one its balance stays, and an account is made where it isn't there.
    /// NoContract exactly where `to` is a contract that isn't there; BalanceTooLow exactly where it isn't so and the balance of `from`
    /// is less than the amount. After an error the world is unchanged (Octez "Operations", transactions).
    pub fn move_mutez(&mut self, from: Place, to: Place, amount: u64) -> Result<(), MoveError>
        requires { may_receive self.old.funds.present from ≡ true }
        ensures answer { IsMove from to amount self.old.funds self.new.funds result }
        ensures supply { total self.new.funds.present ≡ total self.old.funds.present }
        ensures others { self.new ≡ with_funds self.old self.new.funds }
        ensures keeps { KeepsWorld self.old self.new }
    {
        self.funds.move_mutez(&from, &to, amount)
    }

    #[tactic(auto, using(crate::proofs::Marks::world_funds))]
    /// Takes a fee from an account. BalanceTooLow exactly where its balance is less. After an error the world is unchanged (Octez
    /// "Operations", fees).
    pub fn take_fee(&mut self, who: KeyHash, fee: u64) -> Result<(), MoveError>
        ensures answer { IsFee who fee self.old.funds self.new.funds result }
        ensures supply { total self.new.funds.present ≡ total self.old.funds.present }
        ensures others { self.new ≡ with_funds self.old self.new.funds }
        ensures keeps { KeepsWorld self.old self.new }
    {
        self.funds.take_fee(who, fee)
    }

    #[tactic(auto, using(crate::proofs::Marks::world_funds))]
    /// A contract that has a size in bytes pays for what it grew by since it last paid, at the rate that was set: an account pays the
    /// burn, which is answered, 0 where it didn't grow. BalanceTooLow exactly where the account has less. After an error the world is
    /// unchanged (Octez "Operations", storage fees and burn).
    pub fn pay_storage(
        &mut self,
        hash: &[u8; 20],
        size: u64,
        payer: KeyHash,
    ) -> Result<u64, MoveError>
        requires there { is_some (contract_at self.old.funds.present hash.now) ≡ true }
        requires rate { is_some self.old.funds.present.rate ≡ true }
        ensures answer { IsPayment (unwrap_or self.old.funds.present.rate 0) hash.now size payer self.old.funds self.new.funds result }
        ensures supply { total self.new.funds.present ≡ total self.old.funds.present }
        ensures others { self.new ≡ with_funds self.old self.new.funds }
        ensures keeps { KeepsWorld self.old self.new }
    {
        let Some(rate) = self.funds.rate() else {
            unreachable!();
        };
        self.funds.pay_storage(hash, size, payer, rate)
    }

    /// The ledger of tickets; takes no memory.
    pub fn ledger(&self) -> &Ledger
        ensures { result.now ≡ self.now.ledger }
    {
        &self.ledger
    }

    /// The store of big maps; takes no memory.
    pub fn store(&self) -> &Store
        ensures { result.now ≡ self.now.store }
    {
        &self.store
    }

    /// The ledger, for writing: the world ends with it as it was left, and all else stays. It takes no memory.
    pub fn ledger_mut(&mut self) -> &mut Ledger
        ensures* lends { sem 𝓛 (LendsLedger self.entry result) }
        ensures now { result.now ≡ self.old.ledger }
    {
        &mut self.ledger
    }

    /// The store, for writing: the world ends with it as it was left, and all else stays. It takes no memory.
    pub fn store_mut(&mut self) -> &mut Store
        ensures* lends { sem 𝓛 (LendsStore self.entry result) }
        ensures now { result.now ≡ self.old.store }
    {
        &mut self.store
    }

    /// A place to come back to, which is good until the world, its ledger or its store is taken back to an earlier one or is kept.
    /// It takes no memory.
    pub fn mark(&mut self) -> Mark
        ensures mark { result ≡ mark_of self.old }
        ensures good { IsGood result self.new }
        ensures same { self.new ≡ self.old }
    {
        Mark {
            funds: self.funds.height(),
            ledger: self.ledger.height(),
            store: self.store.height(),
            level: self.level,
            moment: self.moment,
        }
    }

    /// Takes the world back to a mark: accounts, contracts, fees, burns, the ledger, the store and the clock are as they were. The ledger's
    /// list of changes is empty. It takes no memory.
    pub fn undo_to(&mut self, mark: Mark)
        requires { IsGood mark self.old }
        ensures world { IsSame (at_mark self.old mark) self.new }
        ensures changes { self.new.ledger.changes ≡ [] }
        ensures noted { self.old.store.noted ≡ [] → self.new.store.noted ≡ [] }
    {
        self.funds.undo_to(mark.funds);
        self.ledger.undo_to(mark.ledger);
        self.store.undo_to(mark.store);
        self.level = mark.level;
        self.moment = mark.moment;
    }

    /// Ends the world; takes no memory.
    pub fn abandon(self) {
        drop(self);
    }
}
