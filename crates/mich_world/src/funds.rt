// Accounts and contracts, fees, burns and grants, with a journal by which writes are taken back.
ghost use Rattle.std.specs.Prelude.{◌≡◌, ◌+◌, ◌-◌, ◌≤◌, true, Some, is_some, option_map, unwrap_or, IfOk, OnErr};
ghost use Rattle.mich_base.specs.undo.History.{height_of, grown, stepped_back, rewound, kept};
ghost use Rattle.mich_world.specs.Holders.{IsNew, IsSound, account_at, contract_at, balance_at, balance_in, balance_or_none, total, with_account, with_contract, rebalanced, repaid, restored, with_change, with_fees, with_granted, with_rate, with_storage_burn};
ghost use Rattle.mich_world.specs.Journal.{no_history};

use crate::contract::Contract;
use crate::entry::{Change, Entry};
use crate::maps::{
    Accounts, Contracts, account, account_back, contract_balance, put_account, put_contract,
    swap_balance, swap_paid, swap_storage,
};
use mich_base::Memory;
use mich_base::undo::{note, put_back};
use mich_forms::{KeyHash, Place};
use mich_term::Value;
use std::alloc::Global;
use std::collections::BTreeMap;
use std::marker::Model;

/// Balances of accounts, contracts, the fees taken, what was burnt for storage and all that was granted, in mutez, and the rate of
/// storage, with a journal of writes.
#[derive(Drop)]
pub(crate) struct Funds {
    accounts: Accounts,
    contracts: Contracts,
    fees: u64,
    storage_burn: u64,
    granted: u64,
    rate: Option<u64>,
    // all balances, the fees and what was burnt
    supply: u64,
    journal: Vec<Entry>,
}

impl Model for Funds {
    ghost use Rattle.mich_base.specs.undo.History.{History};
    ghost use Rattle.mich_world.specs.Holders.{Holders};
    ghost use Rattle.mich_world.specs.Journal.{history, history_code, AreSound};

    ghost Value = { History Holders };

    ghost coded = { history_code };

    ghost view = { λ f. history (record { accounts = f.accounts.entries; contracts = f.contracts.entries; fees = f.fees; storage_burn = f.storage_burn; granted = f.granted; rate = f.rate }) f.journal.items };

    ghost invariant = { λ f. AreSound (record { accounts = f.accounts.entries; contracts = f.contracts.entries; fees = f.fees; storage_burn = f.storage_burn; granted = f.granted; rate = f.rate }) f.supply f.journal.items };
}

impl Funds {
    // Nobody has anything; takes no memory.
    pub(crate) fn new(alloc: Global) -> Funds
        ensures { result ≡ no_history }
    {
        Funds {
            accounts: BTreeMap::new(alloc),
            contracts: BTreeMap::new(alloc),
            fees: 0,
            storage_burn: 0,
            granted: 0,
            rate: None,
            supply: 0,
            journal: Vec::new(alloc),
        }
    }

    // Sets what a byte of storage costs, before there is anybody; takes no memory.
    pub(crate) fn set_rate(&mut self, rate: u64)
        requires { IsNew self.old.present }
        ensures { self.new.present ≡ with_rate self.old.present (Some rate) }
    {
        self.rate = Some(rate);
    }

    // What a byte of storage costs.
    pub(crate) fn rate(&self) -> Option<u64>
        ensures { result ≡ self.now.present.rate }
    {
        self.rate
    }

    // How many entries the journal has.
    pub(crate) fn height(&self) -> u64
        ensures { result ≡ height_of self.now }
    {
        self.journal.as_slice().len() as u64
    }

    // The balance at a place. None where nobody is there.
    pub(crate) fn balance(&self, place: &Place) -> Option<u64>
        ensures value { result ≡ balance_at self.now.present place.now }
        ensures within { unwrap_or result 0 ≤ total self.now.present }
        ensures sound { IsSound self.now.present }
    {
        match place {
            Place::Implicit(who) => account(&self.accounts, who),
            Place::Contract(hash) => contract_balance(&self.contracts, hash),
        }
    }

    // The contract of these 20 bytes. None where it isn't there.
    pub(crate) fn contract(&self, hash: &[u8; 20]) -> Option<&Contract>
        ensures { option_map (λ c. c.now) result ≡ contract_at self.now.present hash.now }
    {
        self.contracts.get(hash)
    }

    // All accounts.
    pub(crate) fn accounts(&self) -> &Accounts
        ensures { result.now.entries ≡ self.now.present.accounts }
    {
        &self.accounts
    }

    // All contracts.
    pub(crate) fn contracts(&self) -> &Contracts
        ensures { result.now.entries ≡ self.now.present.contracts }
    {
        &self.contracts
    }

    // The fees that were taken.
    pub(crate) fn fees(&self) -> u64
        ensures value { result ≡ self.now.present.fees }
        ensures sound { IsSound self.now.present }
    {
        self.fees
    }

    // What was burnt for storage.
    pub(crate) fn storage_burn(&self) -> u64
        ensures value { result ≡ self.now.present.storage_burn }
        ensures sound { IsSound self.now.present }
    {
        self.storage_burn
    }

    // All that was granted.
    pub(crate) fn granted(&self) -> u64
        ensures value { result ≡ self.now.present.granted }
        ensures sound { IsSound self.now.present }
    {
        self.granted
    }

    // All balances, the fees and what was burnt.
    pub(crate) fn supply(&self) -> u64
        ensures { result ≡ total self.now.present }
    {
        self.supply
    }

    // Writes the balance of an account. The journal's room is made before the write, and nothing fails between it and the entry.
    pub(crate) fn write_account(&mut self, who: KeyHash, mutez: u64) -> Result<(), Memory>
        requires { total self.old.present + mutez ≤ self.old.present.granted + unwrap_or (account_at self.old.present who) 0 }
        ensures new { IfOk result (λ _. self.new ≡ grown self.old (with_account self.old.present who mutez)) }
        ensures total { IfOk result (λ _. total self.new.present + unwrap_or (account_at self.old.present who) 0 ≡ total self.old.present + mutez) }
        ensures unchanged { OnErr result (self.new ≡ self.old) }
    {
        self.journal.reserve(1)?;
        let supply = self.supply;
        let old = put_account(&mut self.accounts, who, mutez)?;
        self.supply = supply - old.unwrap_or(0) + mutez;
        note(
            &mut self.journal,
            Entry {
                change: Change::Account(Place::Implicit(who), old),
                supply,
            },
        );
        Ok(())
    }

    // Writes the fees that were taken.
    pub(crate) fn write_fees(&mut self, fees: u64) -> Result<(), Memory>
        requires { total (with_fees self.old.present fees) ≤ self.old.present.granted }
        ensures new { IfOk result (λ _. self.new ≡ grown self.old (with_fees self.old.present fees)) }
        ensures unchanged { OnErr result (self.new ≡ self.old) }
    {
        self.journal.reserve(1)?;
        let supply = self.supply;
        let old = self.fees;
        self.fees = fees;
        self.supply = supply - old + fees;
        note(
            &mut self.journal,
            Entry {
                change: Change::Fees(old),
                supply,
            },
        );
        Ok(())
    }

    // Writes what was burnt for storage.
    pub(crate) fn write_storage_burn(&mut self, burn: u64) -> Result<(), Memory>
        requires { total (with_storage_burn self.old.present burn) ≤ self.old.present.granted }
        ensures new { IfOk result (λ _. self.new ≡ grown self.old (with_storage_burn self.old.present burn)) }
        ensures unchanged { OnErr result (self.new ≡ self.old) }
    {
        self.journal.reserve(1)?;
        let supply = self.supply;
        let old = self.storage_burn;
        self.storage_burn = burn;
        self.supply = supply - old + burn;
        note(
            &mut self.journal,
            Entry {
                change: Change::StorageBurn(old),
                supply,
            },
        );
        Ok(())
    }

    // Writes all that was granted.
    pub(crate) fn write_granted(&mut self, granted: u64) -> Result<(), Memory>
        requires { IsSound (with_granted self.old.present granted) }
        ensures new { IfOk result (λ _. self.new ≡ grown self.old (with_granted self.old.present granted)) }
        ensures unchanged { OnErr result (self.new ≡ self.old) }
    {
        self.journal.reserve(1)?;
        let old = self.granted;
        self.granted = granted;
        note(
            &mut self.journal,
            Entry {
                change: Change::Granted(old),
                supply: self.supply,
            },
        );
        Ok(())
    }

    // Writes the balance of a contract that is there.
    pub(crate) fn write_balance(&mut self, hash: &[u8; 20], mutez: u64) -> Result<(), Memory>
        requires there { is_some (contract_at self.old.present hash.now) ≡ true }
        requires within { total self.old.present + mutez ≤ self.old.present.granted + balance_in (contract_at self.old.present hash.now) }
        ensures new { IfOk result (λ _. self.new ≡ grown self.old (with_change (rebalanced mutez) self.old.present hash.now)) }
        ensures total { IfOk result (λ _. total self.new.present + balance_in (contract_at self.old.present hash.now) ≡ total self.old.present + mutez) }
        ensures unchanged { OnErr result (self.new ≡ self.old) }
    {
        self.journal.reserve(1)?;
        let supply = self.supply;
        if let Some(old) = swap_balance(&mut self.contracts, hash, mutez) {
            self.supply = supply - old + mutez;
            note(
                &mut self.journal,
                Entry {
                    change: Change::Balance(*hash, old),
                    supply,
                },
            );
        }
        Ok(())
    }

    // Writes how many bytes a contract that is there has paid for.
    pub(crate) fn write_paid(&mut self, hash: &[u8; 20], paid: u64) -> Result<(), Memory>
        requires { is_some (contract_at self.old.present hash.now) ≡ true }
        ensures new { IfOk result (λ _. self.new ≡ grown self.old (with_change (repaid paid) self.old.present hash.now)) }
        ensures total { total self.new.present ≡ total self.old.present }
        ensures unchanged { OnErr result (self.new ≡ self.old) }
    {
        self.journal.reserve(1)?;
        if let Some(old) = swap_paid(&mut self.contracts, hash, paid) {
            note(
                &mut self.journal,
                Entry {
                    change: Change::Paid(*hash, old),
                    supply: self.supply,
                },
            );
        }
        Ok(())
    }

    // Writes the storage of a contract that is there.
    pub(crate) fn write_storage(&mut self, hash: &[u8; 20], storage: Value) -> Result<(), Memory>
        requires { is_some (contract_at self.old.present hash.now) ≡ true }
        ensures new { IfOk result (λ _. self.new ≡ grown self.old (with_change (restored storage) self.old.present hash.now)) }
        ensures total { total self.new.present ≡ total self.old.present }
        ensures unchanged { OnErr result (self.new ≡ self.old) }
    {
        self.journal.reserve(1)?;
        if let Some(old) = swap_storage(&mut self.contracts, hash, storage) {
            note(
                &mut self.journal,
                Entry {
                    change: Change::Storage(*hash, old),
                    supply: self.supply,
                },
            );
        }
        Ok(())
    }

    // Puts a contract in.
    pub(crate) fn write_contract(
        &mut self,
        hash: [u8; 20],
        contract: Contract,
    ) -> Result<(), Memory>
        requires { total self.old.present + contract.balance ≤ self.old.present.granted + balance_in (contract_at self.old.present hash) }
        ensures new { IfOk result (λ _. self.new ≡ grown self.old (with_contract self.old.present hash contract)) }
        ensures total { IfOk result (λ _. total self.new.present + balance_in (contract_at self.old.present hash) ≡ total self.old.present + contract.balance) }
        ensures unchanged { OnErr result (self.new ≡ self.old) }
    {
        self.journal.reserve(1)?;
        let supply = self.supply;
        let mutez = contract.balance;
        let old = put_contract(&mut self.contracts, hash, contract)?;
        self.supply = supply - balance_of(&old) + mutez;
        note(
            &mut self.journal,
            Entry {
                change: Change::Contract(hash, old),
                supply,
            },
        );
        Ok(())
    }

    // Takes the last write back.
    fn undo_last(&mut self)
        ensures { self.new ≡ stepped_back self.old.present self.old.past }
    {
        let Some(entry) = self.journal.pop() else {
            return;
        };
        self.supply = entry.supply;
        match entry.change {
            Change::Account(place, old) => account_back(&mut self.accounts, &place, old),
            Change::Contract(hash, old) => put_back(&mut self.contracts, hash, old),
            Change::Balance(hash, old) => {
                swap_balance(&mut self.contracts, &hash, old);
            }
            Change::Storage(hash, old) => {
                let undone = swap_storage(&mut self.contracts, &hash, old);
                drop(undone);
            }
            Change::Paid(hash, old) => {
                swap_paid(&mut self.contracts, &hash, old);
            }
            Change::Fees(old) => self.fees = old,
            Change::StorageBurn(old) => self.storage_burn = old,
            Change::Granted(old) => self.granted = old,
        }
    }

    // Takes all writes past a height back, last first; takes no memory.
    #[tactic(auto, using(mich_base::proofs::undo_lemmas::ForCallers::rewound_here, mich_base::proofs::undo_lemmas::ForCallers::rewound_step))]
    pub(crate) fn undo_to(&mut self, height: u64)
        requires { height ≤ height_of self.old }
        ensures { self.new ≡ rewound self.old height }
    {
        'back: while self.height() > height {
            self.undo_last();
        }
    }

    // Drops the journal, and leaves the funds as they are; takes no memory.
    pub(crate) fn keep(&mut self)
        ensures { self.new ≡ kept self.old }
    {
        self.journal.clear();
    }
}

// The balance of a contract, or 0 where there is none.
fn balance_of(contract: &Option<Contract>) -> u64
    ensures { result ≡ balance_in contract.now }
{
    match contract {
        Some(contract) => contract.balance,
        None => 0,
    }
}
