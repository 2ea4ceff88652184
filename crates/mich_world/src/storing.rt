// Contracts that are made, and storages that are kept.
ghost use Rattle.std.specs.Prelude.{◌≡◌, ◌≤◌, true, false, [], is_some, IfOk, OnErr, OnOk};
ghost use Rattle.rules_data.specs.values.Tickets.{tickets};
ghost use Rattle.mich_term.specs.Layers.{AreFormed};
ghost use Rattle.mich_bigmap.specs.Layers.{HasBases};
ghost use Rattle.mich_term.specs.ValueView.{val};
ghost use Rattle.mich_tickets.specs.Carrying.{MayEnter};
ghost use Rattle.mich_world.specs.Answers.{IsInstall};
ghost use Rattle.mich_world.specs.Holders.{contract_at, may_receive, balance_or_none, total};
ghost use Rattle.mich_world.specs.Marks.{KeepsWorld, IsSame};
ghost use Rattle.mich_world.specs.Storages.{AreStored, owner_of, stored_tickets, MayReplace, Installs, Commits};

use crate::contract::Contract;
use crate::errors::MoveError;
use crate::world::World;
use mich_base::{Memory, Shared};
use mich_bigmap::settle_all;
use mich_forms::Place;
use mich_instr::Script;
use mich_term::Value;
use std::alloc::Global;

impl World {
    #[tactic(auto, using(mich_base::proofs::undo_lemmas::ForCallers::keeps_same, crate::proofs::Marks::keeps_parts))]
    // A contract is made. After Memory the world has only writes that can be taken back.
    fn put_contract(
        &mut self,
        alloc: Global,
        hash: [u8; 20],
        from: &Place,
        amount: u64,
        script: Shared<Script>,
        storage: Value,
    ) -> Result<(), Memory>
        requires absent { is_some (contract_at self.old.funds.present hash) ≡ false }
        requires there { may_receive self.old.funds.present from.now ≡ true }
        requires enough { amount ≤ balance_or_none self.old.funds.present from.now }
        requires enter { MayEnter (owner_of hash) self.old.ledger.books.present (tickets (val storage)) }
        requires formed { AreFormed storage }
        requires based { HasBases self.old.store.bases.present storage }
        ensures installs { IfOk result (λ _. Installs from.now hash amount script storage self.old self.new) }
        ensures supply { OnOk result (total self.new.funds.present ≡ total self.old.funds.present) }
        ensures keeps { KeepsWorld self.old self.new }
    {
        self.ledger.enter(alloc, Place::Contract(hash), &storage)?;
        let storage = settle_all(alloc, &mut self.store, storage, &script.get().storage)?;
        let contract = Contract {
            balance: amount,
            paid: 0,
            script,
            storage,
        };
        self.funds.found(from, hash, contract)?;
        Ok(())
    }

    #[tactic(auto, using(crate::proofs::Marks::undone_is, crate::proofs::Marks::undone_good, crate::proofs::Marks::same_keeps, crate::proofs::Marks::same_total, crate::proofs::Stored::stored_same, crate::proofs::Stored::stored_installed, crate::proofs::Marks::world_same))]
    /// Makes a contract with a balance, which a place pays, a script and a storage. The big maps of the storage are settled in the
    /// store by its type, and the contract holds the tickets in it. BalanceTooLow exactly where the balance at the place is less. After an error
    /// the world is unchanged, but for the ledger's list of changes after Memory; the storage is abandoned (Octez "Operations",
    /// originations).
    pub fn install(
        &mut self,
        alloc: Global,
        hash: [u8; 20],
        from: Place,
        amount: u64,
        script: Shared<Script>,
        storage: Value,
    ) -> Result<(), MoveError>
        requires absent { is_some (contract_at self.old.funds.present hash) ≡ false }
        requires there { may_receive self.old.funds.present from ≡ true }
        requires enter { MayEnter (owner_of hash) self.old.ledger.books.present (tickets (val storage)) }
        requires formed { AreFormed storage }
        requires based { HasBases self.old.store.bases.present storage }
        ensures answer { IsInstall from hash amount script storage self.old self.new result }
        ensures supply { total self.new.funds.present ≡ total self.old.funds.present }
        ensures stored { AreStored self.old → AreStored self.new }
        ensures keeps { KeepsWorld self.old self.new }
    {
        if self.balance(from).unwrap_or(0) < amount {
            return Err(MoveError::BalanceTooLow);
        }
        let mark = self.mark();
        if self
            .put_contract(alloc, hash, &from, amount, script, storage)
            .is_err()
        {
            self.undo_to(mark);
            return Err(MoveError::Memory);
        }
        Ok(())
    }

    #[tactic(auto, using(mich_base::proofs::undo_lemmas::ForCallers::keeps_same, crate::proofs::Marks::keeps_parts, crate::proofs::Replacing::may_leave_stored, crate::proofs::Replacing::may_enter_stored, crate::proofs::Replacing::replaces_stored))]
    // A contract has a new storage. After Memory the world has only writes that can be taken back.
    fn put_storage(&mut self, alloc: Global, hash: &[u8; 20], storage: Value) -> Result<(), Memory>
        requires there { is_some (contract_at self.old.funds.present hash.now) ≡ true }
        requires replace { MayReplace (owner_of hash.now) self.old.ledger.books.present (stored_tickets (contract_at self.old.funds.present hash.now)) (tickets (val storage)) }
        requires formed { AreFormed storage }
        requires based { HasBases self.old.store.bases.present storage }
        ensures commits { IfOk result (λ _. Commits hash.now storage self.old self.new) }
        ensures supply { OnOk result (total self.new.funds.present ≡ total self.old.funds.present) }
        ensures keeps { KeepsWorld self.old self.new }
    {
        let Some(contract) = self.funds.contract(hash) else {
            unreachable!();
        };
        self.ledger
            .leave(alloc, Place::Contract(*hash), &contract.storage)?;
        self.ledger.enter(alloc, Place::Contract(*hash), &storage)?;
        let storage = settle_all(
            alloc,
            &mut self.store,
            storage,
            &contract.script.get().storage,
        )?;
        self.funds.commit(hash, storage)?;
        Ok(())
    }

    #[tactic(auto, using(crate::proofs::Marks::undone_is, crate::proofs::Marks::undone_good, crate::proofs::Marks::same_keeps, crate::proofs::Marks::same_total, crate::proofs::Stored::stored_same, crate::proofs::Stored::stored_committed))]
    /// Gives a contract that is there a new storage. Its big maps are settled in the store by its type, and the contract holds the tickets in it in
    /// the place of those in the storage before. After Memory the world is unchanged, but for the ledger's list of changes (Octez
    /// "Operations", transactions).
    pub fn commit(&mut self, alloc: Global, hash: &[u8; 20], storage: Value) -> Result<(), Memory>
        requires there { is_some (contract_at self.old.funds.present hash.now) ≡ true }
        requires replace { MayReplace (owner_of hash.now) self.old.ledger.books.present (stored_tickets (contract_at self.old.funds.present hash.now)) (tickets (val storage)) }
        requires formed { AreFormed storage }
        requires based { HasBases self.old.store.bases.present storage }
        ensures commits { IfOk result (λ _. Commits hash.now storage self.old self.new) }
        ensures unchanged { OnErr result (IsSame self.old self.new) }
        ensures supply { total self.new.funds.present ≡ total self.old.funds.present }
        ensures stored { AreStored self.old → AreStored self.new }
        ensures keeps { KeepsWorld self.old self.new }
    {
        let mark = self.mark();
        if self.put_storage(alloc, hash, storage).is_err() {
            self.undo_to(mark);
            return Err(Memory);
        }
        Ok(())
    }

    #[tactic(auto, using(mich_base::proofs::undo_lemmas::ForCallers::keeps_same, crate::proofs::Marks::keeps_parts, crate::proofs::Replacing::replaces_none))]
    // A contract has a new storage, and neither it nor the one before holds tickets. After Memory the world has only writes that can be
    // taken back.
    fn put_plain(&mut self, alloc: Global, hash: &[u8; 20], storage: Value) -> Result<(), Memory>
        requires there { is_some (contract_at self.old.funds.present hash.now) ≡ true }
        requires before { stored_tickets (contract_at self.old.funds.present hash.now) ≡ [] }
        requires after { tickets (val storage) ≡ [] }
        requires formed { AreFormed storage }
        requires based { HasBases self.old.store.bases.present storage }
        ensures commits { IfOk result (λ _. Commits hash.now storage self.old self.new) }
        ensures supply { OnOk result (total self.new.funds.present ≡ total self.old.funds.present) }
        ensures keeps { KeepsWorld self.old self.new }
    {
        let Some(contract) = self.funds.contract(hash) else {
            unreachable!();
        };
        let storage = settle_all(
            alloc,
            &mut self.store,
            storage,
            &contract.script.get().storage,
        )?;
        self.funds.commit(hash, storage)?;
        Ok(())
    }

    #[tactic(auto, using(crate::proofs::Marks::undone_is, crate::proofs::Marks::undone_good, crate::proofs::Marks::same_keeps, crate::proofs::Marks::same_total, crate::proofs::Stored::stored_same, crate::proofs::Stored::stored_committed))]
    /// Gives a contract that is there a new storage, where neither it nor the storage before holds tickets. It does as `commit` does, and
    /// doesn't look through the storages for tickets. After Memory the world is unchanged, but for the ledger's list of changes (Octez
    /// "Operations", transactions).
    pub fn commit_plain(
        &mut self,
        alloc: Global,
        hash: &[u8; 20],
        storage: Value,
    ) -> Result<(), Memory>
        requires there { is_some (contract_at self.old.funds.present hash.now) ≡ true }
        requires before { stored_tickets (contract_at self.old.funds.present hash.now) ≡ [] }
        requires after { tickets (val storage) ≡ [] }
        requires formed { AreFormed storage }
        requires based { HasBases self.old.store.bases.present storage }
        ensures commits { IfOk result (λ _. Commits hash.now storage self.old self.new) }
        ensures unchanged { OnErr result (IsSame self.old self.new) }
        ensures supply { total self.new.funds.present ≡ total self.old.funds.present }
        ensures stored { AreStored self.old → AreStored self.new }
        ensures keeps { KeepsWorld self.old self.new }
    {
        let mark = self.mark();
        if self.put_plain(alloc, hash, storage).is_err() {
            self.undo_to(mark);
            return Err(Memory);
        }
        Ok(())
    }
}
