// Moves of mutez, all or nothing.
ghost use Rattle.std.specs.Prelude.{◌≡◌, ◌+◌, ◌≤◌, true, false, is_some, unwrap_or, IfOk, OnErr, OnOk, ℕ, List};
ghost use Rattle.rules_text.specs.nodes.Limits.{most_mutez};
ghost use Rattle.mich_forms.specs.declared.places.Place.TheVariants as place;
ghost use Rattle.mich_base.specs.undo.History.{grown, Keeps};
ghost use Rattle.mich_world.specs.Answers.{IsGrant, IsMove, IsFee, IsPayment};
ghost use Rattle.mich_world.specs.Holders.{IsSound, account_at, contract_at, balance_or_none, may_receive, total, with_balance, with_less, moved, fee_taken, endowed, owed, storage_paid, founded, committed};

use crate::contract::Contract;
use crate::errors::{GrantError, MoveError};
use crate::funds::Funds;
use mich_base::{MOST_MUTEZ, Memory};
use mich_forms::{KeyHash, Place};
use mich_term::Value;

impl Funds {
    // The balance at a place, or 0 where nobody is there.
    fn balance_or_none(&self, place: &Place) -> u64
        ensures value { result ≡ balance_or_none self.now.present place.now }
        ensures within { result ≤ total self.now.present }
        ensures sound { IsSound self.now.present }
    {
        self.balance(place).unwrap_or(0)
    }

    // Whether mutez may come to a place.
    fn may_receive(&self, place: &Place) -> bool
        ensures { result ≡ may_receive self.now.present place.now }
    {
        match place {
            Place::Implicit(_) => true,
            Place::Contract(hash) => self.contract(hash).is_some(),
        }
    }

    // Writes the balance at a place.
    fn write(&mut self, place: &Place, mutez: u64) -> Result<(), Memory>
        requires there { may_receive self.old.present place.now ≡ true }
        requires within { total self.old.present + mutez ≤ self.old.present.granted + balance_or_none self.old.present place.now }
        ensures new { IfOk result (λ _. self.new ≡ grown self.old (with_balance self.old.present place.now mutez)) }
        ensures total { IfOk result (λ _. total self.new.present + balance_or_none self.old.present place.now ≡ total self.old.present + mutez) }
        ensures unchanged { OnErr result (self.new ≡ self.old) }
    {
        match place {
            Place::Implicit(who) => self.write_account(*who, mutez),
            Place::Contract(hash) => self.write_balance(hash, mutez),
        }
    }

    // Takes so much from the balance at a place.
    #[tactic(auto, using(mich_base::proofs::undo_lemmas::ForCallers::keeps_to, mich_base::proofs::undo_lemmas::ForCallers::keeps_equal, crate::proofs::Moves::contracts_there, crate::proofs::Moves::granted_same))]
    fn pay(&mut self, place: &Place, mutez: u64) -> Result<(), Memory>
        requires there { may_receive self.old.present place.now ≡ true }
        requires enough { mutez ≤ balance_or_none self.old.present place.now }
        ensures paid { IfOk result (λ _. self.new.present ≡ with_less self.old.present place.now mutez) }
        ensures total { IfOk result (λ _. total self.new.present + mutez ≡ total self.old.present) }
        ensures granted { IfOk result (λ _. self.new.present.granted ≡ self.old.present.granted) }
        ensures sound { IsSound self.old.present }
        ensures contracts { IfOk result (λ _. (hash : List ℕ) → is_some (contract_at self.new.present hash) ≡ is_some (contract_at self.old.present hash)) }
        ensures keeps { Keeps self.old self.new }
    {
        let had = self.balance_or_none(place);
        self.write(place, had - mutez)?;
        Ok(())
    }

    // Makes an account with a balance.
    #[tactic(auto, using(mich_base::proofs::undo_lemmas::ForCallers::keeps_to, mich_base::proofs::undo_lemmas::ForCallers::keeps_equal, mich_base::proofs::undo_lemmas::ForCallers::keeps_trans, crate::proofs::Moves::nothing))]
    fn endow(&mut self, who: KeyHash, mutez: u64) -> Result<(), Memory>
        requires absent { is_some (account_at self.old.present who) ≡ false }
        requires fits { self.old.present.granted + mutez ≤ most_mutez }
        ensures endowed { IfOk result (λ _. self.new.present ≡ endowed self.old.present who mutez) }
        ensures total { IfOk result (λ _. total self.new.present ≡ total self.old.present + mutez) }
        ensures keeps { Keeps self.old self.new }
    {
        let granted = self.granted() + mutez;
        self.write_granted(granted)?;
        self.write_account(who, mutez)?;
        Ok(())
    }

    // The same, all or nothing.
    #[tactic(auto, using(mich_base::proofs::undo_lemmas::ForCallers::keeps_same))]
    pub(crate) fn grant(&mut self, who: KeyHash, mutez: u64) -> Result<(), GrantError>
        ensures answer { IsGrant who mutez self.old self.new result }
        ensures total { OnOk result (total self.new.present ≡ total self.old.present + mutez) }
        ensures keeps { Keeps self.old self.new }
    {
        if self.balance(&Place::Implicit(who)).is_some() {
            return Err(GrantError::RepeatedAccount);
        }
        if mutez > MOST_MUTEZ - self.granted() {
            return Err(GrantError::SupplyLimit);
        }
        let height = self.height();
        if self.endow(who, mutez).is_err() {
            self.undo_to(height);
            return Err(GrantError::Memory);
        }
        Ok(())
    }

    // A fee goes from an account to the fees.
    #[tactic(auto, using(mich_base::proofs::undo_lemmas::ForCallers::keeps_to, mich_base::proofs::undo_lemmas::ForCallers::keeps_equal, mich_base::proofs::undo_lemmas::ForCallers::keeps_trans))]
    fn pay_fee(&mut self, who: KeyHash, fee: u64) -> Result<(), Memory>
        requires { fee ≤ balance_or_none self.old.present (place.Implicit who) }
        ensures taken { IfOk result (λ _. self.new.present ≡ fee_taken self.old.present who fee) }
        ensures total { IfOk result (λ _. total self.new.present ≡ total self.old.present) }
        ensures keeps { Keeps self.old self.new }
    {
        let fees = self.fees();
        self.pay(&Place::Implicit(who), fee)?;
        self.write_fees(fees + fee)?;
        Ok(())
    }

    // The same, all or nothing.
    #[tactic(auto, using(mich_base::proofs::undo_lemmas::ForCallers::keeps_same))]
    pub(crate) fn take_fee(&mut self, who: KeyHash, fee: u64) -> Result<(), MoveError>
        ensures answer { IsFee who fee self.old self.new result }
        ensures total { total self.new.present ≡ total self.old.present }
        ensures keeps { Keeps self.old self.new }
    {
        if self.balance_or_none(&Place::Implicit(who)) < fee {
            return Err(MoveError::BalanceTooLow);
        }
        let height = self.height();
        if self.pay_fee(who, fee).is_err() {
            self.undo_to(height);
            return Err(MoveError::Memory);
        }
        Ok(())
    }

    // A burn goes from an account to all that was burnt, and a contract has paid for so many bytes.
    #[tactic(auto, using(mich_base::proofs::undo_lemmas::ForCallers::keeps_to, mich_base::proofs::undo_lemmas::ForCallers::keeps_equal, mich_base::proofs::undo_lemmas::ForCallers::keeps_trans))]
    fn pay_burn(
        &mut self,
        hash: &[u8; 20],
        size: u64,
        payer: KeyHash,
        burn: u64,
    ) -> Result<(), Memory>
        requires there { is_some (contract_at self.old.present hash.now) ≡ true }
        requires enough { burn ≤ balance_or_none self.old.present (place.Implicit payer) }
        ensures paid { IfOk result (λ _. self.new.present ≡ storage_paid self.old.present hash.now size payer (Some burn)) }
        ensures total { IfOk result (λ _. total self.new.present ≡ total self.old.present) }
        ensures keeps { Keeps self.old self.new }
    {
        let burnt = self.storage_burn();
        self.pay(&Place::Implicit(payer), burn)?;
        self.write_storage_burn(burnt + burn)?;
        self.write_paid(hash, size)?;
        Ok(())
    }

    // What is burnt for a contract that has a size. None where it is no larger than it has paid for.
    fn owed(&self, hash: &[u8; 20], size: u64, rate: u64) -> Option<u128>
        ensures { result ≡ owed rate size (contract_at self.now.present hash.now) }
    {
        match self.contract(hash) {
            Some(contract) if contract.paid < size => {
                Some((size - contract.paid) as u128 * rate as u128)
            }
            _ => None,
        }
    }

    // A contract pays for its size, all or nothing.
    #[tactic(auto, using(mich_base::proofs::undo_lemmas::ForCallers::keeps_same))]
    pub(crate) fn pay_storage(
        &mut self,
        hash: &[u8; 20],
        size: u64,
        payer: KeyHash,
        rate: u64,
    ) -> Result<u64, MoveError>
        requires { is_some (contract_at self.old.present hash.now) ≡ true }
        ensures answer { IsPayment rate hash.now size payer self.old self.new result }
        ensures total { total self.new.present ≡ total self.old.present }
        ensures keeps { Keeps self.old self.new }
    {
        let Some(burn) = self.owed(hash, size, rate) else {
            return Ok(0);
        };
        if (self.balance_or_none(&Place::Implicit(payer)) as u128) < burn {
            return Err(MoveError::BalanceTooLow);
        }
        let burn = burn as u64;
        let height = self.height();
        if self.pay_burn(hash, size, payer, burn).is_err() {
            self.undo_to(height);
            return Err(MoveError::Memory);
        }
        Ok(burn)
    }

    // Mutez go from one place to another.
    #[tactic(auto, using(mich_base::proofs::undo_lemmas::ForCallers::keeps_to, mich_base::proofs::undo_lemmas::ForCallers::keeps_equal, mich_base::proofs::undo_lemmas::ForCallers::keeps_trans, crate::proofs::Moves::receives))]
    fn carry(&mut self, from: &Place, to: &Place, amount: u64) -> Result<(), Memory>
        requires from_there { may_receive self.old.present from.now ≡ true }
        requires to_there { may_receive self.old.present to.now ≡ true }
        requires enough { amount ≤ balance_or_none self.old.present from.now }
        ensures moved { IfOk result (λ _. self.new.present ≡ moved self.old.present from.now to.now amount) }
        ensures total { IfOk result (λ _. total self.new.present ≡ total self.old.present) }
        ensures keeps { Keeps self.old self.new }
    {
        self.pay(from, amount)?;
        let had = self.balance_or_none(to);
        self.write(to, had + amount)?;
        Ok(())
    }

    // The same, all or nothing.
    #[tactic(auto, using(mich_base::proofs::undo_lemmas::ForCallers::keeps_same))]
    pub(crate) fn move_mutez(
        &mut self,
        from: &Place,
        to: &Place,
        amount: u64,
    ) -> Result<(), MoveError>
        requires { may_receive self.old.present from.now ≡ true }
        ensures answer { IsMove from.now to.now amount self.old self.new result }
        ensures total { total self.new.present ≡ total self.old.present }
        ensures keeps { Keeps self.old self.new }
    {
        if !self.may_receive(to) {
            return Err(MoveError::NoContract);
        }
        if self.balance_or_none(from) < amount {
            return Err(MoveError::BalanceTooLow);
        }
        let height = self.height();
        if self.carry(from, to, amount).is_err() {
            self.undo_to(height);
            return Err(MoveError::Memory);
        }
        Ok(())
    }

    // A contract is made, and a place pays its balance. After Memory the funds have only writes that can be taken back.
    #[tactic(auto, using(mich_base::proofs::undo_lemmas::ForCallers::keeps_to, mich_base::proofs::undo_lemmas::ForCallers::keeps_equal, mich_base::proofs::undo_lemmas::ForCallers::keeps_trans, crate::proofs::Moves::nothing_of))]
    pub(crate) fn found(
        &mut self,
        from: &Place,
        hash: [u8; 20],
        contract: Contract,
    ) -> Result<(), Memory>
        requires absent { is_some (contract_at self.old.present hash) ≡ false }
        requires there { may_receive self.old.present from.now ≡ true }
        requires enough { contract.balance ≤ balance_or_none self.old.present from.now }
        ensures founded { IfOk result (λ _. self.new.present ≡ founded self.old.present from.now hash contract) }
        ensures total { IfOk result (λ _. total self.new.present ≡ total self.old.present) }
        ensures keeps { Keeps self.old self.new }
    {
        self.pay(from, contract.balance)?;
        self.write_contract(hash, contract)?;
        Ok(())
    }

    // A contract has a new storage.
    #[tactic(auto, using(mich_base::proofs::undo_lemmas::ForCallers::keeps_to, mich_base::proofs::undo_lemmas::ForCallers::keeps_equal))]
    pub(crate) fn commit(&mut self, hash: &[u8; 20], storage: Value) -> Result<(), Memory>
        requires { is_some (contract_at self.old.present hash.now) ≡ true }
        ensures committed { IfOk result (λ _. self.new.present ≡ committed self.old.present hash.now storage) }
        ensures total { total self.new.present ≡ total self.old.present }
        ensures keeps { Keeps self.old self.new }
        ensures unchanged { OnErr result (self.new ≡ self.old) }
    {
        self.write_storage(hash, storage)?;
        Ok(())
    }
}
