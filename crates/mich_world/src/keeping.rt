// The end of all marks.
ghost use Rattle.std.specs.Prelude.{◌≡◌, ◌↔◌, [], IsTrue, map};
ghost use Rattle.std.specs.List.{AllByRecursion};
ghost use Rattle.mich_bigmap.specs.Kept.{all_of};
ghost use Rattle.mich_bigmap.specs.Notes.{Notes};
ghost use Rattle.mich_bigmap.specs.Ticketless.{HoldNoTickets};
ghost use Rattle.mich_base.specs.undo.History.{kept};
ghost use Rattle.mich_world.specs.Kept.{IsDue, KeepsInUse};
ghost use Rattle.mich_world.specs.Storages.{Stands, AreStored, named_in};

use crate::maps::Contracts;
use crate::world::World;
use mich_bigmap::Store;

// How many bases may be added, beside one for each contract, before storages are looked through.
const MOST_ADDED: u64 = 64;

// Notes the bases that storages name.
fn note_storages(store: &mut Store, contracts: &Contracts)
    ensures { Notes (all_of (map named_in contracts.now.entries)) store.old store.new }
{
    'contracts: for (hash, contract) in contracts {
        let _hash = hash;
        store.note(&contract.storage);
    }
}

impl World {
    /// Ends all marks: drops the journals, and gives up each base of the store that no storage names, directly or through others; all
    /// else stays, and storages stand for what they stood for. It takes no memory.
    pub fn keep(&mut self)
        ensures chain { self.new.chain ≡ self.old.chain }
        ensures level { self.new.level ≡ self.old.level }
        ensures moment { self.new.moment ≡ self.old.moment }
        ensures funds { self.new.funds ≡ kept self.old.funds }
        ensures books { self.new.ledger.books ≡ kept self.old.ledger.books }
        ensures changes { self.new.ledger.changes ≡ self.old.ledger.changes }
        ensures bases { self.new.store.bases.past ≡ [] }
        ensures in_use { KeepsInUse self.old self.new }
        ensures noted { self.new.store.noted ≡ [] }
        ensures stands { AllByRecursion (Stands self.old.store.bases.present self.new.store.bases.present) self.old.funds.present.contracts }
        ensures stored { AreStored self.old → AreStored self.new }
        ensures ticketless { HoldNoTickets self.old.store.bases.present → HoldNoTickets self.new.store.bases.present }
    {
        note_storages(&mut self.store, self.funds.contracts());
        self.store.keep();
        self.ledger.keep();
        self.funds.keep();
    }

    // Whether more bases were added since storages were last looked through than there are contracts, and some.
    fn is_due(&self) -> bool
        ensures { IsTrue result ↔ IsDue self.now }
    {
        let contracts = self.funds.contracts().len() as u64;
        self.store.height() > contracts.saturating_add(MOST_ADDED)
    }

    #[tactic(auto, using(crate::proofs::Kept::still))]
    /// Ends all marks, as `keep` does, in the time of what was done since the last end: bases that no storage names are given up only
    /// once so many were added that looking through all storages costs no more. It takes no memory.
    pub fn end_marks(&mut self)
        ensures chain { self.new.chain ≡ self.old.chain }
        ensures level { self.new.level ≡ self.old.level }
        ensures moment { self.new.moment ≡ self.old.moment }
        ensures funds { self.new.funds ≡ kept self.old.funds }
        ensures books { self.new.ledger.books ≡ kept self.old.ledger.books }
        ensures changes { self.new.ledger.changes ≡ self.old.ledger.changes }
        ensures due { IsDue self.old → KeepsInUse self.old self.new }
        ensures early { (IsDue self.old → ⊥) → self.new.store ≡ self.old.store }
        ensures stands { AllByRecursion (Stands self.old.store.bases.present self.new.store.bases.present) self.old.funds.present.contracts }
        ensures stored { AreStored self.old → AreStored self.new }
        ensures ticketless { HoldNoTickets self.old.store.bases.present → HoldNoTickets self.new.store.bases.present }
    {
        if self.is_due() {
            self.keep();
        } else {
            self.ledger.keep();
            self.funds.keep();
        }
    }
}
