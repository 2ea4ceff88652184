// The store of bases, with a journal: a base is only ever added, so taking the last ones away takes the writes back.
ghost use Rattle.std.specs.Prelude.{◌≡◌, ◌↔◌, ◌≤◌, ℕ, [], ◌∷◌, true, Some, None, IfOk, OnErr};
ghost use Rattle.std.specs.Map.{keys_of};
ghost use Rattle.mich_base.specs.undo.History.{height_of, grown, stepped_back, rewound, Keeps};
ghost use Rattle.mich_term.specs.Keyed.{IsIncreasing};
ghost use Rattle.rules_data.specs.big_maps.Changes.{changed};
ghost use Rattle.mich_bigmap.specs.Bases.{base_at, entries_in, seen};
ghost use Rattle.mich_bigmap.specs.Extended.{Extends};
ghost use Rattle.mich_bigmap.specs.Formed.{is_there};
ghost use Rattle.mich_bigmap.specs.Reached.{IsReachedBase};
ghost use Rattle.mich_bigmap.specs.Stacked.{AreLayers, bases_of};
ghost use Rattle.mich_bigmap.specs.Notes.{Notes};
ghost use Rattle.mich_bigmap.specs.Stored.{no_bases, with_kept};
ghost use Rattle.mich_bigmap.specs.Ticketless.{HoldNoTickets, PutNoTickets};

use crate::keeping::{clear, mark, sweep_all};
use crate::layers::{Changes, Layer};
use mich_base::Memory;
use std::alloc::Global;
use std::marker::Model;

/// The bases that big maps name, and a journal by which added bases are taken back.
#[derive(Debug, Drop)]
pub struct Store {
    layers: Vec<Layer>,
    // how many there were when the journal was dropped
    kept: usize,
    // the number of the next base
    next: u64,
}

impl Model for Store {
    ghost use Rattle.mich_bigmap.specs.Stored.{Stored, stored, stored_code, IsStore};

    ghost Value = { Stored };

    ghost coded = { stored_code };

    ghost view = { λ a. stored a.layers.items a.kept };

    ghost invariant = { λ a. IsStore a.layers.items a.kept a.next };
}

impl Store {
    /// A store without bases; takes no memory.
    pub fn new(alloc: Global) -> Store
        ensures { result ≡ no_bases }
    {
        Store {
            layers: Vec::new(alloc),
            kept: 0,
            next: 0,
        }
    }

    // Its bases, the oldest first.
    pub(crate) fn layers(&self) -> &[Layer]
        ensures bases { bases_of result.now ≡ self.now.bases.present }
        ensures layers { AreLayers result.now }
    {
        self.layers.as_slice()
    }

    /// How many bases were added since the journal was dropped; takes no memory.
    pub fn height(&self) -> u64
        ensures { result ≡ height_of self.now.bases }
    {
        (self.layers.as_slice().len() - self.kept) as u64
    }

    // Adds a base, and gives its number. Memory where there is no room for it; the store is then unchanged.
    pub(crate) fn add(&mut self, over: Option<u64>, changes: Changes) -> Result<u64, Memory>
        requires { IsIncreasing (keys_of changes) }
        ensures added { IfOk result (λ k. self.new.bases ≡ grown self.old.bases (record { number = k; over = over; changes = changes } ∷ self.old.bases.present)) }
        ensures unused { IfOk result (λ k. base_at self.old.bases.present k ≡ None) }
        ensures noted { self.new.noted ≡ self.old.noted }
        ensures unchanged { OnErr result (self.new ≡ self.old) }
    {
        let number = self.next;
        if number == u64::MAX {
            return Err(Memory);
        }
        let layer = Layer {
            number,
            over,
            changes,
            noted: false,
        };
        self.layers.push(layer)?;
        self.next = number + 1;
        Ok(number)
    }

    // The same, by what the bases stand for.
    #[tactic(auto, using(mich_base::proofs::undo_lemmas::ForCallers::keeps_equal))]
    pub(crate) fn extend(&mut self, over: Option<u64>, changes: Changes) -> Result<u64, Memory>
        requires { IsIncreasing (keys_of changes) }
        ensures same { IfOk result (λ k. entries_in self.new.bases.present (Some k) ≡ changed (seen changes) (entries_in self.old.bases.present over)) }
        ensures there { IfOk result (λ k. is_there self.new.bases.present (Some k) ≡ true) }
        ensures others { Extends self.old.bases.present self.new.bases.present }
        ensures keeps { Keeps self.old.bases self.new.bases }
        ensures ticketless { HoldNoTickets self.old.bases.present → PutNoTickets changes → HoldNoTickets self.new.bases.present }
        ensures noted { self.new.noted ≡ self.old.noted }
    {
        let number = self.add(over, changes)?;
        Ok(number)
    }

    // Takes the last base back that was added.
    fn undo_last(&mut self)
        ensures bases { self.new.bases ≡ stepped_back self.old.bases.present self.old.bases.past }
        ensures noted { self.old.noted ≡ [] → self.new.noted ≡ [] }
    {
        let count = self.layers.as_slice().len();
        if count > self.kept {
            self.layers.truncate(count - 1);
        }
    }

    #[tactic(auto, using(mich_base::proofs::undo_lemmas::ForCallers::rewound_here, mich_base::proofs::undo_lemmas::ForCallers::rewound_step))]
    /// Takes back all bases past this height, last first; takes no memory.
    pub fn undo_to(&mut self, height: u64)
        requires { height ≤ height_of self.old.bases }
        ensures bases { self.new.bases ≡ rewound self.old.bases height }
        ensures noted { self.old.noted ≡ [] → self.new.noted ≡ [] }
    {
        'back: while self.height() > height {
            self.undo_last();
        }
    }

    // Notes the base of a number, where there is one.
    pub(crate) fn note_base(&mut self, number: u64)
        ensures { Notes (number ∷ []) self.old self.new }
    {
        mark(&mut self.layers, number);
    }

    /// Drops the journal, and gives up each base that wasn't noted since the last such call and that no noted base is over,
    /// directly or through others; takes no memory.
    pub fn keep(&mut self)
        ensures kept { self.new ≡ with_kept self.old }
        ensures reached { (k : ℕ) → (is_there self.new.bases.present (Some k) ≡ true) ↔ IsReachedBase self.old.noted self.old.bases.present k }
    {
        sweep_all(&mut self.layers);
        clear(&mut self.layers);
        self.kept = self.layers.as_slice().len();
    }

    /// Ends the store; takes no memory.
    pub fn abandon(self) {
        drop(self);
    }
}
