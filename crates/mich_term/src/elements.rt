// Sets, which contracts see as the list of their elements in order.
ghost use Rattle.std.specs.Prelude.{◌≡◌, ◌-◌, [], length, not, IfOk, OnErr, option_map, slice_get};
ghost use Rattle.mich_term.specs.Keyed.{IsIncreasing, has, put, taken};

use crate::datum::{Datum, copy_datum};
use mich_base::Memory;
use std::alloc::Global;
use std::collections::BTreeSet;
use std::collections::btree_set::Iter;
use std::marker::Model;

/// The elements of a set (Michelson reference, "set"). Contracts see the list of them, which strictly increases.
#[derive(Debug, Drop)]
pub struct Elements {
    set: BTreeSet<Datum>,
}

impl Model for Elements {
    ghost use Rattle.std.specs.Prelude.{List};
    ghost use Rattle.mich_term.specs.declared.datum.Datum.{Datum};
    ghost use Rattle.mich_term.specs.contracts.datum.Datum as key;
    ghost use Rattle.std.specs.Coded.{coded_list};

    ghost Value = { List Datum };

    ghost coded = { coded_list key.the_row.coded };

    ghost view = { λ a. a.set.keys };
}

impl Elements {
    /// No elements; takes no memory.
    pub fn new(alloc: Global) -> Elements
        ensures { result ≡ [] }
    {
        Elements {
            set: BTreeSet::new(alloc),
        }
    }

    /// How many elements it has.
    pub fn len(&self) -> usize
        ensures value { result ≡ length self.now }
        ensures increasing { IsIncreasing self.now }
    {
        self.set.len()
    }

    /// Whether it has an element.
    pub fn contains(&self, element: &Datum) -> bool
        ensures { result ≡ has element.now self.now }
    {
        self.set.contains(element)
    }

    /// Puts an element in, and says whether it is new. Memory where there is no room for it; the elements are then unchanged.
    pub fn insert(&mut self, element: Datum) -> Result<bool, Memory>
        ensures new { IfOk result (λ new. new ≡ not (has element self.old)) }
        ensures added { IfOk result (λ _. self.new ≡ put element self.old) }
        ensures unchanged { OnErr result (self.new ≡ self.old) }
    {
        Ok(self.set.insert(element)?)
    }

    /// Takes an element out, and says whether it was there.
    pub fn remove(&mut self, element: &Datum) -> bool
        ensures found { result ≡ has element.now self.old }
        ensures removed { self.new ≡ taken element.now self.old }
    {
        self.set.remove(element)
    }

    /// The greatest element. None where there is none.
    pub fn last(&self) -> Option<&Datum>
        ensures { option_map (λ d. d.now) result ≡ slice_get self.now (length self.now - 1) }
    {
        self.set.last()
    }

    /// An equal set. Memory where there is no room for it.
    #[tactic(auto, using(crate::proofs::Ends::set_step))]
    pub fn copy(&self, alloc: Global) -> Result<Elements, Memory>
        ensures { IfOk result (λ s. s ≡ self.now) }
    {
        let mut copies = Elements::new(alloc);
        for element in self.iter() {
            copies.insert(copy_datum(alloc, element)?)?;
        }
        Ok(copies)
    }

    /// Its elements in order.
    pub fn iter(&self) -> Iter<'_, Datum>
        ensures rest { result ≡ self.now }
        ensures increasing { IsIncreasing self.now }
    {
        self.set.iter()
    }
}
