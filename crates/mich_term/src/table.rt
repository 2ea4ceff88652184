// Values at keys, which contracts see as a list of entries in the keys' order.
ghost use Rattle.std.specs.Prelude.{◌≡◌, ◌-◌, [], length, IfOk, OnErr, option_map, slice_get};
ghost use Rattle.std.specs.Map.{keys_of};
ghost use Rattle.mich_term.specs.Keyed.{IsIncreasing, found, with, without};

use crate::datum::Datum;
use mich_base::Memory;
use std::alloc::Global;
use std::collections::BTreeMap;
use std::collections::btree_map::{IntoIter, Iter};
use std::marker::Model;

/// Values at keys (Michelson reference, "map"). Contracts see the list of its entries, whose keys strictly increase.
#[derive(Debug, Drop)]
pub struct Table<V> {
    map: BTreeMap<Datum, V>,
}

impl<V> Model for Table<V> {
    ghost use Rattle.std.specs.Prelude.{List};
    ghost use Rattle.mich_term.specs.declared.datum.Datum.{Datum};
    ghost use Rattle.mich_term.specs.contracts.datum.Datum as key;
    ghost use Rattle.std.specs.Coded.{coded×, coded_list};

    ghost Value = { List (Datum × V) };

    ghost coded = { coded_list (coded× key.the_row.coded V.code) };

    ghost view = { λ a. a.map.entries };
}

impl<V> Table<V> {
    /// No entries; takes no memory.
    pub fn new(alloc: Global) -> Table<V>
        ensures { result ≡ [] }
    {
        Table {
            map: BTreeMap::new(alloc),
        }
    }

    /// The table of these entries, whose keys strictly increase: no place is looked for. Memory where there is no room for it.
    pub fn of_entries(alloc: Global, entries: Vec<(Datum, V)>) -> Result<Table<V>, Memory>
    where
        V: Drop,
        requires { IsIncreasing (keys_of entries.items) }
        ensures { IfOk result (λ t. t ≡ entries.items) }
    {
        let map: BTreeMap<Datum, V> = entries.into_iter().collect(alloc)?;
        Ok(Table { map })
    }

    /// How many entries it has.
    pub fn len(&self) -> usize
        ensures value { result ≡ length self.now }
        ensures increasing { IsIncreasing (keys_of self.now) }
    {
        self.map.len()
    }

    /// The value at a key. None where there is no entry.
    pub fn get(&self, key: &Datum) -> Option<&V>
        ensures { option_map (λ v. v.now) result ≡ found key.now self.now }
    {
        self.map.get(key)
    }

    /// Puts a value at a key, and gives the one that was there. Memory where there is no room for it; the entries are then
    /// unchanged.
    pub fn insert(&mut self, key: Datum, value: V) -> Result<Option<V>, Memory>
    where
        V: Drop,
        ensures old { IfOk result (λ old. old ≡ found key self.old) }
        ensures new { IfOk result (λ _. self.new ≡ with key value self.old) }
        ensures unchanged { OnErr result (self.new ≡ self.old) }
    {
        Ok(self.map.insert(key, value)?)
    }

    /// Takes the entry at a key away, and gives its value. None where there was none.
    pub fn remove(&mut self, key: &Datum) -> Option<V>
        ensures old { result ≡ found key.now self.old }
        ensures new { self.new ≡ without key.now self.old }
    {
        self.map.remove(key)
    }

    /// The greatest key. None where there are no entries.
    pub fn last_key(&self) -> Option<&Datum>
        ensures { option_map (λ k. k.now) result ≡ option_map (λ e. e.0) (slice_get self.now (length self.now - 1)) }
    {
        let (key, _) = self.map.last_key_value()?;
        Some(key)
    }

    /// Its entries by key; takes no memory.
    pub fn into_entries(self) -> IntoIter<Datum, V>
    where
        V: Drop,
        ensures { result ≡ self }
    {
        self.map.into_iter()
    }

    /// Its entries by key.
    pub fn iter(&self) -> Iter<'_, Datum, V>
        ensures rest { result ≡ self.now }
        ensures increasing { IsIncreasing (keys_of self.now) }
    {
        self.map.iter()
    }
}
