//! Maps of values, as the definitions see them.
ghost use Rattle.std.specs.Prelude.{◌≡◌, length, IfOk, OnErr, option_map};
ghost use Rattle.rules_data.specs.values.Tables.{value_at, with_value, without_key, AreIncreasingKeys};
ghost use Rattle.mich_term.specs.Keyed.{found, with, without};
ghost use Rattle.mich_term.specs.Laws.{PutsIncreasing, TakesIncreasing};
ghost use Rattle.mich_term.specs.View.{datum};
ghost use Rattle.mich_term.specs.ValueView.{val, pairs};

use crate::datum::Datum;
use crate::table::Table;
use crate::value::Value;
use mich_base::Memory;

/// The value at a key. None where there is no entry; takes no memory (Michelson reference, "GET").
#[tactic(auto, using(crate::proofs::Pairing::found_is))]
pub fn get<'a>(table: &'a Table<Value>, key: &Datum) -> Option<&'a Value>
    ensures value { option_map (λ v. val v.now) result ≡ value_at (datum key.now) (pairs table.now) }
    ensures entry { option_map (λ v. v.now) result ≡ found key.now table.now }
{
    table.get(key)
}

/// Puts a value at a key, and gives the one that was there. Memory where there is no room for it; the map is then unchanged
/// (Michelson reference, "UPDATE").
#[tactic(auto, using(crate::proofs::Pairing::found_is, crate::proofs::Pairing::with_is))]
pub fn put(table: &mut Table<Value>, key: Datum, value: Value) -> Result<Option<Value>, Memory>
    ensures old { IfOk result (λ old. option_map val old ≡ value_at (datum key) (pairs table.old)) }
    ensures new { IfOk result (λ _. pairs table.new ≡ with_value (datum key) (val value) (pairs table.old)) }
    ensures replaced { IfOk result (λ old. old ≡ found key table.old) }
    ensures entries { IfOk result (λ _. table.new ≡ with key value table.old) }
    ensures unchanged { OnErr result (table.new ≡ table.old) }
{
    table.insert(key, value)
}

/// Takes the entry at a key away, and gives its value. None where there was none; takes no memory (Michelson reference,
/// "UPDATE").
#[tactic(auto, using(crate::proofs::Pairing::found_is, crate::proofs::Pairing::without_is))]
pub fn take(table: &mut Table<Value>, key: &Datum) -> Option<Value>
    ensures old { option_map val result ≡ value_at (datum key.now) (pairs table.old) }
    ensures new { pairs table.new ≡ without_key (datum key.now) (pairs table.old) }
    ensures removed { result ≡ found key.now table.old }
    ensures entries { table.new ≡ without key.now table.old }
{
    table.remove(key)
}

/// How many entries a map has (Michelson reference, "SIZE").
#[tactic(auto, using(crate::proofs::Pairing::increasing_is))]
pub fn len(table: &Table<Value>) -> usize
    ensures count { result ≡ length table.now }
    ensures increasing { AreIncreasingKeys (pairs table.now) }
{
    table.len()
}

/// A map stays increasing when something is put into it.
#[tactic(auto, using(crate::proofs::Pairing::puts_increasing))]
pub fn puts_increasing()
    ensures { PutsIncreasing }
{}

/// A map stays increasing when an entry is taken away.
#[tactic(auto, using(crate::proofs::Pairing::takes_increasing))]
pub fn takes_increasing()
    ensures { TakesIncreasing }
{}
