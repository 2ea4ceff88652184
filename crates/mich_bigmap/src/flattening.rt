// All entries of a base, and changes over them.
ghost use Rattle.std.specs.Prelude.{◌≡◌, IfOk, OnOk, option_map};
ghost use Rattle.std.specs.Map.{keys_of};
ghost use Rattle.rules_data.specs.big_maps.Changes.{changed, written};
ghost use Rattle.mich_term.specs.Keyed.{IsIncreasing};
ghost use Rattle.mich_term.specs.View.{datum};
ghost use Rattle.mich_term.specs.ValueView.{pairs, val};
ghost use Rattle.mich_bigmap.specs.Bases.{entries_in, seen};
ghost use Rattle.mich_bigmap.specs.Puts.{puts_for};
ghost use Rattle.mich_bigmap.specs.Stacked.{AreLayers, bases_of};

use crate::layers::{Changes, Layer, below};
use mich_base::Memory;
use mich_term::{Datum, Table, Value, copy_datum, maps, shadow};
use std::alloc::Global;

// An equal change. Memory where there is no room for it.
fn copy_change(alloc: Global, change: &Option<Value>) -> Result<Option<Value>, Memory>
    ensures { IfOk result (λ c. c ≡ change.now) }
{
    match change {
        Some(value) => Ok(Some(shadow(alloc, value)?)),
        None => Ok(None),
    }
}

// Equal changes. Memory where there is no room for them.
pub(crate) fn copy_changes(alloc: Global, changes: &Changes) -> Result<Changes, Memory>
    ensures { IfOk result (λ cs. cs ≡ changes.now) }
{
    let mut copies = Vec::with_capacity(alloc, changes.len())?;
    for (key, change) in changes.iter() {
        let new_key = copy_datum(alloc, key)?;
        let new_change = copy_change(alloc, change)?;
        copies.push((new_key, new_change))?;
    }
    Table::of_entries(alloc, copies)
}

// Writes a change over entries. Memory where there is no room for it.
fn write(entries: &mut Table<Value>, key: Datum, change: Option<Value>) -> Result<(), Memory>
    ensures { OnOk result (pairs entries.new ≡ written (datum key) (option_map val change) (pairs entries.old)) }
{
    match change {
        Some(value) => {
            let old = maps::put(entries, key, value)?;
            drop(old);
            Ok(())
        }
        None => {
            let old = maps::take(entries, &key);
            drop(old);
            drop(key);
            Ok(())
        }
    }
}

// Writes changes over entries. Memory where there is no room for them.
#[tactic(auto, using(crate::proofs::Putting::written_last))]
pub(crate) fn apply(entries: &mut Table<Value>, changes: Changes) -> Result<(), Memory>
    ensures { OnOk result (pairs entries.new ≡ changed (seen changes) (pairs entries.old)) }
{
    let mut left = changes.into_entries();
    'apply: while let Some((key, change)) = left.next_back() {
        write(entries, key, change)?;
    }
    Ok(())
}

// Copies of all entries of a base. Memory where there is no room for them.
pub(crate) fn collect(
    alloc: Global,
    layers: &[Layer],
    base: Option<u64>,
) -> Result<Table<Value>, Memory>
    requires { AreLayers layers.now }
    ensures { IfOk result (λ es. pairs es ≡ entries_in (bases_of layers.now) base) }
{
    let Some(number) = base else {
        return Ok(Table::new(alloc));
    };
    let Some((layer, rest)) = below(layers, number) else {
        return Ok(Table::new(alloc));
    };
    let mut entries = collect(alloc, rest, layer.over)?;
    let changes = copy_changes(alloc, &layer.changes)?;
    apply(&mut entries, changes)?;
    Ok(entries)
}

// The changes that put these entries. Memory where there is no room for them.
#[tactic(auto, using(crate::proofs::Putting::puts_end))]
pub(crate) fn puts_of(alloc: Global, entries: Table<Value>) -> Result<Changes, Memory>
    ensures changes { IfOk result (λ cs. cs ≡ puts_for entries) }
    ensures increasing { IsIncreasing (keys_of entries) }
{
    let mut changes = Vec::with_capacity(alloc, entries.len())?;
    for (key, value) in entries.into_entries() {
        changes.push((key, Some(value)))?;
    }
    Table::of_entries(alloc, changes)
}
