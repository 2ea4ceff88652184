// Entries of big maps, as they are seen in a store.
ghost use Rattle.std.specs.Prelude.{◌≡◌, ◌&&◌, true, false, [], List, option_map, is_some, OnOk, IfOk, IfSome};
ghost use Rattle.rules_data.specs.values.Val.{no_pair};
ghost use Rattle.rules_data.specs.values.Tickets.{tickets};
ghost use Rattle.rules_data.specs.values.Tables.{value_at, without_key};
ghost use Rattle.mich_bigmap.specs.Bases.{Bases};
ghost use Rattle.mich_step.specs.Shown.{ShowsTickets};
ghost use Rattle.mich_term.specs.View.{datum};
ghost use Rattle.mich_term.specs.Holding.{carries};
ghost use Rattle.mich_term.specs.ValueView.{val};
ghost use Rattle.mich_term.specs.declared.value.Value.{Value};
ghost use Rattle.mich_term.specs.declared.value.BigMap.{out-BigMap};
ghost use Rattle.mich_store_steps.specs.seen.Sights.{is_plain, sight};
ghost use Rattle.mich_store_steps.specs.big_maps.Given.{entries_changed, entries_seen, entries_with, seen_in, value_seen_at};
ghost use Rattle.mich_store_steps.specs.big_maps.Operands.{AreEntries};

use mich_base::Memory;
use mich_bigmap::{Store, erase, get, unshared, write};
use mich_term::{BigMap, Datum, Table, Value, carries};
use std::alloc::Global;

// A big map without entries.
pub(crate) fn no_entries(alloc: Global) -> BigMap
    ensures { (bs : Bases) → entries_seen bs result ≡ no_pair }
{
    BigMap {
        base: None,
        overlay: Table::new(alloc),
    }
}

// The value at a key. None where there is no entry.
pub(crate) fn found<'a>(store: &'a Store, big: &'a BigMap, key: &Datum) -> Option<&'a Value>
    requires { AreEntries (entries_seen store.now.bases.present big.now) }
    ensures alone { option_map (λ v. val v.now) result ≡ value_at (datum key.now) (entries_seen store.now.bases.present big.now) }
    ensures in_store { option_map (λ v. seen_in store.now.bases.present v.now) result ≡ value_seen_at store.now.bases.present key.now big.now }
{
    get(store, big, key)
}

// Whether there is an entry at a key.
#[tactic(auto, using(crate::proofs::big_maps_lemmas::Values::some_mapped))]
pub(crate) fn is_there(store: &Store, big: &BigMap, key: &Datum) -> bool
    requires { AreEntries (entries_seen store.now.bases.present big.now) }
    ensures { result ≡ is_some (value_at (datum key.now) (entries_seen store.now.bases.present big.now)) }
{
    found(store, big, key).is_some()
}

// Whether a value may not be put into a big map: the values of a base are copied, so no ticket lies over one.
fn is_barred(big: &BigMap, value: &Value) -> bool
    ensures exact { result ≡ (is_some (out-BigMap big.now).base && carries (val value.now)) }
    ensures permitted { result ≡ false → is_some (out-BigMap big.now).base ≡ true → tickets (val value.now) ≡ [] }
{
    big.base.is_some() && carries(value)
}

// Where a ticket is put, the big map first takes its entries out of the store. Only values that can be duplicated lie in a base, so
// typed code never comes to this.
fn unbar(alloc: Global, store: &Store, big: &mut BigMap, value: &Value) -> Result<(), Memory>
    requires { AreEntries (entries_seen store.now.bases.present big.old) }
    ensures entries { OnOk result (entries_seen store.now.bases.present big.new ≡ entries_seen store.now.bases.present big.old) }
    ensures permitted { OnOk result (is_some (out-BigMap big.new).base ≡ true → tickets (val value.now) ≡ []) }
    ensures stays { carries (val value.now) ≡ false → big.new ≡ big.old }
{
    if is_barred(big, value) {
        *big = unshared(alloc, store, big)?;
    }
    Ok(())
}

// Puts a value at a key, and gives the one that was there.
fn put(
    alloc: Global,
    store: &Store,
    big: &mut BigMap,
    key: Datum,
    value: Value,
) -> Result<Option<Value>, Memory>
    requires entries { AreEntries (entries_seen store.now.bases.present big.old) }
    requires plain { is_plain (seen_in store.now.bases.present value) ≡ true }
    requires shows { (vs : List Value) → ShowsTickets (sight store.now.bases.present) vs }
    ensures old { IfOk result (λ old. option_map (seen_in store.now.bases.present) old ≡ value_seen_at store.now.bases.present key big.old) }
    ensures new { OnOk result (entries_seen store.now.bases.present big.new ≡ entries_with store.now.bases.present key value big.old) }
    ensures base { carries (val value) ≡ false → (out-BigMap big.new).base ≡ (out-BigMap big.old).base }
{
    unbar(alloc, store, big, &value)?;
    let old = write(alloc, store, big, key, value)?;
    Ok(old)
}

// Takes the entry at a key away, and gives its value. None where there was none.
fn take(
    alloc: Global,
    store: &Store,
    big: &mut BigMap,
    key: &Datum,
) -> Result<Option<Value>, Memory>
    requires entries { AreEntries (entries_seen store.now.bases.present big.old) }
    requires shows { (vs : List Value) → ShowsTickets (sight store.now.bases.present) vs }
    ensures old { IfOk result (λ old. option_map (seen_in store.now.bases.present) old ≡ value_seen_at store.now.bases.present key.now big.old) }
    ensures new { OnOk result (entries_seen store.now.bases.present big.new ≡ without_key (datum key.now) (entries_seen store.now.bases.present big.old)) }
{
    let old = erase(alloc, store, big, key)?;
    Ok(old)
}

// What an option has is put at a key, or the entry there is taken away; gives the value that was there.
pub(crate) fn exchanged(
    alloc: Global,
    store: &Store,
    big: &mut BigMap,
    key: Datum,
    new: Option<Value>,
) -> Result<Option<Value>, Memory>
    requires entries { AreEntries (entries_seen store.now.bases.present big.old) }
    requires shows { (vs : List Value) → ShowsTickets (sight store.now.bases.present) vs }
    requires plain { IfSome new (λ v. is_plain (seen_in store.now.bases.present v) ≡ true) }
    ensures old { IfOk result (λ old. option_map (seen_in store.now.bases.present) old ≡ value_seen_at store.now.bases.present key big.old) }
    ensures new { OnOk result (entries_seen store.now.bases.present big.new ≡ entries_changed store.now.bases.present key new big.old) }
{
    match new {
        Some(value) => put(alloc, store, big, key, value),
        None => take(alloc, store, big, &key),
    }
}
