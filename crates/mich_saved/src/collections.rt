// Sets, maps and big maps from what was read of them.
ghost use Rattle.std.specs.Prelude.{◌≡◌, true, IfOk, IfSome, map, option_map};
ghost use Rattle.rules_data.specs.types.Attributes.{big_value};
ghost use Rattle.rules_data.specs.types.Kind.{Kind};
ghost use Rattle.rules_data.specs.types.Kind as k;
ghost use Rattle.rules_data.specs.values.Val.{big_table, table};
ghost use Rattle.rules_files.specs.snapshots.Rules.{are_increasing, keys};
ghost use Rattle.mich_term.specs.View.{datums};
ghost use Rattle.mich_term.specs.ValueView.{pairs, val};
ghost use Rattle.mich_saved.specs.Formed.{AreWholeEntries, IsWhole};
ghost use Rattle.mich_saved.specs.Kept.{in_order, set_kept};
ghost use Rattle.mich_saved.specs.Pushes.{put_of};

use mich_base::{Link, Memory, Rows};
use mich_term::{BigMap, Datum, Elements, Table, Value, compare};
use std::alloc::Global;

// Whether each is below the next one.
#[tactic(auto, using(crate::proofs::Gathered::order_goes, crate::proofs::Gathered::order_fails, crate::proofs::Gathered::order_ends))]
fn are_increasing(elements: &[Datum]) -> bool
    ensures { result ≡ are_increasing (datums elements.now) }
{
    let Some((first, rest)) = elements.split_first() else {
        return true;
    };
    let mut before = first;
    let mut left = rest;
    while let Some((element, behind)) = left.split_first() {
        if !compare(before, element).is_lt() {
            return false;
        }
        before = element;
        left = behind;
    }
    true
}

// The elements, which are in order, as a set.
#[tactic(auto, using(crate::proofs::Gathered::set_goes, crate::proofs::Gathered::set_ends))]
fn elements_of(alloc: Global, elements: Rows<Datum>) -> Result<Elements, Memory>
    requires { are_increasing (datums elements) ≡ true }
    ensures { IfOk result (λ kept. kept ≡ elements) }
{
    let mut kept = Elements::new(alloc);
    for element in elements.into_vec() {
        kept.insert(element)?;
    }
    Ok(kept)
}

/// The set of these elements. None where they are out of order.
#[tactic(auto, using(crate::proofs::Gathered::set_is_kept, crate::proofs::Gathered::set_is_left))]
pub fn set_of(alloc: Global, elements: Rows<Datum>) -> Result<Option<Value>, Memory>
    ensures value { IfOk result (λ o. option_map val o ≡ set_kept (datums elements)) }
    ensures whole { IfOk result (λ o. (a : Kind) → IfSome o (IsWhole (k.set a))) }
{
    if !are_increasing(elements.as_slice()) {
        return Ok(None);
    }
    let kept = elements_of(alloc, elements)?;
    Ok(Some(Value::Set(Link::new(alloc, kept)?)))
}

// Whether each key is below the next one.
#[tactic(auto, using(crate::proofs::Gathered::keys_go, crate::proofs::Gathered::keys_fail, crate::proofs::Gathered::keys_end))]
fn keys_increase(entries: &[(Datum, Value)]) -> bool
    ensures { result ≡ are_increasing (keys (pairs entries.now)) }
{
    let Some((first, rest)) = entries.split_first() else {
        return true;
    };
    let mut before = &first.0;
    let mut left = rest;
    while let Some((entry, behind)) = left.split_first() {
        if !compare(before, &entry.0).is_lt() {
            return false;
        }
        before = &entry.0;
        left = behind;
    }
    true
}

// The entries, whose keys are in order, as a map.
#[tactic(auto, using(crate::proofs::Gathered::map_goes, crate::proofs::Gathered::map_ends))]
fn table_of(alloc: Global, entries: Rows<(Datum, Value)>) -> Result<Table<Value>, Memory>
    requires { are_increasing (keys (pairs entries)) ≡ true }
    ensures { IfOk result (λ kept. kept ≡ entries) }
{
    let mut kept = Table::new(alloc);
    for (key, value) in entries.into_vec() {
        kept.insert(key, value)?;
    }
    Ok(kept)
}

/// The map of these entries. None where they are out of order.
#[tactic(auto, using(crate::proofs::Gathered::map_is_kept, crate::proofs::Gathered::entries_are_left))]
pub fn map_of(alloc: Global, entries: Option<Rows<(Datum, Value)>>) -> Result<Option<Value>, Memory>
    ensures value { IfOk result (λ o. option_map val o ≡ in_order table (option_map pairs entries)) }
    ensures whole { IfOk result (λ o. (a b : Kind) → IfSome entries (AreWholeEntries b) → IfSome o (IsWhole (k.map a b))) }
{
    let Some(entries) = entries else {
        return Ok(None);
    };
    if !keys_increase(entries.as_slice()) {
        return Ok(None);
    }
    let kept = table_of(alloc, entries)?;
    Ok(Some(Value::Map(Link::new(alloc, kept)?)))
}

// The entries, whose keys are in order, as what is put into a big map.
#[tactic(auto, using(crate::proofs::Gathered::overlay_goes, crate::proofs::Gathered::overlay_ends))]
fn overlay_of(alloc: Global, entries: Rows<(Datum, Value)>) -> Result<Table<Option<Value>>, Memory>
    requires { are_increasing (keys (pairs entries)) ≡ true }
    ensures { IfOk result (λ overlay. overlay ≡ map put_of entries) }
{
    let mut overlay = Table::new(alloc);
    for (key, value) in entries.into_vec() {
        overlay.insert(key, Some(value))?;
    }
    Ok(overlay)
}

// A big map whose entries, with keys in order, lie in the value itself.
fn big_value(alloc: Global, entries: Rows<(Datum, Value)>) -> Result<Value, Memory>
    requires { are_increasing (keys (pairs entries)) ≡ true }
    ensures value { IfOk result (λ v. val v ≡ big_table (pairs entries)) }
    ensures whole { IfOk result (λ v. (a b : Kind) → big_value b ≡ true → AreWholeEntries b entries → IsWhole (k.big_map a b) v) }
{
    let overlay = overlay_of(alloc, entries)?;
    let big = BigMap {
        base: None,
        overlay,
    };
    let big = Link::new(alloc, big)?;
    Ok(Value::BigMap(big))
}

/// The big map of these entries. None where they are out of order.
#[tactic(auto, using(crate::proofs::Gathered::big_is_kept, crate::proofs::Gathered::entries_are_left))]
pub fn big_of(alloc: Global, entries: Option<Rows<(Datum, Value)>>) -> Result<Option<Value>, Memory>
    ensures value { IfOk result (λ o. option_map val o ≡ in_order big_table (option_map pairs entries)) }
    ensures whole { IfOk result (λ o. (a b : Kind) → big_value b ≡ true → IfSome entries (AreWholeEntries b)
        → IfSome o (IsWhole (k.big_map a b))) }
{
    let Some(entries) = entries else {
        return Ok(None);
    };
    if !keys_increase(entries.as_slice()) {
        return Ok(None);
    }
    Ok(Some(big_value(alloc, entries)?))
}
