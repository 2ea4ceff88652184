// Entries of maps, however big maps in them are seen.
ghost use Rattle.rules_data.specs.numbers.Limits.{int_or_limit};
ghost use Rattle.std.specs.Prelude.{◌≡◌, pos, Ok, option_map, is_some, IfOk};
ghost use Rattle.rules_data.specs.values.Val.{number};
ghost use Rattle.rules_data.specs.values.Tables.{value_at};
ghost use Rattle.rules_code.specs.steps.Collections.{map_with};
ghost use Rattle.rules_code.specs.steps.Sets.{element_count, entry_count};
ghost use Rattle.mich_term.specs.View.{datum};
ghost use Rattle.mich_stack.specs.Views.{Sight, seen};
ghost use Rattle.mich_step.specs.collections.Seen.{vals_by, pairs_by};

use crate::collections::counting::count_value;
use mich_base::{Link, Memory};
use mich_term::{Chain, Datum, Table, Value, shadow};
use std::alloc::Global;

// How many elements a list has.
#[tactic(auto, using(crate::proofs::collections_lemmas::Entries::list_count))]
pub(crate) fn list_size(list: &Link<Chain<Value>>) -> Value
    ensures fits { (big : Sight) → int_or_limit (pos (element_count (vals_by big list.now))) ≡ Ok (pos (element_count (vals_by big list.now))) }
    ensures value { (big : Sight) → seen big result ≡ number (pos (element_count (vals_by big list.now))) }
{
    count_value(list.get().len())
}

// How many entries a map has.
#[tactic(auto, using(crate::proofs::collections_lemmas::Entries::map_count))]
pub(crate) fn map_size(table: &Link<Table<Value>>) -> Value
    ensures fits { (big : Sight) → int_or_limit (pos (entry_count (pairs_by big table.now))) ≡ Ok (pos (entry_count (pairs_by big table.now))) }
    ensures value { (big : Sight) → seen big result ≡ number (pos (entry_count (pairs_by big table.now))) }
{
    count_value(table.get().len())
}

/// The value at a key of a map, however big maps in it are seen. None where there is no entry.
#[tactic(auto, using(crate::proofs::collections_lemmas::Entries::found_is))]
pub fn value_in<'a>(table: &'a Link<Table<Value>>, key: &Datum) -> Option<&'a Value>
    ensures { (big : Sight) → option_map (λ v. seen big v.now) result ≡ value_at (datum key.now) (pairs_by big table.now) }
{
    table.get().get(key)
}

// Whether a map has an entry at a key.
#[tactic(auto, using(crate::proofs::collections_lemmas::Entries::found_is, crate::proofs::collections_lemmas::Entries::some_mapped))]
pub(crate) fn has_key(table: &Link<Table<Value>>, key: &Datum) -> bool
    ensures { (big : Sight) → result ≡ is_some (value_at (datum key.now) (pairs_by big table.now)) }
{
    table.get().get(key).is_some()
}

// The value at a key of a map, which is given up.
pub(crate) fn copy_at(
    alloc: Global,
    table: &Link<Table<Value>>,
    key: &Datum,
) -> Result<Option<Value>, Memory>
    ensures { IfOk result (λ o. (big : Sight) → option_map (seen big) o ≡ value_at (datum key.now) (pairs_by big table.now)) }
{
    match value_in(table, key) {
        Some(value) => Ok(Some(shadow(alloc, value)?)),
        None => Ok(None),
    }
}

// A map with what an option has at a key, or without it, and the value that was there.
#[tactic(auto, using(crate::proofs::collections_lemmas::Entries::found_is, crate::proofs::collections_lemmas::Entries::with_is, crate::proofs::collections_lemmas::Entries::without_is))]
pub(crate) fn map_with(
    alloc: Global,
    table: Link<Table<Value>>,
    key: Datum,
    new: Option<Value>,
) -> Result<(Link<Table<Value>>, Option<Value>), Memory>
    ensures table { IfOk result (λ p. (big : Sight) → pairs_by big p.0 ≡ map_with (datum key) (option_map (seen big) new) (pairs_by big table)) }
    ensures old { IfOk result (λ p. (big : Sight) → option_map (seen big) p.1 ≡ value_at (datum key) (pairs_by big table)) }
{
    let mut table = table.into_value()?;
    let old = match new {
        Some(value) => table.insert(key, value)?,
        None => table.remove(&key),
    };
    Ok((Link::new(alloc, table)?, old))
}
