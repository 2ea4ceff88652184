// What ITER goes over.
ghost use Rattle.std.specs.Prelude.{◌≡◌, [], ◌∷◌, map, reverse, IfOk, MatchBool, MatchOption};
ghost use Rattle.mich_stack.specs.Views.{Sight, seen};
ghost use Rattle.mich_term.specs.View.{datum};
ghost use Rattle.mich_frames.specs.Shapes.{HasItems, items_in};
ghost use Rattle.mich_interpreter.specs.Items.{items_left, entry_pair, IsNotEmpty};

use mich_base::{Link, Memory, Rows};
use mich_term::{Chain, Datum, Elements, Table, Value};
use std::alloc::Global;

// The items that are left, the next one last.
#[derive(Debug, Drop)]
pub(crate) enum Items {
    Values(Rows<Value>),
    Entries(Rows<(Datum, Value)>),
}

// The values of a list, the first one last.
pub(crate) fn values_of(list: Chain<Value>) -> Rows<Value>
    ensures { result ≡ reverse list }
{
    Rows::from_vec(list.into_reversed())
}

// Entries, the first one last.
pub(crate) fn backwards(entries: Rows<(Datum, Value)>) -> Rows<(Datum, Value)>
    ensures { result ≡ reverse entries }
{
    let mut entries = entries.into_vec();
    entries.reverse();
    Rows::from_vec(entries)
}

// The first value of a list, and the others. None where there is none.
pub(crate) fn split_list(list: Chain<Value>) -> Option<(Value, Chain<Value>)>
    ensures { MatchOption result (list ≡ []) (λ p. list ≡ p.0 ∷ p.1) }
{
    let mut list = list;
    match list.pop() {
        Some(first) => Some((first, list)),
        None => None,
    }
}

// The elements of a set as values, in order.
#[tactic(auto, using(crate::proofs::Mapped::elements_step))]
fn elements_of(alloc: Global, set: &Elements) -> Result<Rows<Value>, Memory>
    ensures { IfOk result (λ vs. (big : Sight) → map (seen big) vs ≡ map datum set.now) }
{
    let mut values = Rows::new(alloc);
    for element in set.iter() {
        values.push(element.value(alloc)?)?;
    }
    Ok(values)
}

// The entries of a map, in order.
pub(crate) fn entries_of(alloc: Global, table: Table<Value>) -> Result<Rows<(Datum, Value)>, Memory>
    ensures { IfOk result (λ es. es ≡ table) }
{
    let mut entries = Rows::new(alloc);
    for entry in table.into_entries() {
        entries.push(entry)?;
    }
    Ok(entries)
}

// The items of a list, a set or a map.
pub(crate) fn items_of(alloc: Global, value: Value) -> Result<Items, Memory>
    requires { (big : Sight) × HasItems (seen big value ∷ []) }
    ensures { IfOk result (λ i. (big : Sight) → items_left big i ≡ items_in (seen big value)) }
{
    match value {
        Value::List(list) => {
            let list = list.into_value()?;
            Ok(Items::Values(values_of(list)))
        }
        Value::Set(set) => {
            let elements = elements_of(alloc, set.get())?;
            Ok(Items::Values(values_of(Chain::from_rows(elements))))
        }
        Value::Map(table) => {
            let table = table.into_value()?;
            let entries = entries_of(alloc, table)?;
            Ok(Items::Entries(backwards(entries)))
        }
        _ => unreachable!(),
    }
}

// Whether no item is left.
pub(crate) fn is_done(items: &Items) -> bool
    ensures { (big : Sight) → MatchBool result (items_left big items.now ≡ []) (IsNotEmpty (items_left big items.now)) }
{
    match items {
        Items::Values(values) => values.is_empty(),
        Items::Entries(entries) => entries.is_empty(),
    }
}

// A key and its value as a pair.
#[tactic(auto, using(crate::proofs::Mapped::pair_is))]
pub(crate) fn pair_of(alloc: Global, key: &Datum, value: Value) -> Result<Value, Memory>
    ensures { IfOk result (λ v. (big : Sight) → seen big v ≡ entry_pair big (key.now, value)) }
{
    let first = Link::new(alloc, key.value(alloc)?)?;
    let second = Link::new(alloc, value)?;
    Ok(Value::Pair(first, second))
}

// Takes the next item.
pub(crate) fn next_item(alloc: Global, items: &mut Items) -> Result<Value, Memory>
    requires { (big : Sight) × IsNotEmpty (items_left big items.old) }
    ensures { IfOk result (λ item. (big : Sight) → items_left big items.old ≡ seen big item ∷ items_left big items.new) }
{
    match items {
        Items::Values(values) => match values.pop() {
            Some(value) => Ok(value),
            None => unreachable!(),
        },
        Items::Entries(entries) => match entries.pop() {
            Some((key, value)) => Ok(pair_of(alloc, &key, value)?),
            None => unreachable!(),
        },
    }
}
