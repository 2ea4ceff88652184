// Values from their parts.
ghost use Rattle.std.specs.Prelude.{◌≡◌, IfOk, map};
ghost use Rattle.std.specs.Map.{keys_of};
ghost use Rattle.rules_data.specs.types.Kind.{Kind};
ghost use Rattle.rules_data.specs.types.Kind as k;
ghost use Rattle.rules_data.specs.values.Val.{big_table, both};
ghost use Rattle.mich_term.specs.Keyed.{IsIncreasing};
ghost use Rattle.mich_term.specs.ValueView.{pairs, val};
ghost use Rattle.mich_data.specs.Whole.{AreWholeEntries, IsWhole, IsWrappedWhole, put_of};
ghost use Rattle.mich_data.specs.Wrapped.{IsSplit, wrapped};

use mich_base::{Link, Memory, Node};
use mich_term::{BigMap, Datum, Table, Value};
use std::alloc::Global;

// An entry of a map.
#[derive(Debug, Drop)]
pub(crate) struct Entry {
    pub(crate) key: Datum,
    pub(crate) value: Value,
}

// The parts of a pair: two, or the first of more and those behind it.
pub(crate) enum Parts<'a> {
    Two(&'a Node, &'a Node),
    More(&'a Node, &'a [Node]),
    Fewer,
}

pub(crate) fn split_parts(parts: &[Node]) -> Parts<'_>
    ensures { IsSplit parts.now result }
{
    match parts {
        [] | [_] => Parts::Fewer,
        [part, last] => Parts::Two(part, last),
        [part, rest @ ..] => Parts::More(part, rest),
    }
}

// What is made of the value of an argument.
#[derive(Clone, Copy, Debug)]
pub(crate) enum Wrapper {
    Some,
    Left,
    Right,
}

// What a wrapper makes of a value.
pub(crate) fn wrapped_value(alloc: Global, wrapper: Wrapper, value: Value) -> Result<Value, Memory>
    ensures value { IfOk result (λ v. val v ≡ wrapped wrapper (val value)) }
    ensures whole { IfOk result (λ v. (a : Kind) → IsWhole a value → IsWrappedWhole wrapper a v) }
{
    let part = Link::new(alloc, value)?;
    Ok(match wrapper {
        Wrapper::Some => Value::Some(part),
        Wrapper::Left => Value::Left(part),
        Wrapper::Right => Value::Right(part),
    })
}

// The pair of two values.
pub(crate) fn pair_value(alloc: Global, first: Value, second: Value) -> Result<Value, Memory>
    ensures value { IfOk result (λ v. val v ≡ both (val first) (val second)) }
    ensures whole { IfOk result (λ v. (a b : Kind) → IsWhole a first → IsWhole b second → IsWhole (k.pair a b) v) }
{
    let head = Link::new(alloc, first)?;
    let last = Link::new(alloc, second)?;
    Ok(Value::Pair(head, last))
}

// A big map whose entries lie in the value itself.
pub(crate) fn big_value(alloc: Global, table: Table<Value>) -> Result<Value, Memory>
    ensures value { IfOk result (λ v. val v ≡ big_table (pairs table)) }
    ensures whole { IfOk result (λ v. (a b : Kind) → AreWholeEntries b table → IsWhole (k.big_map a b) v) }
{
    let overlay = overlay_of(alloc, table)?;
    let big = BigMap {
        base: None,
        overlay,
    };
    let big = Link::new(alloc, big)?;
    Ok(Value::BigMap(big))
}

// The entries of a table as what is put into a big map.
#[tactic(auto, using(crate::proofs::Tables::overlay_step, crate::proofs::Tables::overlay_end))]
fn overlay_of(alloc: Global, table: Table<Value>) -> Result<Table<Option<Value>>, Memory>
    ensures puts { IfOk result (λ overlay. overlay ≡ map put_of table) }
    ensures increasing { IsIncreasing (keys_of table) }
{
    let _count = table.len();
    let mut overlay = Table::new(alloc);
    for (key, value) in table.into_entries() {
        overlay.insert(key, Some(value))?;
    }
    Ok(overlay)
}
