// Tickets in values.
ghost use Rattle.std.specs.Prelude.{◌≡◌, false, IsTrue};
ghost use Rattle.mich_term.specs.ValueView.{big_pairs, pairs, val, vals};
ghost use Rattle.mich_term.specs.Holding.{any_carries, any_entry_carries, carries};

use crate::chain::Chain;
use crate::table::Table;
use crate::value::{BigMap, Value};

// Whether a value has no parts and is no ticket.
fn is_plain(value: &Value) -> bool
    ensures { IsTrue result → carries (val value.now) ≡ false }
{
    matches!(
        value,
        Value::Unit
            | Value::Bool(_)
            | Value::Number(_)
            | Value::Text(_)
            | Value::Bytes(_)
            | Value::None
            | Value::Set(_)
            | Value::Lambda(_, _)
            | Value::Operation(_)
    )
}

/// Whether a ticket is in a value. Takes no memory.
#[tactic(auto, using(crate::proofs::Overlays::table_is))]
#[cycle(carrying)]
pub fn carries(value: &Value) -> bool
    ensures { result ≡ carries (val value.now) }
{
    match value {
        Value::Some(x) | Value::Left(x) | Value::Right(x) => carries(x.get()),
        Value::Pair(x, y) => {
            let first = x.get();
            let second = y.get();
            (!is_plain(first) && carries(first)) || (!is_plain(second) && carries(second))
        }
        Value::List(xs) => list_carries(xs.get()),
        Value::Map(entries) => table_carries(entries.get()),
        Value::BigMap(big) => puts_ticket(big.get()),
        Value::Ticket(_) => true,
        _ => false,
    }
}

#[cycle(carrying)]
fn list_carries(values: &Chain<Value>) -> bool
    ensures { result ≡ any_carries (vals values.now) }
{
    let mut found = false;
    for value in values.as_reversed_slice() {
        let more = !is_plain(value) && carries(value);
        found = more || found;
    }
    found
}

#[tactic(auto, using(crate::proofs::Held::or_next))]
#[cycle(carrying)]
fn table_carries(table: &Table<Value>) -> bool
    ensures { result ≡ any_entry_carries (pairs table.now) }
{
    let mut found = false;
    for (key, value) in table.iter() {
        let _key = key;
        let more = !is_plain(value) && carries(value);
        found = found || more;
    }
    found
}

/// Whether a ticket is in what a big map puts. Takes no memory.
#[tactic(auto, using(crate::proofs::Held::or_next, crate::proofs::Overlays::big_is))]
#[cycle(carrying)]
pub fn puts_ticket(big: &BigMap) -> bool
    ensures { result ≡ any_entry_carries (big_pairs big.now) }
{
    let mut found = false;
    for (key, change) in big.overlay.iter() {
        let _key = key;
        if let Some(value) = change {
            let more = !is_plain(value) && carries(value);
            found = found || more;
        }
    }
    found
}
