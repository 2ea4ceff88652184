// What values weigh.
ghost use Rattle.std.specs.Prelude.{◌≡◌};
ghost use Rattle.rules_data.specs.values.Weight.{weight as whole, weights, pair_weights};
ghost use Rattle.mich_term.specs.Weights.{capped};
ghost use Rattle.mich_term.specs.View.{datum, datums};
ghost use Rattle.mich_term.specs.ValueView.{val, vals, pairs};

use crate::chain::Chain;
use crate::datum::Datum;
use crate::elements::Elements;
use crate::table::Table;
use crate::value::Value;

/// What a value weighs where gas is charged for it, at most 2^64-1; takes no memory (this host's cost table).
#[tactic(auto, using(crate::proofs::Overlays::table_is))]
#[cycle(weight)]
pub fn weight(value: &Value) -> u64
    ensures { result ≡ capped (whole (val value.now)) }
{
    match value {
        Value::Some(x) | Value::Left(x) | Value::Right(x) => weight(x.get()).saturating_add(1),
        Value::Pair(x, y) => weight(x.get())
            .saturating_add(weight(y.get()))
            .saturating_add(1),
        Value::List(xs) => list_weight(xs.get()).saturating_add(1),
        Value::Set(xs) => set_weight(xs.get()).saturating_add(1),
        Value::Map(entries) => table_weight(entries.get()).saturating_add(1),
        _ => 1,
    }
}

#[cycle(weight)]
fn list_weight(values: &Chain<Value>) -> u64
    ensures { result ≡ capped (weights (vals values.now)) }
{
    let mut total: u64 = 0;
    for value in values.as_reversed_slice() {
        total = total.saturating_add(weight(value));
    }
    total
}

fn set_weight(elements: &Elements) -> u64
    ensures { result ≡ capped (weights (datums elements.now)) }
{
    let mut total: u64 = 0;
    for element in elements.iter() {
        total = total.saturating_add(datum_weight(element));
    }
    total
}

#[cycle(weight)]
fn table_weight(table: &Table<Value>) -> u64
    ensures { result ≡ capped (pair_weights (pairs table.now)) }
{
    let mut total: u64 = 0;
    for (key, value) in table.iter() {
        total = total.saturating_add(datum_weight(key));
        total = total.saturating_add(weight(value));
    }
    total
}

/// What a comparable value weighs, at most 2^64-1; takes no memory (this host's cost table).
pub fn datum_weight(value: &Datum) -> u64
    ensures { result ≡ capped (whole (datum value.now)) }
{
    match value {
        Datum::Some(x) | Datum::Left(x) | Datum::Right(x) => {
            datum_weight(x.get()).saturating_add(1)
        }
        Datum::Pair(x, y) => datum_weight(x.get())
            .saturating_add(datum_weight(y.get()))
            .saturating_add(1),
        _ => 1,
    }
}
