// The order of values.
ghost use Rattle.std.specs.Prelude.{◌≡◌};
ghost use Rattle.rules_data.specs.values.Order.{order, form as form_place};
ghost use Rattle.mich_term.specs.ValueView.{val};

use crate::value::Value;
use std::cmp::Ordering;

/// The order of two values of one comparable type; takes no memory (Michelson reference, "COMPARE").
pub fn compare_values(a: &Value, b: &Value) -> Ordering
    ensures { result ≡ order (val a.now) (val b.now) }
{
    match (a, b) {
        (Value::Bool(x), Value::Bool(y)) => x.cmp(y),
        (Value::Number(x), Value::Number(y)) => x.cmp(y),
        (Value::Text(x), Value::Text(y)) => x.cmp(y),
        (Value::Bytes(x), Value::Bytes(y)) => x.cmp(y),
        (Value::Some(x), Value::Some(y)) => compare_values(x.get(), y.get()),
        (Value::Left(x), Value::Left(y)) => compare_values(x.get(), y.get()),
        (Value::Right(x), Value::Right(y)) => compare_values(x.get(), y.get()),
        (Value::Pair(x, p), Value::Pair(y, q)) => {
            compare_values(x.get(), y.get()).then(compare_values(p.get(), q.get()))
        }
        _ => form(a).cmp(&form(b)),
    }
}

// The place of a value's form among the forms.
fn form(value: &Value) -> u8
    ensures { result ≡ form_place (val value.now) }
{
    match value {
        Value::Unit => 0,
        Value::Bool(_) => 1,
        Value::Number(_) => 2,
        Value::Text(_) => 3,
        Value::Bytes(_) => 4,
        Value::None => 5,
        Value::Some(_) => 6,
        Value::Left(_) => 7,
        Value::Right(_) => 8,
        Value::Pair(_, _) => 9,
        _ => 10,
    }
}
