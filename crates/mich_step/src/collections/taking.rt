// Collections that are taken from a stack, and collections as values.
ghost use Rattle.std.specs.Prelude.{◌≡◌, ◌∷◌};
ghost use Rattle.rules_data.specs.values.Val.{list, set, table, truth};
ghost use Rattle.mich_term.specs.View.{datums};
ghost use Rattle.mich_stack.specs.Views.{Sight, seen, values};
ghost use Rattle.mich_step.specs.collections.Seen.{vals_by, pairs_by};
ghost use Rattle.mich_step.specs.collections.Shapes.{IsListOnTop, IsSetOnTop, IsTableOnTop};

use mich_base::{Link, Rows};
use mich_stack::pop;
use mich_term::{Chain, Elements, Table, Value};

// Takes the list on top.
pub(crate) fn take_list(stack: &mut Rows<Value>) -> Link<Chain<Value>>
    requires { (big : Sight) × IsListOnTop (values big stack.old) }
    ensures { (big : Sight) → values big stack.old ≡ list (vals_by big result) ∷ values big stack.new }
{
    match pop(stack) {
        Some(Value::List(list)) => list,
        _ => unreachable!(),
    }
}

// Takes the set on top.
pub(crate) fn take_set(stack: &mut Rows<Value>) -> Link<Elements>
    requires { (big : Sight) × IsSetOnTop (values big stack.old) }
    ensures { (big : Sight) → values big stack.old ≡ set (datums result) ∷ values big stack.new }
{
    match pop(stack) {
        Some(Value::Set(set)) => set,
        _ => unreachable!(),
    }
}

// Takes the map on top.
pub(crate) fn take_map(stack: &mut Rows<Value>) -> Link<Table<Value>>
    requires { (big : Sight) × IsTableOnTop (values big stack.old) }
    ensures { (big : Sight) → values big stack.old ≡ seen big (Value.Map result) ∷ values big stack.new }
{
    match pop(stack) {
        Some(Value::Map(table)) => table,
        _ => unreachable!(),
    }
}

// A list as a value.
pub(crate) fn list_value(items: Link<Chain<Value>>) -> Value
    ensures { (big : Sight) → seen big result ≡ list (vals_by big items) }
{
    Value::List(items)
}

// A map as a value.
pub(crate) fn map_value(entries: Link<Table<Value>>) -> Value
    ensures { (big : Sight) → seen big result ≡ table (pairs_by big entries) }
{
    Value::Map(entries)
}

// A truth value as a value.
pub(crate) fn truth_value(b: bool) -> Value
    ensures { (big : Sight) → seen big result ≡ truth b }
{
    Value::Bool(b)
}
