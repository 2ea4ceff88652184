// Big maps and options that are taken from a stack, and big maps that are put on it.
ghost use Rattle.std.specs.Prelude.{◌≡◌, ◌∷◌, flat_map, option_map, option_to_list, IfOk};
ghost use Rattle.rules_data.specs.values.Tickets.{tickets};
ghost use Rattle.rules_data.specs.values.Val.{big_table, truth};
ghost use Rattle.rules_code.specs.steps.Step.{optional};
ghost use Rattle.mich_stack.specs.Views.{Sight, seen, values};
ghost use Rattle.mich_store_steps.specs.big_maps.Given.{entries_by};
ghost use Rattle.mich_store_steps.specs.big_maps.Operands.{IsOptionOnTop, IsBigMapOnTop};

use mich_base::{Link, Memory, Rows};
use mich_stack::{optional_value, pop};
use mich_term::{BigMap, Value, shadow};
use std::alloc::Global;

// Takes the big map on top.
pub(crate) fn take_big(stack: &mut Rows<Value>) -> Result<BigMap, Memory>
    requires { (big : Sight) × IsBigMapOnTop (values big stack.old) }
    ensures { IfOk result (λ map. (big : Sight) → values big stack.old ≡ big_table (entries_by big map) ∷ values big stack.new) }
{
    match pop(stack) {
        Some(Value::BigMap(map)) => Ok(map.into_value()?),
        _ => unreachable!(),
    }
}

// Takes the optional value on top.
pub(crate) fn take_option(stack: &mut Rows<Value>) -> Result<Option<Value>, Memory>
    requires { (big : Sight) × IsOptionOnTop (values big stack.old) }
    ensures { IfOk result (λ value. (big : Sight) → values big stack.old ≡ optional (option_map (seen big) value) ∷ values big stack.new) }
{
    match pop(stack) {
        Some(Value::Some(value)) => Ok(Some(value.into_value()?)),
        Some(Value::None) => Ok(None),
        _ => unreachable!(),
    }
}

// A big map as a value. Memory where there is no room for it.
pub(crate) fn big_value(alloc: Global, map: BigMap) -> Result<Value, Memory>
    ensures { IfOk result (λ v. (big : Sight) → seen big v ≡ big_table (entries_by big map)) }
{
    Ok(Value::BigMap(Link::new(alloc, map)?))
}

// A truth value as a value.
pub(crate) fn truth_value(b: bool) -> Value
    ensures { (big : Sight) → seen big result ≡ truth b }
{
    Value::Bool(b)
}

// A value that may be there, or one without tickets in its place.
pub(crate) fn or_unit(value: Option<Value>) -> Value
    ensures { (big : Sight) → tickets (seen big result) ≡ flat_map tickets (option_to_list (option_map (seen big) value)) }
{
    match value {
        Some(value) => value,
        None => Value::Unit,
    }
}

// A copy of a value that may be there, as an optional value. Memory where there is no room for it.
pub(crate) fn copied(alloc: Global, found: Option<&Value>) -> Result<Value, Memory>
    ensures { IfOk result (λ v. (big : Sight) → seen big v ≡ optional (option_map (λ x. seen big x.now) found.entry)) }
{
    let copy = match found {
        Some(value) => Some(shadow(alloc, value)?),
        None => None,
    };
    optional_value(alloc, copy)
}
