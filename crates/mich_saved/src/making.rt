// Values made of parts that were read, where all parts are kept.
ghost use Rattle.std.specs.Prelude.{◌≡◌, [], IfOk, IfSome, option_map};
ghost use Rattle.std.specs.List.{AllByRecursion};
ghost use Rattle.rules_data.specs.types.Kind.{Kind};
ghost use Rattle.rules_data.specs.types.Kind as k;
ghost use Rattle.rules_data.specs.values.Val.{left, list, right, some};
ghost use Rattle.mich_base.specs.TypeView.{kind};
ghost use Rattle.mich_term.specs.ValueView.{val, vals};
ghost use Rattle.mich_saved.specs.Formed.{IsWhole};
ghost use Rattle.mich_saved.specs.Kept.{both_kept};
ghost use Rattle.mich_saved.specs.Pushes.{entry_pushed, pushed, takes_nothing};

use mich_base::{Link, Memory, Rows, Ty};
use mich_term::{Chain, Datum, Value};
use std::alloc::Global;

/// Whether values of a type take no bytes. There is one such value then.
pub fn takes_nothing(ty: &Ty) -> bool
    ensures { result ≡ takes_nothing (kind ty.now) }
{
    match ty {
        Ty::Unit => true,
        Ty::Pair(first, second) => takes_nothing(first.get()) && takes_nothing(second.get()),
        _ => false,
    }
}

/// `Some` of a value, where that is kept.
pub fn some_of(alloc: Global, value: Option<Value>) -> Result<Option<Value>, Memory>
    ensures value { IfOk result (λ o. option_map val o ≡ option_map some (option_map val value)) }
    ensures whole { IfOk result (λ o. (a : Kind) → IfSome value (IsWhole a) → IfSome o (IsWhole (k.option a))) }
{
    let Some(value) = value else {
        return Ok(None);
    };
    Ok(Some(Value::Some(Link::new(alloc, value)?)))
}

/// `Left` of a value, where that is kept.
pub fn left_of(alloc: Global, value: Option<Value>) -> Result<Option<Value>, Memory>
    ensures value { IfOk result (λ o. option_map val o ≡ option_map left (option_map val value)) }
    ensures whole { IfOk result (λ o. (a b : Kind) → IfSome value (IsWhole a) → IfSome o (IsWhole (k.or a b))) }
{
    let Some(value) = value else {
        return Ok(None);
    };
    Ok(Some(Value::Left(Link::new(alloc, value)?)))
}

/// `Right` of a value, where that is kept.
pub fn right_of(alloc: Global, value: Option<Value>) -> Result<Option<Value>, Memory>
    ensures value { IfOk result (λ o. option_map val o ≡ option_map right (option_map val value)) }
    ensures whole { IfOk result (λ o. (a b : Kind) → IfSome value (IsWhole b) → IfSome o (IsWhole (k.or a b))) }
{
    let Some(value) = value else {
        return Ok(None);
    };
    Ok(Some(Value::Right(Link::new(alloc, value)?)))
}

/// The pair of two values, where both are kept.
pub fn pair_of(
    alloc: Global,
    head: Option<Value>,
    last: Option<Value>,
) -> Result<Option<Value>, Memory>
    ensures value { IfOk result (λ o. option_map val o ≡ both_kept (option_map val head) (option_map val last)) }
    ensures whole { IfOk result (λ o. (a b : Kind) → IfSome head (IsWhole a) → IfSome last (IsWhole b) → IfSome o (IsWhole (k.pair a b))) }
{
    let Some(head) = head else {
        return Ok(None);
    };
    let Some(last) = last else {
        return Ok(None);
    };
    let head = Link::new(alloc, head)?;
    let last = Link::new(alloc, last)?;
    Ok(Some(Value::Pair(head, last)))
}

#[tactic(auto, using(crate::proofs::Wholes::list_whole))]
/// The list of these values, where all are kept.
pub fn list_of(alloc: Global, values: Option<Rows<Value>>) -> Result<Option<Value>, Memory>
    ensures value { IfOk result (λ o. option_map val o ≡ option_map list (option_map vals values)) }
    ensures whole { IfOk result (λ o. (a : Kind) → IfSome values (AllByRecursion (IsWhole a)) → IfSome o (IsWhole (k.list a))) }
{
    let Some(values) = values else {
        return Ok(None);
    };
    let chain = Link::new(alloc, Chain::from_rows(values))?;
    Ok(Some(Value::List(chain)))
}

/// No values yet, with room for as many as there will be where they take no bytes, so that a count alone doesn't fill the memory.
pub fn no_values(alloc: Global, part: &Ty, count: u64) -> Result<Rows<Value>, Memory>
    ensures { IfOk result (λ rows. rows ≡ []) }
{
    if takes_nothing(part) {
        Rows::with_capacity(alloc, count as usize)
    } else {
        Ok(Rows::new(alloc))
    }
}

/// A value behind others, where all are kept.
pub fn with_value(
    kept: Option<Rows<Value>>,
    value: Option<Value>,
) -> Result<Option<Rows<Value>>, Memory>
    ensures { IfOk result (λ o. o ≡ pushed kept value) }
{
    let Some(mut values) = kept else {
        return Ok(None);
    };
    let Some(value) = value else {
        return Ok(None);
    };
    values.push(value)?;
    Ok(Some(values))
}

/// An entry behind others, where all are kept.
pub fn with_entry(
    kept: Option<Rows<(Datum, Value)>>,
    key: Datum,
    value: Option<Value>,
) -> Result<Option<Rows<(Datum, Value)>>, Memory>
    ensures { IfOk result (λ o. o ≡ entry_pushed kept key value) }
{
    let Some(mut entries) = kept else {
        return Ok(None);
    };
    let Some(value) = value else {
        return Ok(None);
    };
    entries.push((key, value))?;
    Ok(Some(entries))
}
