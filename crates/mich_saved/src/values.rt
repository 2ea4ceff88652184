// Values of types that can be stored.
ghost use Rattle.std.specs.Prelude.{◌≡◌, true, IfOk, IfSome, option_map};
ghost use Rattle.std.specs.List.{AllByRecursion};
ghost use Rattle.laws_data.specs.types.Laws.{IsWellFormed};
ghost use Rattle.rules_data.specs.types.Attributes.{big_value, comparable};
ghost use Rattle.rules_data.specs.types.Kind.{Kind};
ghost use Rattle.rules_data.specs.types.Kind as k;
ghost use Rattle.rules_data.specs.values.Val.{big_table, table};
ghost use Rattle.rules_files.specs.snapshots.Reading.{bytes_at, lambda_at, number_value_at, text_at, ticket_at, truth_at, value_at, vals_at};
ghost use Rattle.mich_base.specs.TypeView.{kind};
ghost use Rattle.mich_term.specs.View.{datums};
ghost use Rattle.mich_term.specs.ValueView.{pairs, vals};
ghost use Rattle.mich_saved.specs.Formed.{AreWholeEntries, IsWhole};
ghost use Rattle.mich_saved.specs.Kept.{all_kept, both_kept_at, entries_kept_at, items_kept_at, kept_at, list_kept_at, option_kept_at, or_kept_at, pairs_kept_at, set_kept_at};
ghost use Rattle.mich_saved.specs.Pushes.{kept_seen};
ghost use Rattle.mich_saved.specs.Results.{Gives, spot};

use crate::collections::{big_of, map_of, set_of};
use crate::cursor::Cursor;
use crate::datums::datum_at;
use crate::errors::LoadError;
use crate::fields::{array_at, eight_at, field_at, mark_at, node_at, signed_sixteen_at};
use crate::making::{
    left_of, list_of, no_values, pair_of, right_of, some_of, takes_nothing, with_entry, with_value,
};
use mich_base::{Bytes, Link, Rows, Shared, Text, Ty, copy_type};
use mich_forms::Place;
use mich_instr::Body;
use mich_term::{Datum, Ticket, TicketId, Value};
use std::alloc::Global;

/// A value of a type that can be stored, or None where it isn't kept; it recurses no deeper than the type.
#[cycle(value)]
pub fn value_at<'a>(
    alloc: Global,
    ty: &Ty,
    cursor: Cursor<'a>,
) -> Result<(Option<Value>, Cursor<'a>), LoadError>
    requires { IsWellFormed (kind ty.now) }
    ensures kept { Gives kept_seen result (kept_at (kind ty.now) (spot cursor.entry)) }
    ensures whole { IfOk result (λ x. IfSome x.0 (IsWhole (kind ty.now))) }
{
    match ty {
        Ty::Unit => Ok((Some(Value::Unit), cursor)),
        Ty::Bool => truth_at(cursor),
        Ty::Int | Ty::Nat | Ty::Mutez | Ty::Timestamp => number_at(cursor),
        Ty::String => text_at(alloc, cursor),
        Ty::Bytes | Ty::Key | Ty::KeyHash | Ty::Signature | Ty::ChainId | Ty::Address => {
            bytes_at(alloc, cursor)
        }
        Ty::Never | Ty::Operation | Ty::Contract(_) => Err(LoadError::BadForm(cursor.place)),
        Ty::Option(part) => option_at(alloc, part.get(), cursor),
        Ty::Or(left, right) => or_at(alloc, left.get(), right.get(), cursor),
        Ty::Pair(first, second) => pair_at(alloc, first.get(), second.get(), cursor),
        Ty::List(part) => list_at(alloc, part.get(), cursor),
        Ty::Set(part) => set_at(alloc, part.get(), cursor),
        Ty::Map(key, value) => map_at(alloc, key.get(), value.get(), cursor),
        Ty::BigMap(key, value) => big_map_at(alloc, key.get(), value.get(), cursor),
        Ty::Lambda(_, _) => lambda_at(alloc, cursor),
        Ty::Ticket(content) => ticket_at(alloc, content.get(), cursor),
    }
}

#[cycle(value)]
fn option_at<'a>(
    alloc: Global,
    part: &Ty,
    cursor: Cursor<'a>,
) -> Result<(Option<Value>, Cursor<'a>), LoadError>
    requires { IsWellFormed (kind part.now) }
    ensures kept { Gives kept_seen result (option_kept_at (kept_at (kind part.now)) (spot cursor.entry)) }
    ensures whole { IfOk result (λ x. IfSome x.0 (IsWhole (k.option (kind part.now)))) }
{
    let (some, after) = mark_at(cursor)?;
    if !some {
        return Ok((Some(Value::None), after));
    }
    let (value, after) = value_at(alloc, part, after)?;
    Ok((some_of(alloc, value)?, after))
}

#[cycle(value)]
fn or_at<'a>(
    alloc: Global,
    left: &Ty,
    right: &Ty,
    cursor: Cursor<'a>,
) -> Result<(Option<Value>, Cursor<'a>), LoadError>
    requires left { IsWellFormed (kind left.now) }
    requires right { IsWellFormed (kind right.now) }
    ensures kept { Gives kept_seen result (or_kept_at (kept_at (kind left.now)) (kept_at (kind right.now)) (spot cursor.entry)) }
    ensures whole { IfOk result (λ x. IfSome x.0 (IsWhole (k.or (kind left.now) (kind right.now)))) }
{
    let (is_right, after) = mark_at(cursor)?;
    if is_right {
        let (value, after) = value_at(alloc, right, after)?;
        Ok((right_of(alloc, value)?, after))
    } else {
        let (value, after) = value_at(alloc, left, after)?;
        Ok((left_of(alloc, value)?, after))
    }
}

#[cycle(value)]
fn pair_at<'a>(
    alloc: Global,
    first: &Ty,
    second: &Ty,
    cursor: Cursor<'a>,
) -> Result<(Option<Value>, Cursor<'a>), LoadError>
    requires first { IsWellFormed (kind first.now) }
    requires second { IsWellFormed (kind second.now) }
    ensures kept { Gives kept_seen result (both_kept_at (kept_at (kind first.now)) (kept_at (kind second.now)) (spot cursor.entry)) }
    ensures whole { IfOk result (λ x. IfSome x.0 (IsWhole (k.pair (kind first.now) (kind second.now)))) }
{
    let (head, after) = value_at(alloc, first, cursor)?;
    let (last, after) = value_at(alloc, second, after)?;
    Ok((pair_of(alloc, head, last)?, after))
}

#[cycle(value)]
fn list_at<'a>(
    alloc: Global,
    part: &Ty,
    cursor: Cursor<'a>,
) -> Result<(Option<Value>, Cursor<'a>), LoadError>
    requires { IsWellFormed (kind part.now) }
    ensures kept { Gives kept_seen result (list_kept_at (kept_at (kind part.now)) (spot cursor.entry)) }
    ensures whole { IfOk result (λ x. IfSome x.0 (IsWhole (k.list (kind part.now)))) }
{
    let (count, after) = eight_at(cursor)?;
    let (values, after) = values_at(alloc, part, count, after)?;
    Ok((list_of(alloc, values)?, after))
}

// So many values one behind the other.
#[tactic(auto, using(crate::proofs::Fronts::starts, crate::proofs::Fronts::ends, crate::proofs::Wholes::no_values_whole))]
#[cycle(value)]
fn values_at<'a>(
    alloc: Global,
    part: &Ty,
    count: u64,
    cursor: Cursor<'a>,
) -> Result<(Option<Rows<Value>>, Cursor<'a>), LoadError>
    requires { IsWellFormed (kind part.now) }
    ensures kept { Gives (λ x. (option_map vals x.0, spot x.1)) result (items_kept_at (kept_at (kind part.now)) count (spot cursor.entry)) }
    ensures whole { IfOk result (λ x. IfSome x.0 (AllByRecursion (IsWhole (kind part.now)))) }
{
    let mut kept = Some(no_values(alloc, part, count)?);
    let mut here = cursor;
    for _ in 0..count {
        let (value, after) = value_at(alloc, part, here)?;
        kept = with_value(kept, value)?;
        here = after;
    }
    Ok((kept, here))
}

// So many comparable values one behind the other.
#[tactic(auto, using(crate::proofs::Fronts::vals_steps))]
fn datums_at<'a>(
    alloc: Global,
    part: &Ty,
    count: u64,
    cursor: Cursor<'a>,
) -> Result<(Rows<Datum>, Cursor<'a>), LoadError>
    requires { comparable (kind part.now) ≡ true }
    ensures { Gives (λ x. (datums x.0, spot x.1)) result (vals_at (value_at (kind part.now)) count (spot cursor.entry)) }
{
    let mut values = Rows::new(alloc);
    let mut here = cursor;
    for _ in 0..count {
        let (value, after) = datum_at(alloc, part, here)?;
        values.push(value)?;
        here = after;
    }
    Ok((values, here))
}

// A set. Two elements that take no bytes are the same, and out of order.
fn set_at<'a>(
    alloc: Global,
    part: &Ty,
    cursor: Cursor<'a>,
) -> Result<(Option<Value>, Cursor<'a>), LoadError>
    requires { comparable (kind part.now) ≡ true }
    ensures kept { Gives kept_seen result (set_kept_at (value_at (kind part.now)) (spot cursor.entry)) }
    ensures whole { IfOk result (λ x. IfSome x.0 (IsWhole (k.set (kind part.now)))) }
{
    let (count, after) = eight_at(cursor)?;
    if count > 1 && takes_nothing(part) {
        return Ok((None, after));
    }
    let (elements, after) = datums_at(alloc, part, count, after)?;
    Ok((set_of(alloc, elements)?, after))
}

#[cycle(value)]
fn map_at<'a>(
    alloc: Global,
    key: &Ty,
    value: &Ty,
    cursor: Cursor<'a>,
) -> Result<(Option<Value>, Cursor<'a>), LoadError>
    requires key { comparable (kind key.now) ≡ true }
    requires value { IsWellFormed (kind value.now) }
    ensures kept { Gives kept_seen result (entries_kept_at table (value_at (kind key.now)) (kept_at (kind value.now)) (spot cursor.entry)) }
    ensures whole { IfOk result (λ x. IfSome x.0 (IsWhole (k.map (kind key.now) (kind value.now)))) }
{
    let (count, after) = eight_at(cursor)?;
    if count > 1 && takes_nothing(key) && takes_nothing(value) {
        return Ok((None, after));
    }
    let (entries, after) = entries_at(alloc, key, value, count, after)?;
    Ok((map_of(alloc, entries)?, after))
}

#[cycle(value)]
fn big_map_at<'a>(
    alloc: Global,
    key: &Ty,
    value: &Ty,
    cursor: Cursor<'a>,
) -> Result<(Option<Value>, Cursor<'a>), LoadError>
    requires key { comparable (kind key.now) ≡ true }
    requires value { IsWellFormed (kind value.now) }
    requires big { big_value (kind value.now) ≡ true }
    ensures kept { Gives kept_seen result
        (entries_kept_at big_table (value_at (kind key.now)) (kept_at (kind value.now)) (spot cursor.entry)) }
    ensures whole { IfOk result (λ x. IfSome x.0 (IsWhole (k.big_map (kind key.now) (kind value.now)))) }
{
    let (count, after) = eight_at(cursor)?;
    if count > 1 && takes_nothing(key) && takes_nothing(value) {
        return Ok((None, after));
    }
    let (entries, after) = entries_at(alloc, key, value, count, after)?;
    Ok((big_of(alloc, entries)?, after))
}

// So many entries one behind the other, where their values are kept.
#[tactic(auto, using(crate::proofs::Fronts::entry_steps, crate::proofs::Wholes::no_entries_whole))]
#[cycle(value)]
fn entries_at<'a>(
    alloc: Global,
    key: &Ty,
    value: &Ty,
    count: u64,
    cursor: Cursor<'a>,
) -> Result<(Option<Rows<(Datum, Value)>>, Cursor<'a>), LoadError>
    requires key { comparable (kind key.now) ≡ true }
    requires value { IsWellFormed (kind value.now) }
    ensures kept { Gives (λ x. (option_map pairs x.0, spot x.1)) result
        (pairs_kept_at (value_at (kind key.now)) (kept_at (kind value.now)) count (spot cursor.entry)) }
    ensures whole { IfOk result (λ x. IfSome x.0 (AreWholeEntries (kind value.now))) }
{
    let mut kept = Some(Rows::new(alloc));
    let mut here = cursor;
    for _ in 0..count {
        let (datum, after) = datum_at(alloc, key, here)?;
        let (part, after) = value_at(alloc, value, after)?;
        kept = with_entry(kept, datum, part)?;
        here = after;
    }
    Ok((kept, here))
}

fn number_at(cursor: Cursor<'_>) -> Result<(Option<Value>, Cursor<'_>), LoadError>
    ensures kept { Gives kept_seen result (all_kept number_value_at (spot cursor.entry)) }
    ensures whole { IfOk result (λ x. (a : Kind) → IfSome x.0 (IsWhole a)) }
{
    let (number, after) = signed_sixteen_at(cursor)?;
    Ok((Some(Value::Number(number)), after))
}

fn text_at(alloc: Global, cursor: Cursor<'_>) -> Result<(Option<Value>, Cursor<'_>), LoadError>
    ensures kept { Gives kept_seen result (all_kept text_at (spot cursor.entry)) }
    ensures whole { IfOk result (λ x. (a : Kind) → IfSome x.0 (IsWhole a)) }
{
    let (bytes, after) = field_at(cursor)?;
    Ok((Some(Value::Text(Text::from_slice(alloc, bytes)?)), after))
}

fn bytes_at(alloc: Global, cursor: Cursor<'_>) -> Result<(Option<Value>, Cursor<'_>), LoadError>
    ensures kept { Gives kept_seen result (all_kept bytes_at (spot cursor.entry)) }
    ensures whole { IfOk result (λ x. (a : Kind) → IfSome x.0 (IsWhole a)) }
{
    let (bytes, after) = field_at(cursor)?;
    Ok((Some(Value::Bytes(Bytes::from_slice(alloc, bytes)?)), after))
}

fn truth_at(cursor: Cursor<'_>) -> Result<(Option<Value>, Cursor<'_>), LoadError>
    ensures kept { Gives kept_seen result (all_kept truth_at (spot cursor.entry)) }
    ensures whole { IfOk result (λ x. (a : Kind) → IfSome x.0 (IsWhole a)) }
{
    let (truth, after) = mark_at(cursor)?;
    Ok((Some(Value::Bool(truth)), after))
}

fn lambda_at(alloc: Global, cursor: Cursor<'_>) -> Result<(Option<Value>, Cursor<'_>), LoadError>
    ensures kept { Gives kept_seen result (all_kept lambda_at (spot cursor.entry)) }
    ensures whole { IfOk result (λ x. (a : Kind) → IfSome x.0 (IsWhole a)) }
{
    let (recursive, after) = mark_at(cursor)?;
    let (node, after) = node_at(alloc, after)?;
    let node = Shared::new(alloc, node)?;
    let body = Body::plain(alloc, node)?;
    Ok((Some(Value::Lambda(body, recursive)), after))
}

// A ticket of a contract.
fn ticket_at<'a>(
    alloc: Global,
    content: &Ty,
    cursor: Cursor<'a>,
) -> Result<(Option<Value>, Cursor<'a>), LoadError>
    requires { comparable (kind content.now) ≡ true }
    ensures kept { Gives kept_seen result (all_kept (ticket_at (kind content.now) (value_at (kind content.now))) (spot cursor.entry)) }
    ensures whole { IfOk result (λ x. IfSome x.0 (IsWhole (k.ticket (kind content.now)))) }
{
    let (hash, after) = array_at(cursor)?;
    let (datum, after) = datum_at(alloc, content, after)?;
    let (amount, after) = signed_sixteen_at(after)?;
    let id = TicketId {
        issuer: Place::Contract(hash),
        ty: copy_type(alloc, content)?,
        content: datum,
    };
    let ticket = Link::new(alloc, Ticket { id, amount })?;
    Ok((Some(Value::Ticket(ticket)), after))
}
