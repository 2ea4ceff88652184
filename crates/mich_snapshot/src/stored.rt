// Whether values are ones of types that can be stored.
ghost use Rattle.std.specs.Prelude.{◌≡◌, ◌&&◌, IfOk};
ghost use Rattle.rules_data.specs.types.Kind as k;
ghost use Rattle.rules_data.specs.values.Forms.{is_ticket_amount};
ghost use Rattle.rules_data.specs.values.Val as v;
ghost use Rattle.rules_files.specs.snapshots.Rules.{all_values, is_lambda, is_sequence, is_stored};
ghost use Rattle.rules_files.specs.snapshots.Spelt.{HasSpelling, IsNode};
ghost use Rattle.mich_base.specs.TypeView.{kind};
ghost use Rattle.mich_base.specs.View.{tree};
ghost use Rattle.mich_term.specs.ValueView.{big_pairs, pairs, val, vals};
ghost use Rattle.mich_term.specs.View.{datum, datums};
ghost use Rattle.mich_snapshot.specs.Leaves.{ticket_val};

use crate::forms::{bytes_fit, datum_fits, number_fits, text_fits};
use mich_base::{Memory, Node, Ty};
use mich_check::{CheckError, check_body};
use mich_overload::same_kind;
use mich_term::{BigMap, Chain, Datum, Elements, Table, Ticket, Value};
use std::alloc::Global;

fn is_sequence(node: &Node) -> bool
    ensures { result ≡ is_sequence (tree node.now) }
{
    matches!(node, Node::Seq(_))
}

// Whether a node is the body of a lambda of these types, which may be recursive.
#[tactic(auto, using(crate::proofs::Fits::lambda_rules))]
fn lambda_fits(
    alloc: Global,
    arg: &Ty,
    ret: &Ty,
    recursive: bool,
    body: &Node,
) -> Result<bool, Memory>
    requires { IsNode (tree body.now) }
    ensures { IfOk result (λ b. b ≡ is_lambda (kind arg.now) (kind ret.now) (tree body.now) recursive) }
{
    if !is_sequence(body) {
        return Ok(false);
    }
    match check_body(alloc, arg, ret, recursive, body) {
        Ok(_) => Ok(true),
        Err(CheckError::IllTyped(_)) => Ok(false),
        Err(CheckError::Memory) => Err(Memory),
    }
}

// Whether so much of a ticket can be there; numbers of 128 bits go no further.
fn is_amount(amount: i128) -> bool
    ensures { result ≡ is_ticket_amount amount }
{
    amount >= 1
}

// Whether a ticket has this type of content.
fn ticket_fits(alloc: Global, content: &Ty, ticket: &Ticket) -> Result<bool, Memory>
    ensures { IfOk result (λ b. b ≡ is_stored (k.ticket (kind content.now)) (ticket_val ticket.now)) }
{
    if !same_kind(&ticket.id.ty, content) {
        return Ok(false);
    }
    if !datum_fits(alloc, content, &ticket.id.content)? {
        return Ok(false);
    }
    Ok(is_amount(ticket.amount))
}

// The elements of a set are in order.
fn set_fits(alloc: Global, part: &Ty, elements: &Elements) -> Result<bool, Memory>
    ensures { IfOk result (λ b. b ≡ is_stored (k.set (kind part.now)) (v.set (datums elements.now))) }
{
    for element in elements.iter() {
        if !datum_fits(alloc, part, element)? {
            return Ok(false);
        }
    }
    Ok(true)
}

/// Whether a value is one of a type that can be stored: it has the form of the type, sets and maps are in order, and lambdas are well
/// typed. It recurses no deeper than the type. Memory where there is no room to tell.
#[cycle(fits)]
pub fn value_fits(alloc: Global, ty: &Ty, value: &Value) -> Result<bool, Memory>
    requires { HasSpelling (kind ty.now) (val value.now) }
    ensures { IfOk result (λ b. b ≡ is_stored (kind ty.now) (val value.now)) }
{
    match value {
        Value::Unit => Ok(matches!(ty, Ty::Unit)),
        Value::Bool(_) => Ok(matches!(ty, Ty::Bool)),
        Value::Number(number) => number_fits(alloc, ty, *number),
        Value::Text(text) => text_fits(alloc, ty, text),
        Value::Bytes(bytes) => bytes_fit(alloc, ty, bytes),
        Value::None => Ok(matches!(ty, Ty::Option(_))),
        Value::Some(part) => match ty {
            Ty::Option(inner) => value_fits(alloc, inner.get(), part.get()),
            _ => Ok(false),
        },
        Value::Left(part) => match ty {
            Ty::Or(left, _) => value_fits(alloc, left.get(), part.get()),
            _ => Ok(false),
        },
        Value::Right(part) => match ty {
            Ty::Or(_, right) => value_fits(alloc, right.get(), part.get()),
            _ => Ok(false),
        },
        Value::Pair(first, second) => match ty {
            Ty::Pair(left, right) => {
                both_fit(alloc, left.get(), right.get(), first.get(), second.get())
            }
            _ => Ok(false),
        },
        Value::List(values) => match ty {
            Ty::List(part) => list_fits(alloc, part.get(), values.get()),
            _ => Ok(false),
        },
        Value::Set(elements) => match ty {
            Ty::Set(part) => set_fits(alloc, part.get(), elements.get()),
            _ => Ok(false),
        },
        Value::Map(entries) => match ty {
            Ty::Map(key, part) => table_fits(alloc, key.get(), part.get(), entries.get()),
            _ => Ok(false),
        },
        Value::BigMap(big) => match ty {
            Ty::BigMap(key, part) => big_fits(alloc, key.get(), part.get(), big.get()),
            _ => Ok(false),
        },
        Value::Lambda(body, recursive) => match ty {
            Ty::Lambda(arg, ret) => {
                lambda_fits(alloc, arg.get(), ret.get(), *recursive, body.get().node())
            }
            _ => Ok(false),
        },
        Value::Operation(_) => Ok(false),
        Value::Ticket(ticket) => match ty {
            Ty::Ticket(content) => ticket_fits(alloc, content.get(), ticket.get()),
            _ => Ok(false),
        },
    }
}

#[cycle(fits)]
fn both_fit(
    alloc: Global,
    left: &Ty,
    right: &Ty,
    first: &Value,
    second: &Value,
) -> Result<bool, Memory>
    requires first_spelt { HasSpelling (kind left.now) (val first.now) }
    requires second_spelt { HasSpelling (kind right.now) (val second.now) }
    ensures { IfOk result (λ b. b ≡ (is_stored (kind left.now) (val first.now) && is_stored (kind right.now) (val second.now))) }
{
    if !value_fits(alloc, left, first)? {
        return Ok(false);
    }
    value_fits(alloc, right, second)
}

#[tactic(auto, using(crate::proofs::Fits::item_holds))]
#[cycle(fits)]
fn list_fits(alloc: Global, part: &Ty, values: &Chain<Value>) -> Result<bool, Memory>
    requires { HasSpelling (k.list (kind part.now)) (v.list (vals values.now)) }
    ensures { IfOk result (λ b. b ≡ all_values (is_stored (kind part.now)) (vals values.now)) }
{
    for value in values.as_reversed_slice() {
        if !value_fits(alloc, part, value)? {
            return Ok(false);
        }
    }
    Ok(true)
}

// A key and its value.
#[cycle(fits)]
fn entry_fits(
    alloc: Global,
    key: &Ty,
    part: &Ty,
    first: &Datum,
    second: &Value,
) -> Result<bool, Memory>
    requires { HasSpelling (kind part.now) (val second.now) }
    ensures { IfOk result (λ b. b ≡ (is_stored (kind key.now) (datum first.now) && is_stored (kind part.now) (val second.now))) }
{
    if !datum_fits(alloc, key, first)? {
        return Ok(false);
    }
    value_fits(alloc, part, second)
}

#[cycle(fits)]
fn table_fits(alloc: Global, key: &Ty, part: &Ty, entries: &Table<Value>) -> Result<bool, Memory>
    requires { HasSpelling (k.map (kind key.now) (kind part.now)) (v.table (pairs entries.now)) }
    ensures { IfOk result (λ b. b ≡ is_stored (k.map (kind key.now) (kind part.now)) (v.table (pairs entries.now))) }
{
    for (datum, value) in entries.iter() {
        if !entry_fits(alloc, key, part, datum, value)? {
            return Ok(false);
        }
    }
    Ok(true)
}

// The entries that lie in a big map.
#[cycle(fits)]
fn big_fits(alloc: Global, key: &Ty, part: &Ty, big: &BigMap) -> Result<bool, Memory>
    requires { HasSpelling (k.big_map (kind key.now) (kind part.now)) (v.big_table (big_pairs big.now)) }
    ensures { IfOk result (λ b. b ≡ is_stored (k.big_map (kind key.now) (kind part.now)) (v.big_table (big_pairs big.now))) }
{
    for (datum, change) in big.overlay.iter() {
        if let Some(value) = change
            && !entry_fits(alloc, key, part, datum, value)?
        {
            return Ok(false);
        }
    }
    Ok(true)
}
