// Scripts and values of all types behind what was written.
ghost use Rattle.std.specs.Prelude.{◌≡◌, ◌++◌, OnOk};
ghost use Rattle.std.specs.List.{list_any};
ghost use Rattle.rules_files.specs.snapshots.Loading.{bodies, is_long};
ghost use Rattle.rules_files.specs.snapshots.Spelling.{count_pairs, count_vals, eight, mark, node_spelling, value_spelling, value_spellings};
ghost use Rattle.mich_base.specs.View.{tree};
ghost use Rattle.mich_term.specs.ValueView.{big_pairs, pairs, val, vals};
ghost use Rattle.mich_term.specs.View.{datum, datums};
ghost use Rattle.mich_snapshot.specs.Leaves.{ticket_val};
ghost use Rattle.mich_snapshot.specs.Puts.{IsPut, PutsEntries, PutsValue, PutsValues};

use crate::errors::SaveError;
use mich_base::{Memory, Node};
use mich_binary::{EncodeError, spelt};
use mich_saved::{put_datum, put_eight, put_field, put_issuer, put_mark, put_signed_sixteen};
use mich_term::{BigMap, Chain, Datum, Elements, Table, Ticket, Value};
use std::alloc::Global;

#[tactic(auto, using(crate::proofs::Putting::node_put, crate::proofs::Putting::node_long, crate::proofs::Putting::node_coded))]
/// Four bytes of length and the binary form of a node. TooLong where that has more than 268,435,456 bytes.
pub fn put_node(alloc: Global, out: &mut Vec<u8>, node: &Node) -> Result<(), SaveError>
    ensures { IsPut out.old.items out.new.items (node_spelling (tree node.now)) (is_long (tree node.now)) result }
{
    match spelt(alloc, node) {
        Ok(bytes) => Ok(put_field(out, bytes.as_slice())?),
        Err(EncodeError::TooLong) => Err(SaveError::TooLong),
        Err(EncodeError::NoCode(_)) => unreachable!(),
        Err(EncodeError::Memory) => Err(SaveError::Memory),
    }
}

fn put_lambda(
    alloc: Global,
    out: &mut Vec<u8>,
    body: &Node,
    recursive: bool,
) -> Result<(), SaveError>
    ensures { IsPut out.old.items out.new.items (mark recursive ++ node_spelling (tree body.now)) (is_long (tree body.now)) result }
{
    put_mark(out, recursive)?;
    put_node(alloc, out, body)
}

#[tactic(auto, using(crate::proofs::Putting::put_three))]
fn put_ticket(out: &mut Vec<u8>, ticket: &Ticket) -> Result<(), Memory>
    ensures { OnOk result (out.new.items ≡ out.old.items ++ value_spelling (ticket_val ticket.now)) }
{
    put_issuer(out, &ticket.id.issuer)?;
    put_datum(out, &ticket.id.content)?;
    put_signed_sixteen(out, ticket.amount)
}

#[tactic(auto, using(crate::proofs::Putting::set_counted, crate::proofs::Putting::counted_first, crate::proofs::Putting::put_next, crate::proofs::Putting::put_all))]
fn put_set(out: &mut Vec<u8>, elements: &Elements) -> Result<(), Memory>
    ensures { OnOk result (out.new.items ≡ out.old.items ++ (eight (count_vals (datums elements.now)) ++ value_spellings (datums elements.now))) }
{
    put_eight(out, elements.len() as u64)?;
    for element in elements.iter() {
        put_datum(out, element)?;
    }
    Ok(())
}

/// A value, where a big map is the entries that lie in it; it recurses no deeper than the value. TooLong where a lambda's binary form has
/// more than 268,435,456 bytes.
#[cycle(put)]
pub fn put_value(alloc: Global, out: &mut Vec<u8>, value: &Value) -> Result<(), SaveError>
    ensures { PutsValue out.old.items out.new.items (val value.now) result }
{
    match value {
        Value::Unit | Value::Operation(_) => Ok(()),
        Value::Bool(truth) => Ok(put_mark(out, *truth)?),
        Value::Number(number) => Ok(put_signed_sixteen(out, *number)?),
        Value::Text(text) => Ok(put_field(out, text.as_slice())?),
        Value::Bytes(bytes) => Ok(put_field(out, bytes.as_slice())?),
        Value::None => Ok(put_mark(out, false)?),
        Value::Some(part) | Value::Right(part) => put_marked(alloc, out, true, part.get()),
        Value::Left(part) => put_marked(alloc, out, false, part.get()),
        Value::Pair(first, second) => {
            put_value(alloc, out, first.get())?;
            put_value(alloc, out, second.get())
        }
        Value::List(values) => put_list(alloc, out, values.get()),
        Value::Set(elements) => Ok(put_set(out, elements.get())?),
        Value::Map(entries) => put_table(alloc, out, entries.get()),
        Value::BigMap(big) => put_big(alloc, out, big.get()),
        Value::Lambda(body, recursive) => put_lambda(alloc, out, body.get().node(), *recursive),
        Value::Ticket(ticket) => Ok(put_ticket(out, ticket.get())?),
    }
}

#[cycle(put)]
fn put_marked(alloc: Global, out: &mut Vec<u8>, marked: bool, part: &Value) -> Result<(), SaveError>
    ensures { IsPut out.old.items out.new.items (mark marked ++ value_spelling (val part.now)) (list_any is_long (bodies (val part.now))) result }
{
    put_mark(out, marked)?;
    put_value(alloc, out, part)
}

#[cycle(put)]
fn put_list(alloc: Global, out: &mut Vec<u8>, values: &Chain<Value>) -> Result<(), SaveError>
    ensures { PutsValues out.old.items out.new.items (vals values.now) result }
{
    put_eight(out, values.len() as u64)?;
    let reversed = values.as_reversed_slice();
    let mut left = reversed.len();
    while left > 0 {
        left -= 1;
        put_value(alloc, out, &reversed[left])?;
    }
    Ok(())
}

// A value behind its key.
#[cycle(put)]
fn put_entry(alloc: Global, out: &mut Vec<u8>, value: &Value, key: &Datum) -> Result<(), SaveError>
    ensures { IsPut out.old.items out.new.items (value_spelling (datum key.now) ++ value_spelling (val value.now))
        (list_any is_long (bodies (val value.now))) result }
{
    put_datum(out, key)?;
    put_value(alloc, out, value)
}

#[cycle(put)]
fn put_table(alloc: Global, out: &mut Vec<u8>, entries: &Table<Value>) -> Result<(), SaveError>
    ensures { PutsEntries out.old.items out.new.items (pairs entries.now) result }
{
    put_eight(out, entries.len() as u64)?;
    for (key, value) in entries.iter() {
        put_entry(alloc, out, value, key)?;
    }
    Ok(())
}

// How many entries lie in a big map.
#[tactic(auto, using(crate::proofs::Putting::big_counted, mich_term::proofs::ForCallers::big_is))]
fn count_of(big: &BigMap) -> u64
    ensures { result ≡ count_pairs (big_pairs big.now) }
{
    let _most = big.overlay.len();
    let mut count: u64 = 0;
    for (_, change) in big.overlay.iter() {
        if change.is_some() {
            count += 1;
        }
    }
    count
}

// The entries that lie in a big map.
#[cycle(put)]
fn put_big(alloc: Global, out: &mut Vec<u8>, big: &BigMap) -> Result<(), SaveError>
    ensures { PutsEntries out.old.items out.new.items (big_pairs big.now) result }
{
    put_eight(out, count_of(big))?;
    for (key, change) in big.overlay.iter() {
        if let Some(value) = change {
            put_entry(alloc, out, value, key)?;
        }
    }
    Ok(())
}
