// How many bytes nodes, and what contracts keep, have in binary form, each counted up to 2^64-1. Nothing here takes memory.
ghost use Rattle.std.specs.Prelude.{◌≡◌, length};
ghost use Rattle.rules_text.specs.binary.Spelling.{spelling};
ghost use Rattle.rules_data.specs.values.Canonical.{canonical};
ghost use Rattle.rules_world.specs.world.Growth.{as_pairs, all_as_pairs, entries_as_pairs};
ghost use Rattle.mich_base.specs.View.{tree};
ghost use Rattle.mich_term.specs.ValueView.{val, vals, pairs, big_pairs};
ghost use Rattle.mich_term.specs.Weights.{capped};
ghost use Rattle.mich_pack.specs.Lengths.{value_length, values_length, entries_length};
ghost use Rattle.mich_term.specs.TicketView.{held};
ghost use Rattle.rules_code.specs.steps.TicketSteps.{as_value};

use crate::node_length;
use crate::value_length::{datum_len, value_len, with_entry};
use mich_base::Node;
use mich_term::{BigMap, Chain, Table, Ticket, Value};

/// How many bytes the binary form of a node has, counted up to 2^64-1; takes no memory (Octez "data encoding").
#[tactic(auto, using(crate::proofs::Lengths::node_length_is))]
pub fn node_len(node: &Node) -> u64
    ensures { result ≡ capped (length (spelling (tree node.now))) }
{
    node_length::node_len(node)
}

/// How many bytes the binary form of the canonical literal of a value has in which each ticket is the pair of its issuer and the pair of
/// its content and amount, counted up to 2^64-1; takes no memory (Octez "Operations", storage fees and burn).
#[tactic(auto, using(crate::proofs::Lengths::literal_length))]
pub fn stored_len(value: &Value) -> u64
    ensures { result ≡ capped (length (spelling (canonical (as_pairs (val value.now))))) }
{
    kept_len(value)
}

// A ticket as a pair of its issuer and a pair.
fn pair_len(ticket: &Ticket) -> u64
    ensures { result ≡ capped (value_length (as_pairs (as_value (held ticket.now)))) }
{
    let issuer = ticket.id.issuer.bytes();
    (issuer.len() as u64)
        .saturating_add(datum_len(&ticket.id.content))
        .saturating_add(node_length::integer_len(ticket.amount))
        .saturating_add(10)
}

#[tactic(auto, using(mich_term::proofs::ForCallers::table_is))]
#[cycle(kept)]
fn kept_len(value: &Value) -> u64
    ensures { result ≡ capped (value_length (as_pairs (val value.now))) }
{
    match value {
        Value::Some(x) | Value::Left(x) | Value::Right(x) => kept_len(x.get()).saturating_add(2),
        Value::Pair(x, y) => kept_len(x.get())
            .saturating_add(kept_len(y.get()))
            .saturating_add(2),
        Value::List(xs) => kept_list_len(xs.get()).saturating_add(5),
        Value::Map(entries) => kept_table_len(entries.get()).saturating_add(5),
        Value::BigMap(big) => kept_big_len(big.get()).saturating_add(5),
        Value::Ticket(ticket) => pair_len(ticket.get()),
        Value::Number(_)
        | Value::Text(_)
        | Value::Bytes(_)
        | Value::Set(_)
        | Value::Lambda(_, _)
        | Value::Operation(_)
        | Value::Unit
        | Value::Bool(_)
        | Value::None => value_len(value),
    }
}

// The elements of a list.
#[cycle(kept)]
fn kept_list_len(values: &Chain<Value>) -> u64
    ensures { result ≡ capped (values_length (all_as_pairs (vals values.now))) }
{
    let mut total: u64 = 0;
    for value in values.as_reversed_slice() {
        total = total.saturating_add(kept_len(value));
    }
    total
}

// The entries of a map.
#[cycle(kept)]
fn kept_table_len(table: &Table<Value>) -> u64
    ensures { result ≡ capped (entries_length (entries_as_pairs (pairs table.now))) }
{
    let mut total: u64 = 0;
    for (key, value) in table.iter() {
        total = with_entry(total, key, kept_len(value));
    }
    total
}

// The entries that lie in a big map.
#[tactic(auto, using(mich_term::proofs::ForCallers::big_is))]
#[cycle(kept)]
fn kept_big_len(big: &BigMap) -> u64
    ensures { result ≡ capped (entries_length (entries_as_pairs (big_pairs big.now))) }
{
    let mut total: u64 = 0;
    for (key, change) in big.overlay.iter() {
        if let Some(value) = change {
            total = with_entry(total, key, kept_len(value));
        }
    }
    total
}
