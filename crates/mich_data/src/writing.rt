// Nodes from values.
ghost use Rattle.std.specs.Prelude.{◌≡◌, IfOk, codes};
ghost use Rattle.rules_text.specs.nodes.Tree.{seq};
ghost use Rattle.rules_data.specs.values.Canonical.{canonical, canonicals, canonical_entries, over_two, truth_node, lambda_node};
ghost use Rattle.rules_data.specs.values.Val as values;
ghost use Rattle.mich_base.specs.TypeView.{kind};
ghost use Rattle.mich_base.specs.View.{tree, trees};
ghost use Rattle.mich_forms.specs.Spelled.{place_bytes};
ghost use Rattle.mich_term.specs.View.{datum, datums};
ghost use Rattle.mich_term.specs.ValueView.{val, vals, pairs, big_pairs};

use mich_base::{Bytes, Memory, Node, Nodes, Rows, copy_node};
use mich_term::{BigMap, Chain, Datum, Elements, Table, Ticket, Value};
use mich_types::{application, bare, over_one, over_two, type_node};
use std::alloc::Global;

/// The canonical literal of a value: pairs have two parts, there are no annotations, and a lambda keeps its node. A ticket
/// is `Ticket issuer type content amount`; an operation, which has no literal, is `{}`. A big map is the entries that lie
/// in the value itself (Michelson reference, "PACK"). Memory where there is no room for the node.
#[tactic(auto, using(mich_term::proofs::ForCallers::table_is))]
#[cycle(write)]
pub fn value_node(alloc: Global, value: &Value) -> Result<Node, Memory>
    ensures { IfOk result (λ n. tree n ≡ canonical (val value.now)) }
{
    match value {
        Value::Unit => bare(alloc, b"Unit"),
        Value::Bool(truth) => truth_node(alloc, *truth),
        Value::Number(number) => Ok(Node::Int(*number)),
        Value::Text(text) => Ok(Node::Str(text.copy(alloc)?)),
        Value::Bytes(bytes) => Ok(Node::Bytes(bytes.copy(alloc)?)),
        Value::None => bare(alloc, b"None"),
        Value::Some(part) => over_one(alloc, b"Some", value_node(alloc, part.get())?),
        Value::Left(part) => over_one(alloc, b"Left", value_node(alloc, part.get())?),
        Value::Right(part) => over_one(alloc, b"Right", value_node(alloc, part.get())?),
        Value::Pair(first, second) => {
            let first = value_node(alloc, first.get())?;
            over_two(alloc, b"Pair", first, value_node(alloc, second.get())?)
        }
        Value::List(values) => list_node(alloc, values.get()),
        Value::Set(elements) => set_node(alloc, elements.get()),
        Value::Map(table) => table_node(alloc, table.get()),
        Value::BigMap(big) => big_node(alloc, big.get()),
        Value::Lambda(body, recursive) => lambda_node(alloc, body.get().node(), *recursive),
        Value::Operation(_) => Ok(Node::Seq(Nodes::new(alloc))),
        Value::Ticket(ticket) => ticket_node(alloc, ticket.get()),
    }
}

fn sequence(nodes: Nodes) -> Node
    ensures { tree result ≡ seq (trees nodes) }
{
    Node::Seq(nodes)
}

fn truth_node(alloc: Global, truth: bool) -> Result<Node, Memory>
    ensures { IfOk result (λ n. tree n ≡ truth_node truth) }
{
    if truth {
        bare(alloc, b"True")
    } else {
        bare(alloc, b"False")
    }
}

fn lambda_node(alloc: Global, body: &Node, recursive: bool) -> Result<Node, Memory>
    ensures { IfOk result (λ n. tree n ≡ lambda_node (tree body.now) recursive) }
{
    let body = copy_node(alloc, body)?;
    if recursive {
        over_one(alloc, b"Lambda_rec", body)
    } else {
        Ok(body)
    }
}

// The literal of a comparable value.
fn datum_node(alloc: Global, value: &Datum) -> Result<Node, Memory>
    ensures { IfOk result (λ n. tree n ≡ canonical (datum value.now)) }
{
    match value {
        Datum::Unit => bare(alloc, b"Unit"),
        Datum::Bool(truth) => truth_node(alloc, *truth),
        Datum::Number(number) => Ok(Node::Int(*number)),
        Datum::Text(text) => Ok(Node::Str(text.copy(alloc)?)),
        Datum::Bytes(bytes) => Ok(Node::Bytes(bytes.copy(alloc)?)),
        Datum::None => bare(alloc, b"None"),
        Datum::Some(part) => over_one(alloc, b"Some", datum_node(alloc, part.get())?),
        Datum::Left(part) => over_one(alloc, b"Left", datum_node(alloc, part.get())?),
        Datum::Right(part) => over_one(alloc, b"Right", datum_node(alloc, part.get())?),
        Datum::Pair(first, second) => {
            let first = datum_node(alloc, first.get())?;
            over_two(alloc, b"Pair", first, datum_node(alloc, second.get())?)
        }
    }
}

fn ticket_node(alloc: Global, ticket: &Ticket) -> Result<Node, Memory>
    ensures { IfOk result (λ n. tree n ≡ canonical (values.ticket (place_bytes ticket.now.id.issuer)
        (kind ticket.now.id.ty) (datum ticket.now.id.content) ticket.now.amount)) }
{
    let issuer = ticket.id.issuer.bytes();
    let mut parts = Nodes::new(alloc);
    parts.push(Node::Bytes(Bytes::from_slice(alloc, issuer.as_slice())?))?;
    parts.push(type_node(alloc, &ticket.id.ty)?)?;
    parts.push(datum_node(alloc, &ticket.id.content)?)?;
    parts.push(Node::Int(ticket.amount))?;
    application(alloc, b"Ticket", parts)
}

#[cycle(write)]
fn list_node(alloc: Global, values: &Chain<Value>) -> Result<Node, Memory>
    ensures { IfOk result (λ n. tree n ≡ seq (canonicals (vals values.now))) }
{
    let mut nodes = Chain::new(alloc);
    for value in values.as_reversed_slice() {
        nodes.push(value_node(alloc, value)?)?;
    }
    let rows = Rows::from_vec(nodes.into_vec());
    let written = Nodes::from_rows(rows)?;
    Ok(sequence(written))
}

#[tactic(auto, using(crate::proofs::Written::elements_written))]
fn set_node(alloc: Global, elements: &Elements) -> Result<Node, Memory>
    ensures { IfOk result (λ n. tree n ≡ seq (canonicals (datums elements.now))) }
{
    let mut nodes = Nodes::new(alloc);
    for element in elements.iter() {
        nodes.push(datum_node(alloc, element)?)?;
    }
    Ok(sequence(nodes))
}

// An entry with the literal of its value.
fn entry_node(alloc: Global, key: &Datum, value: Node) -> Result<Node, Memory>
    ensures { IfOk result (λ n. tree n ≡ over_two (codes "Elt") (canonical (datum key.now)) (tree value)) }
{
    let mut args = Nodes::with_capacity(alloc, 2)?;
    args.push(datum_node(alloc, key)?)?;
    args.push(value)?;
    application(alloc, b"Elt", args)
}

#[tactic(auto, using(crate::proofs::Written::entries_written))]
#[cycle(write)]
fn table_node(alloc: Global, table: &Table<Value>) -> Result<Node, Memory>
    ensures { IfOk result (λ n. tree n ≡ seq (canonical_entries (pairs table.now))) }
{
    let mut nodes = Nodes::with_capacity(alloc, table.len())?;
    for (key, value) in table.iter() {
        let literal = value_node(alloc, value)?;
        nodes.push(entry_node(alloc, key, literal)?)?;
    }
    Ok(sequence(nodes))
}

#[tactic(auto, using(mich_term::proofs::ForCallers::big_is, crate::proofs::Written::entries_written))]
#[cycle(write)]
fn big_node(alloc: Global, big: &BigMap) -> Result<Node, Memory>
    ensures { IfOk result (λ n. tree n ≡ seq (canonical_entries (big_pairs big.now))) }
{
    let mut nodes = Nodes::with_capacity(alloc, big.overlay.len())?;
    for (key, change) in big.overlay.iter() {
        if let Some(value) = change {
            let literal = value_node(alloc, value)?;
            nodes.push(entry_node(alloc, key, literal)?)?;
        }
    }
    Ok(sequence(nodes))
}
