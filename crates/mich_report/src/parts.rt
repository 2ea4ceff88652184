// Parts of lines.
ghost use Rattle.std.specs.Prelude.{◌≡◌, ◌++◌, ◌∷◌, [], IfOk, map};
ghost use Rattle.rules_text.specs.nodes.Tree.{bytes, int, seq};
ghost use Rattle.rules_world.specs.lines.Nodes.{number, ticket_fields};
ghost use Rattle.mich_base.specs.TypeView.{kind};
ghost use Rattle.mich_base.specs.View.{tree, trees};
ghost use Rattle.mich_forms.specs.Spelled.{address_bytes, place_bytes};
ghost use Rattle.mich_term.specs.View.{datum};

use mich_base::{Bytes, Memory, Node, Nodes};
use mich_data::value_node;
use mich_forms::{Address, Place};
use mich_term::TicketId;
use mich_types::type_node;
use std::alloc::Global;

/// A sequence of nodes.
pub(crate) fn sequence_node(nodes: Nodes) -> Node
    ensures { tree result ≡ seq (trees nodes) }
{
    Node::Seq(nodes)
}

/// A number that isn't negative.
pub(crate) fn number_node(n: u64) -> Node
    ensures { tree result ≡ number n }
{
    Node::Int(i128::from(n))
}

/// Bytes, in hexadecimal digits.
pub(crate) fn bytes_node(alloc: Global, digits: &[u8]) -> Result<Node, Memory>
    ensures { IfOk result (λ n. tree n ≡ bytes digits.now) }
{
    Ok(Node::Bytes(Bytes::from_slice(alloc, digits)?))
}

/// A place by its bytes.
pub(crate) fn place_node(alloc: Global, place: &Place) -> Result<Node, Memory>
    ensures { IfOk result (λ n. tree n ≡ bytes (place_bytes place.now)) }
{
    let spelling = place.bytes();
    bytes_node(alloc, spelling.as_slice())
}

/// An address by its bytes.
pub(crate) fn address_node(alloc: Global, address: &Address) -> Result<Node, Memory>
    ensures { IfOk result (λ n. tree n ≡ bytes (address_bytes address.now)) }
{
    let spelling = address.bytes();
    bytes_node(alloc, spelling.as_slice())
}

/// The issuer, the type, the content and an amount of tickets.
pub(crate) fn ticket_nodes(alloc: Global, id: &TicketId, amount: i128) -> Result<Nodes, Memory>
    ensures { IfOk result (λ ns. map tree ns ≡ ticket_fields (place_bytes id.now.issuer) (kind id.now.ty) (datum id.now.content) ++ int amount ∷ []) }
{
    let mut fields = Nodes::new(alloc);
    fields.push(place_node(alloc, &id.issuer)?)?;
    fields.push(type_node(alloc, &id.ty)?)?;
    let content = id.content.value(alloc)?;
    fields.push(value_node(alloc, &content)?)?;
    fields.push(Node::Int(amount))?;
    Ok(fields)
}
