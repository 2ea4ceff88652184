// Fields of what is written, each behind a line as an argument.
ghost use Rattle.std.specs.Prelude.{◌≡◌, ◌++◌, IfOk, OnOk};
ghost use Rattle.rules_text.specs.nodes.Tree.{bytes, int, str};
ghost use Rattle.rules_text.specs.text.Printed.{is_wrapped};
ghost use Rattle.rules_world.specs.lines.Nodes.{number};
ghost use Rattle.mich_base.specs.View.{tree};
ghost use Rattle.mich_forms.specs.Spelled.{address_bytes, place_bytes};
ghost use Rattle.mich_report.specs.Pieces.{field};

use crate::line::put;
use crate::parts::{address_node, number_node, place_node};
use mich_base::{Memory, Node, Text};
use mich_forms::{Address, Place};
use mich_text::put_node;
use std::alloc::Global;

// Whether a node stands in parentheses as an argument: an application with arguments or annotations.
fn is_wrapped(node: &Node) -> bool
    ensures { result ≡ is_wrapped (tree node.now) }
{
    match node {
        Node::Prim(app) => !app.annots.is_empty() || !app.args.is_empty(),
        _ => false,
    }
}

/// Puts a node behind a line.
pub(crate) fn put_argument(alloc: Global, line: &mut Vec<u8>, node: &Node) -> Result<(), Memory>
    ensures { OnOk result (line.new.items ≡ line.old.items ++ field (tree node.now)) }
{
    if is_wrapped(node) {
        put(line, b" (")?;
        put_node(alloc, line, node)?;
        return put(line, b")");
    }
    put(line, b" ")?;
    put_node(alloc, line, node)
}

/// Puts a number behind a line.
pub(crate) fn put_number(alloc: Global, line: &mut Vec<u8>, n: u64) -> Result<(), Memory>
    ensures { OnOk result (line.new.items ≡ line.old.items ++ field (number n)) }
{
    put(line, b" ")?;
    put_node(alloc, line, &number_node(n))
}

/// Puts the bytes of a place behind a line.
pub(crate) fn put_place(alloc: Global, line: &mut Vec<u8>, place: &Place) -> Result<(), Memory>
    ensures { OnOk result (line.new.items ≡ line.old.items ++ field (bytes (place_bytes place.now))) }
{
    let node = place_node(alloc, place)?;
    put(line, b" ")?;
    put_node(alloc, line, &node)
}

/// Puts the bytes of an address behind a line.
pub(crate) fn put_address(
    alloc: Global,
    line: &mut Vec<u8>,
    address: &Address,
) -> Result<(), Memory>
    ensures { OnOk result (line.new.items ≡ line.old.items ++ field (bytes (address_bytes address.now))) }
{
    let node = address_node(alloc, address)?;
    put(line, b" ")?;
    put_node(alloc, line, &node)
}

fn int_node(n: &i128) -> Node
    ensures { tree result ≡ int n.now }
{
    Node::Int(*n)
}

/// Puts an integer behind a line.
pub(crate) fn put_int(alloc: Global, line: &mut Vec<u8>, n: &i128) -> Result<(), Memory>
    ensures { OnOk result (line.new.items ≡ line.old.items ++ field (int n.now)) }
{
    let node = int_node(n);
    put(line, b" ")?;
    put_node(alloc, line, &node)
}

fn text_node(alloc: Global, text: &Text) -> Result<Node, Memory>
    ensures { IfOk result (λ n. tree n ≡ str text.now) }
{
    Ok(Node::Str(text.copy(alloc)?))
}

/// Puts a string behind a line.
pub(crate) fn put_text(alloc: Global, line: &mut Vec<u8>, text: &Text) -> Result<(), Memory>
    ensures { OnOk result (line.new.items ≡ line.old.items ++ field (str text.now)) }
{
    let node = text_node(alloc, text)?;
    put(line, b" ")?;
    put_node(alloc, line, &node)
}
