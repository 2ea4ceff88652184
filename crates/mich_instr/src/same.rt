// Whether nodes are equal.
ghost use Rattle.std.specs.Prelude.{◌≡◌, IsTrue};

use mich_base::{App, Node, Nodes, Text, Texts};

// Whether two texts are equal.
fn same_text(a: &Text, b: &Text) -> bool
    ensures { IsTrue result → a.now ≡ b.now }
{
    a.as_slice() == b.as_slice()
}

// Whether two lists of texts are equal.
fn same_texts(a: &Texts, b: &Texts) -> bool
    ensures { IsTrue result → a.now ≡ b.now }
{
    if a.len() != b.len() {
        return false;
    }
    for (i, text) in a.as_slice().iter().enumerate() {
        if !same_text(text, b.at(i)) {
            return false;
        }
    }
    true
}

/// Whether two nodes are equal, with their annotations; takes no memory. Equal ones may be taken for different.
#[cycle(same)]
pub fn same_node(a: &Node, b: &Node) -> bool
    ensures { IsTrue result → a.now ≡ b.now }
{
    match a {
        Node::Int(x) => match b {
            Node::Int(y) => *x == *y,
            _ => false,
        },
        Node::Str(x) => match b {
            Node::Str(y) => same_text(x, y),
            _ => false,
        },
        Node::Bytes(x) => match b {
            Node::Bytes(y) => x.as_slice() == y.as_slice(),
            _ => false,
        },
        Node::Prim(x) => match b {
            Node::Prim(y) => same_app(x, y),
            _ => false,
        },
        Node::Seq(x) => match b {
            Node::Seq(y) => same_nodes(x, y),
            _ => false,
        },
    }
}

#[cycle(same)]
fn same_app(a: &App, b: &App) -> bool
    ensures { IsTrue result → a.now ≡ b.now }
{
    if !same_text(&a.name, &b.name) {
        return false;
    }
    if !same_texts(&a.annots, &b.annots) {
        return false;
    }
    same_nodes(&a.args, &b.args)
}

#[cycle(same)]
fn same_nodes(a: &Nodes, b: &Nodes) -> bool
    ensures { IsTrue result → a.now ≡ b.now }
{
    if a.len() != b.len() {
        return false;
    }
    for (i, node) in a.as_slice().iter().enumerate() {
        if !same_node(node, b.at(i)) {
            return false;
        }
    }
    true
}
