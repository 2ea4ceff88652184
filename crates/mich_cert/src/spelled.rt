// Nodes that spell types.
ghost use Rattle.std.specs.Prelude.{◌≡◌, ◌↔◌, IsTrue, IfSome, MatchOption};
ghost use Rattle.rules_text.specs.nodes.Tree.{more, none};
ghost use Rattle.rules_data.specs.types.Printing.{named, node_of};
ghost use Rattle.mich_base.specs.TypeView.{kind};
ghost use Rattle.mich_base.specs.View.{tree, trees};
ghost use Rattle.mich_cert.specs.Listed.{IsNotNamed};

use mich_base::{Node, Nodes, Ty};

// The arguments of a node of this name without annotations.
pub(crate) fn arguments<'a>(node: &'a Node, name: &[u8]) -> Option<&'a Nodes>
    ensures { MatchOption result (IsNotNamed name.now (tree node.now)) (λ args. tree node.now ≡ named name.now (trees args.now)) }
{
    match node {
        Node::Prim(app) if app.annots.is_empty() && app.name.as_slice() == name => Some(&app.args),
        _ => None,
    }
}

// Whether a node is the one that a type is written as.
#[cycle(spells)]
pub(crate) fn spells(node: &Node, ty: &Ty) -> bool
    ensures { IsTrue result ↔ tree node.now ≡ node_of (kind ty.now) }
{
    match ty {
        Ty::Unit => is_bare(node, b"unit"),
        Ty::Never => is_bare(node, b"never"),
        Ty::Bool => is_bare(node, b"bool"),
        Ty::Int => is_bare(node, b"int"),
        Ty::Nat => is_bare(node, b"nat"),
        Ty::String => is_bare(node, b"string"),
        Ty::Bytes => is_bare(node, b"bytes"),
        Ty::Mutez => is_bare(node, b"mutez"),
        Ty::Timestamp => is_bare(node, b"timestamp"),
        Ty::Key => is_bare(node, b"key"),
        Ty::KeyHash => is_bare(node, b"key_hash"),
        Ty::Signature => is_bare(node, b"signature"),
        Ty::ChainId => is_bare(node, b"chain_id"),
        Ty::Address => is_bare(node, b"address"),
        Ty::Operation => is_bare(node, b"operation"),
        Ty::Option(part) => is_over_one(node, b"option", part.get()),
        Ty::List(part) => is_over_one(node, b"list", part.get()),
        Ty::Set(part) => is_over_one(node, b"set", part.get()),
        Ty::Contract(part) => is_over_one(node, b"contract", part.get()),
        Ty::Ticket(part) => is_over_one(node, b"ticket", part.get()),
        Ty::Or(first, second) => is_over_two(node, b"or", first.get(), second.get()),
        Ty::Pair(first, second) => is_over_two(node, b"pair", first.get(), second.get()),
        Ty::Map(first, second) => is_over_two(node, b"map", first.get(), second.get()),
        Ty::BigMap(first, second) => is_over_two(node, b"big_map", first.get(), second.get()),
        Ty::Lambda(first, second) => is_over_two(node, b"lambda", first.get(), second.get()),
    }
}

// Whether a node is a name alone.
fn is_bare(node: &Node, name: &[u8]) -> bool
    ensures { IsTrue result ↔ tree node.now ≡ named name.now none }
{
    match arguments(node, name) {
        Some(args) => args.is_empty(),
        None => false,
    }
}

// Whether a node is a name over one type.
#[cycle(spells)]
fn is_over_one(node: &Node, name: &[u8], part: &Ty) -> bool
    ensures { IsTrue result ↔ tree node.now ≡ named name.now (more (node_of (kind part.now)) none) }
{
    let Some(args) = arguments(node, name) else {
        return false;
    };
    match args.only() {
        Some(arg) => spells(arg, part),
        None => false,
    }
}

// Whether a node is a name over two types.
#[cycle(spells)]
fn is_over_two(node: &Node, name: &[u8], first: &Ty, second: &Ty) -> bool
    ensures { IsTrue result ↔ tree node.now ≡ named name.now (more (node_of (kind first.now)) (more (node_of (kind second.now)) none)) }
{
    let Some(args) = arguments(node, name) else {
        return false;
    };
    match args.both() {
        Some((one, other)) => spells(one, first) && spells(other, second),
        None => false,
    }
}
