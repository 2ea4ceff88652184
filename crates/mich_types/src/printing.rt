// Nodes from types.
ghost use Rattle.std.specs.Prelude.{◌≡◌, IfOk, [], ◌∷◌};
ghost use Rattle.rules_text.specs.nodes.Tree.{none, more, prim};
ghost use Rattle.rules_data.specs.types.Printing.{node_of, named};
ghost use Rattle.mich_base.specs.View.{tree, trees};
ghost use Rattle.mich_base.specs.TypeView.{kind};

use mich_base::{App, Link, Memory, Node, Nodes, Text, Texts, Ty};
use std::alloc::Global;

/// The node that spells a type: pairs have two parts, and there are no annotations (Michelson reference, "Types").
/// Memory where there is no room for it.
#[cycle(type_node)]
pub fn type_node(alloc: Global, ty: &Ty) -> Result<Node, Memory>
    ensures { IfOk result (λ n. tree n ≡ node_of (kind ty.now)) }
{
    match ty {
        Ty::Unit => bare(alloc, b"unit"),
        Ty::Never => bare(alloc, b"never"),
        Ty::Bool => bare(alloc, b"bool"),
        Ty::Int => bare(alloc, b"int"),
        Ty::Nat => bare(alloc, b"nat"),
        Ty::String => bare(alloc, b"string"),
        Ty::Bytes => bare(alloc, b"bytes"),
        Ty::Mutez => bare(alloc, b"mutez"),
        Ty::Timestamp => bare(alloc, b"timestamp"),
        Ty::Key => bare(alloc, b"key"),
        Ty::KeyHash => bare(alloc, b"key_hash"),
        Ty::Signature => bare(alloc, b"signature"),
        Ty::ChainId => bare(alloc, b"chain_id"),
        Ty::Address => bare(alloc, b"address"),
        Ty::Operation => bare(alloc, b"operation"),
        Ty::Option(part) => over_type(alloc, b"option", part),
        Ty::List(part) => over_type(alloc, b"list", part),
        Ty::Set(part) => over_type(alloc, b"set", part),
        Ty::Contract(part) => over_type(alloc, b"contract", part),
        Ty::Ticket(part) => over_type(alloc, b"ticket", part),
        Ty::Or(first, second) => over_types(alloc, b"or", first, second),
        Ty::Pair(first, second) => over_types(alloc, b"pair", first, second),
        Ty::Map(first, second) => over_types(alloc, b"map", first, second),
        Ty::BigMap(first, second) => over_types(alloc, b"big_map", first, second),
        Ty::Lambda(first, second) => over_types(alloc, b"lambda", first, second),
    }
}

// The application of a name to the node of a type.
#[cycle(type_node)]
fn over_type(alloc: Global, name: &[u8], part: &Link<Ty>) -> Result<Node, Memory>
    ensures { IfOk result (λ n. tree n ≡ named name.now (more (node_of (kind part.now)) none)) }
{
    over_one(alloc, name, type_node(alloc, part.get())?)
}

// The application of a name to the nodes of two types.
#[cycle(type_node)]
fn over_types(
    alloc: Global,
    name: &[u8],
    first: &Link<Ty>,
    second: &Link<Ty>,
) -> Result<Node, Memory>
    ensures { IfOk result (λ n. tree n ≡ named name.now (more (node_of (kind first.now)) (more (node_of (kind second.now)) none))) }
{
    let first = type_node(alloc, first.get())?;
    over_two(alloc, name, first, type_node(alloc, second.get())?)
}

/// The application of a name without annotations. Memory where there is no room for it.
pub fn application(alloc: Global, name: &[u8], args: Nodes) -> Result<Node, Memory>
    ensures { IfOk result (λ n. tree n ≡ prim name.now [] (trees args)) }
{
    let name = Text::from_slice(alloc, name)?;
    let annots = Texts::new(alloc);
    Ok(Node::Prim(App { name, annots, args }))
}

/// The application of a name without annotations and arguments. Memory where there is no room for it.
pub fn bare(alloc: Global, name: &[u8]) -> Result<Node, Memory>
    ensures { IfOk result (λ n. tree n ≡ named name.now none) }
{
    application(alloc, name, Nodes::new(alloc))
}

/// The application of a name without annotations to one argument. Memory where there is no room for it.
pub fn over_one(alloc: Global, name: &[u8], part: Node) -> Result<Node, Memory>
    ensures { IfOk result (λ n. tree n ≡ named name.now (more (tree part) none)) }
{
    let mut args = Nodes::with_capacity(alloc, 1)?;
    args.push(part)?;
    application(alloc, name, args)
}

/// The application of a name without annotations to two arguments. Memory where there is no room for it.
pub fn over_two(alloc: Global, name: &[u8], first: Node, second: Node) -> Result<Node, Memory>
    ensures { IfOk result (λ n. tree n ≡ named name.now (more (tree first) (more (tree second) none))) }
{
    let mut args = Nodes::with_capacity(alloc, 2)?;
    args.push(first)?;
    args.push(second)?;
    application(alloc, name, args)
}
