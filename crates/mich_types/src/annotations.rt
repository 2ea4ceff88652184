// Field annotations and the places of nodes.
ghost use Rattle.std.specs.Prelude.{◌≡◌, ℕ, ◌+◌, ◌<◌, ◌^◌, [], ◌∷◌, MatchOption, option_map};
ghost use Rattle.rules_text.specs.nodes.Tree.{size, sizes};
ghost use Rattle.rules_data.specs.types.Entrypoints.{annotations, behind_sign, field_name, nonempty};
ghost use Rattle.mich_base.specs.View.{tree, trees};

use mich_base::{Node, Nodes, Texts};

// The first byte and those behind it.
fn split_first(bytes: &[u8]) -> Option<(u8, &[u8])>
    ensures { MatchOption result (bytes.now ≡ []) (λ p. bytes.now ≡ p.0 ∷ p.1.now) }
{
    match bytes {
        [first, rest @ ..] => Some((*first, rest)),
        [] => None,
    }
}

// What stands behind the sign of a field annotation. None of another annotation.
fn behind_sign(annot: &[u8]) -> Option<&[u8]>
    ensures { option_map (λ s. s.now) result ≡ behind_sign annot.now }
{
    let (sign, name) = split_first(annot)?;
    if sign == b'%' { Some(name) } else { None }
}

fn nonempty(name: &[u8]) -> Option<&[u8]>
    ensures { option_map (λ s. s.now) result ≡ nonempty name.now }
{
    if name.is_empty() { None } else { Some(name) }
}

/// The name that the first field annotation gives. None where there is none, or an empty one. Takes no memory.
pub fn field_name(annots: &Texts) -> Option<&[u8]>
    ensures { option_map (λ s. s.now) result ≡ field_name annots.now }
{
    for annot in annots.as_slice() {
        if let Some(name) = behind_sign(annot.as_slice()) {
            return nonempty(name);
        }
    }
    None
}

// The name that a node's first field annotation gives.
pub(crate) fn node_name(node: &Node) -> Option<&[u8]>
    ensures { option_map (λ s. s.now) result ≡ field_name (annotations (tree node.now)) }
{
    match node {
        Node::Prim(app) => field_name(&app.annots),
        _ => None,
    }
}

/// The location behind the node at a location: the first, in pre-order, that is at no part of it. Takes no memory.
#[cycle(behind)]
pub fn behind(node: &Node, at: u32) -> u32
    requires { at + size (tree node.now) < 2 ^ 32 }
    ensures { result ≡ at + size (tree node.now) }
{
    match node {
        Node::Int(_) | Node::Str(_) | Node::Bytes(_) => at + 1,
        Node::Prim(app) => behind_all(&app.args, at + 1),
        Node::Seq(nodes) => behind_all(nodes, at + 1),
    }
}

/// The location behind nodes that stand one behind another, the first at a location. Takes no memory.
#[cycle(behind)]
pub fn behind_all(nodes: &Nodes, at: u32) -> u32
    requires { at + sizes (trees nodes.now) < 2 ^ 32 }
    ensures { result ≡ at + sizes (trees nodes.now) }
{
    let mut next = at;
    for node in nodes.as_slice() {
        next = behind(node, next);
    }
    next
}
