// Names that are no primitive's.
ghost use Rattle.std.specs.Prelude.{◌≡◌, ◌+◌, ◌<◌, ◌^◌, IfOk, Ok};
ghost use Rattle.std.specs.List.{position};
ghost use Rattle.rules_text.specs.nodes.Tree.{size, sizes, preorder, preorders};
ghost use Rattle.rules_text.specs.binary.Encoding.{lacks_code};
ghost use Rattle.mich_base.specs.View.{tree, trees};
ghost use Rattle.mich_binary.specs.Scanning.{scanned};

use mich_base::{App, Node, Nodes, prim_code};

// The first location of a name that is no primitive's, from this node's location on; or else the location
// behind this node.
#[cycle(scan)]
fn scan(node: &Node, at: u32) -> Result<u32, u32>
    requires { at + size (tree node.now) < 2 ^ 32 }
    ensures found { result ≡ scanned at (preorder (tree node.now)) }
    ensures next { IfOk result (λ n. n ≡ at + size (tree node.now)) }
{
    match node {
        Node::Int(_) | Node::Str(_) | Node::Bytes(_) => Ok(at + 1),
        Node::Prim(app) => match prim_code(&app.name) {
            None => Err(at),
            Some(_) => scan_all(&app.args, at + 1),
        },
        Node::Seq(nodes) => scan_all(nodes, at + 1),
    }
}

#[cycle(scan)]
fn scan_all(nodes: &Nodes, at: u32) -> Result<u32, u32>
    requires { at + sizes (trees nodes.now) < 2 ^ 32 }
    ensures found { result ≡ scanned at (preorders (trees nodes.now)) }
    ensures next { IfOk result (λ n. n ≡ at + sizes (trees nodes.now)) }
{
    let mut next = at;
    for node in nodes.as_slice() {
        next = scan(node, next)?;
    }
    Ok(next)
}

// The location of the first name that is no primitive's.
#[tactic(auto, using(crate::proofs::Scans::none_found, crate::proofs::Scans::first_found))]
pub fn uncoded(node: &Node) -> Option<u32>
    requires { size (tree node.now) < 2 ^ 32 }
    ensures { result ≡ position lacks_code (preorder (tree node.now)) }
{
    match scan(node, 0) {
        Ok(_) => None,
        Err(location) => Some(location),
    }
}
