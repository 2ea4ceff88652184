//! Nodes from their parts.
ghost use Rattle.std.specs.Prelude.{◌≡◌, map};
ghost use Rattle.rules_text.specs.nodes.Tree.{prim, seq, trees_of};
ghost use Rattle.mich_base.specs.View.{tree};

use mich_base::{App, Node, Nodes, Text, Texts};

pub(crate) fn sequence(nodes: Nodes) -> Node
    ensures { tree result ≡ seq (trees_of (map tree nodes)) }
{
    Node::Seq(nodes)
}

pub(crate) fn application(name: Text, annots: Texts, args: Nodes) -> Node
    ensures { tree result ≡ prim name annots (trees_of (map tree args)) }
{
    Node::Prim(App { name, annots, args })
}
