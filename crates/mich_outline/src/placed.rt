// Nodes where they stand.
ghost use Rattle.std.specs.Prelude.{◌+◌, ◌<◌, ◌^◌};
ghost use Rattle.rules_text.specs.nodes.Tree.{size};
ghost use Rattle.mich_base.specs.View.{tree};

use mich_base::Node;

/// A node with its location, a pre-order place.
#[derive(Clone, Copy, Debug)]
pub struct Placed<'a> {
    pub at: u32,
    pub node: &'a Node,
    ghost fits: { at + size (tree node.now) < 2 ^ 32 },
}
