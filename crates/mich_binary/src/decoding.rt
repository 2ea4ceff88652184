// Decoding.
ghost use Rattle.std.specs.Prelude.{◌≤◌, ◌*◌, length, IfOk};
ghost use Rattle.rules_text.specs.nodes.Tree.{size};
ghost use Rattle.rules_text.specs.binary.Reading.{decoded};
ghost use Rattle.mich_base.specs.View.{tree};
ghost use Rattle.mich_binary.specs.Results.{Gives};

use crate::cursor::Cursor;
use crate::errors::DecodeError;
use crate::nodes::node_at;
use mich_base::{DEPTH_LIMIT, Node};
use rules_text::binary::DecodeKind;
use std::alloc::Global;

// The node that these bytes spell from their first to their last.
#[tactic(auto, unfolding(rules_text::specs::binary::Reading::decoded))]
fn whole_node(alloc: Global, bytes: &[u8]) -> Result<Node, DecodeError>
    ensures { Gives tree result (decoded bytes.now) }
{
    let start = Cursor {
        place: 0,
        left: bytes,
    };
    let (node, after) = node_at(alloc, DEPTH_LIMIT, start)?;
    if !after.left.is_empty() {
        return Err(DecodeError::Fault(DecodeKind::Trailing, after.place));
    }
    Ok(node)
}

/// The one node that these bytes spell, or the first fault from the left and its place; it has at most half as many nodes as there
/// are bytes (Octez "data encoding", Micheline expressions). Memory where there is no room for the node.
#[tactic(auto, using(laws_data::proofs::binary_lemmas::ForCallers::decoded_half))]
pub fn decode(alloc: Global, bytes: &[u8]) -> Result<Node, DecodeError>
    ensures decoded { Gives tree result (decoded bytes.now) }
    ensures nodes { IfOk result (λ n. 2 * size (tree n) ≤ length bytes.now) }
{
    let node = whole_node(alloc, bytes)?;
    Ok(node)
}
