// Encoding.
ghost use Rattle.std.specs.Prelude.{◌<◌, ◌^◌};
ghost use Rattle.rules_text.specs.nodes.Tree.{size};
ghost use Rattle.rules_text.specs.binary.Encoding.{encoded, spelt};
ghost use Rattle.mich_base.specs.View.{tree};
ghost use Rattle.mich_binary.specs.Results.{IsEncoded};

use crate::codes::uncoded;
use crate::errors::EncodeError;
use crate::writing::put_node;
use mich_base::{Bytes, Node};
use std::alloc::Global;

/// The binary form of a node, in which a name that is no primitive's has the code 0. TooLong where it has more than 268,435,456 bytes.
/// Memory where there is no room for it.
pub fn spelt(alloc: Global, node: &Node) -> Result<Bytes, EncodeError>
    ensures { IsEncoded result (spelt (tree node.now)) }
{
    let mut out = Vec::new(alloc);
    put_node(alloc, &mut out, node)?;
    Ok(Bytes::from_vec(out)?)
}

/// The binary form of a node (Octez "data encoding", Micheline expressions). NoCode at the location of the
/// first name in pre-order that is no primitive's; else TooLong where the form has more than 268,435,456
/// bytes. Memory where there is no room for it.
#[tactic(auto, unfolding(rules_text::specs::binary::Encoding::encoded))]
pub fn encode(alloc: Global, node: &Node) -> Result<Bytes, EncodeError>
    requires { size (tree node.now) < 2 ^ 32 }
    ensures { IsEncoded result (encoded (tree node.now)) }
{
    match uncoded(node) {
        Some(location) => Err(EncodeError::NoCode(location)),
        None => spelt(alloc, node),
    }
}
