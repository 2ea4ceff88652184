// Values as bytes.
ghost use Rattle.std.specs.Prelude.{◌≡◌, ◌∷◌, ◌≤◌, ◌+◌, length};
ghost use Rattle.rules_text.specs.nodes.Limits.{byte_limit};
ghost use Rattle.rules_text.specs.binary.Spelling.{spelling};
ghost use Rattle.rules_data.specs.values.Canonical.{canonical};
ghost use Rattle.rules_code.specs.steps.Packing.{packed};
ghost use Rattle.mich_base.specs.View.{tree};
ghost use Rattle.mich_term.specs.ValueView.{val};
ghost use Rattle.mich_term.specs.Weights.{capped};
ghost use Rattle.mich_pack.specs.Answers.{IsPacked, IsWritten};
ghost use Rattle.laws_typing.specs.packing.Names.{HasCodes, IsPackable};

use crate::error::PackError;
use crate::value_length::value_len;
use mich_base::{BYTE_LIMIT, Bytes, Node};
use mich_binary::{EncodeError, encode};
use mich_data::value_node;
use mich_term::Value;
use std::alloc::Global;

/// How many bytes the packed form of a value has, counted up to 2^64-1; takes no memory (Michelson reference, "PACK").
#[tactic(auto, using(crate::proofs::Lengths::packed_length))]
pub fn packed_len(value: &Value) -> u64
    ensures { result ≡ capped (length (packed (val value.now))) }
{
    value_len(value).saturating_add(1)
}

// The binary form of a node that has a code for each name, and is short.
#[tactic(auto, using(crate::proofs::Sizes::is_written, crate::proofs::Sizes::is_not_refused, crate::proofs::Sizes::node_is_small))]
fn encode_short(alloc: Global, node: &Node) -> Result<Bytes, PackError>
    requires codes { HasCodes (tree node.now) }
    requires short { length (spelling (tree node.now)) + 1 ≤ byte_limit }
    ensures { IsWritten (spelling (tree node.now)) result }
{
    match encode(alloc, node) {
        Ok(body) => Ok(body),
        Err(EncodeError::NoCode(_)) => unreachable!(),
        Err(EncodeError::TooLong) => unreachable!(),
        Err(EncodeError::Memory) => Err(PackError::Memory),
    }
}

// The byte 5 before the binary form of a node that has a code for each name, and is short.
fn pack_node(alloc: Global, node: &Node) -> Result<Bytes, PackError>
    requires codes { HasCodes (tree node.now) }
    requires short { length (spelling (tree node.now)) + 1 ≤ byte_limit }
    ensures { IsPacked result (5 ∷ spelling (tree node.now)) }
{
    let body = encode_short(alloc, node)?;
    let mut bytes = Vec::new(alloc);
    bytes.push(5)?;
    bytes.extend_from_slice(body.as_slice())?;
    Ok(Bytes::from_vec(bytes)?)
}

/// The packed form of a value: the byte 5, and the binary form of its canonical literal (Michelson reference, "PACK").
/// SizeLimit exactly where it has more than 1,048,576 bytes. Memory where there is no room for it.
#[tactic(auto, using(crate::proofs::Names::canonical_has_codes))]
pub fn pack(alloc: Global, value: &Value) -> Result<Bytes, PackError>
    requires { IsPackable (val value.now) }
    ensures { IsPacked result (packed (val value.now)) }
{
    if packed_len(value) > BYTE_LIMIT as u64 {
        return Err(PackError::SizeLimit);
    }
    let node = value_node(alloc, value)?;
    pack_node(alloc, &node)
}
