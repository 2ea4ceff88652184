// A file of one node that is encoded, decoded or packed.
ghost use Rattle.std.specs.Prelude.{◌≡◌, ◌<◌, ◌-◌, ◌^◌, length, IfOk, option_map};
ghost use Rattle.mich_base.specs.View.{tree};
ghost use Rattle.rules_text.specs.binary.Encoding as binary;
ghost use Rattle.rules_text.specs.binary.Reading as reading;
ghost use Rattle.rules_files.specs.commands.Codec.{encoding_answer, decoding_answer, of_text, IsCodecAnswer};
ghost use Rattle.mich_answers.specs.View.{answer_seen, node_answer};
ghost use Rattle.rules_text.specs.nodes.Tree.{size};
ghost use Rattle.mich_answers.specs.Listed.{of_kept, IsSmall};

use crate::answer::{Answer, done, misplaced, refused};
use crate::lines::{as_text, bytes_line, decode_kind_name, node_line, text_kind_name};
use crate::packing::pack_node;
use crate::statements::{Listed, list_file};
use mich_base::{Memory, Node};
use mich_binary::{DecodeError, EncodeError, decode, encode};
use std::alloc::Global;

/// A command that takes the one node of a file.
#[derive(Clone, Copy)]
pub enum NodeCommand {
    /// Any node, to its binary form (Octez "data encoding").
    Encode,
    /// A literal of bytes, to the node whose binary form they are.
    Decode,
    /// `Pack type literal`, to the bytes of PACK.
    Pack,
}

fn encoded(alloc: Global, node: &Node) -> Result<Answer, Memory>
    requires { size (tree node.now) < 2 ^ 32 }
    ensures { IfOk result (λ a. answer_seen a ≡ encoding_answer (binary.encoded (tree node.now))) }
{
    match encode(alloc, node) {
        Ok(bytes) => done(alloc, as_text(bytes_line(alloc, bytes.as_slice())?)?),
        Err(EncodeError::NoCode(location)) => refused(alloc, "NoCode", u64::from(location)),
        Err(EncodeError::TooLong) => refused(alloc, "TooLong", 0),
        Err(EncodeError::Memory) => Err(Memory),
    }
}

fn decoded(alloc: Global, bytes: &[u8]) -> Result<Answer, Memory>
    ensures { IfOk result (λ a. answer_seen a ≡ decoding_answer (reading.decoded bytes.now)) }
{
    match decode(alloc, bytes) {
        Ok(node) => done(alloc, node_line(alloc, &node)?),
        Err(DecodeError::Fault(kind, place)) => refused(alloc, decode_kind_name(kind), place),
        Err(DecodeError::Memory) => Err(Memory),
    }
}

// The answer to a node, where it is the input of the command.
fn node_answer(alloc: Global, command: NodeCommand, node: &Node) -> Result<Option<Answer>, Memory>
    requires { size (tree node.now) < 2 ^ 32 }
    ensures { IfOk result (λ a. option_map answer_seen a ≡ node_answer command (tree node.now)) }
{
    match command {
        NodeCommand::Encode => Ok(Some(encoded(alloc, node)?)),
        NodeCommand::Decode => match node {
            Node::Bytes(bytes) => Ok(Some(decoded(alloc, bytes.as_slice())?)),
            _ => Ok(None),
        },
        NodeCommand::Pack => pack_node(alloc, node),
    }
}

// The answer to what a file of so many bytes lists.
fn answer_listed(
    alloc: Global,
    command: NodeCommand,
    listed: &Listed,
    size: u64,
) -> Result<Answer, Memory>
    requires { IsSmall (2 ^ 32 - 1) listed.now.first }
    ensures { IfOk result (λ a. answer_seen a ≡ of_text listed.now.fault (of_kept (node_answer command) size listed.now.first listed.now.second)) }
{
    if let Some((kind, at)) = listed.fault {
        return refused(alloc, text_kind_name(kind), at);
    }
    let Some(placed) = &listed.first else {
        return misplaced(alloc, size);
    };
    match node_answer(alloc, command, &placed.node)? {
        Some(answer) => match listed.second {
            Some(at) => misplaced(alloc, at),
            None => Ok(answer),
        },
        None => misplaced(alloc, placed.start),
    }
}

/// The answer of a command to a file: what it gives of the one node there, or why the file is refused (Octez "Micheline"). Its
/// status is 0 or 2. Memory where there is no room for it.
#[tactic(auto, using(crate::proofs::Listing::listed_answer))]
pub fn answer_node(alloc: Global, command: NodeCommand, file: &[u8]) -> Result<Answer, Memory>
    requires { length file.now < 2 ^ 32 }
    ensures { IfOk result (λ a. IsCodecAnswer (node_answer command) file.now (answer_seen a)) }
{
    let listed = list_file(alloc, file)?;
    answer_listed(alloc, command, &listed, file.len() as u64)
}
