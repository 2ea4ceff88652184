// The lines that are written.
ghost use Rattle.std.specs.Prelude.{◌≡◌, IfOk, string_bytes};
ghost use Rattle.rules_world.specs.lines.Nodes.{line};
ghost use Rattle.rules_files.specs.commands.Lines.{refusal_line, text_kind_name};
ghost use Rattle.mich_base.specs.View.{tree};
ghost use Rattle.rules_files.specs.commands.Codec.{decode_kind_name, bytes_line};

use mich_base::{Memory, Node, Text};
use mich_text::print;
use rules_text::binary::DecodeKind;
use rules_text::text::TextKind;
use std::alloc::{AllocError, Global};

/// The line of a refusal with a name, at a place or location.
pub fn refusal_line(alloc: Global, name: &str, place: u64) -> Result<String, AllocError>
    ensures { IfOk result (λ s. string_bytes s ≡ refusal_line name.now place) }
{
    format!(in alloc; "Refused {name} {place}\n")
}

/// The name of a fault of a text.
pub fn text_kind_name(kind: TextKind) -> &'static str
    ensures { result.now ≡ text_kind_name kind }
{
    match kind {
        TextKind::BadChar => "BadChar",
        TextKind::BadString => "BadString",
        TextKind::BadBytes => "BadBytes",
        TextKind::BadNumber => "BadNumber",
        TextKind::Unclosed => "Unclosed",
        TextKind::Unexpected => "Unexpected",
        TextKind::TooDeep => "TooDeep",
        TextKind::TooLong => "TooLong",
    }
}

/// The name of a fault of binary forms.
pub fn decode_kind_name(kind: DecodeKind) -> &'static str
    ensures { result.now ≡ decode_kind_name kind }
{
    match kind {
        DecodeKind::BadTag => "BadTag",
        DecodeKind::BadPrim => "BadPrim",
        DecodeKind::BadLength => "BadLength",
        DecodeKind::BadInteger => "BadInteger",
        DecodeKind::BadString => "BadString",
        DecodeKind::Trailing => "Trailing",
        DecodeKind::TooDeep => "TooDeep",
        DecodeKind::TooWide => "TooWide",
    }
}

/// The line of a literal of bytes.
pub fn bytes_line(alloc: Global, bytes: &[u8]) -> Result<String, AllocError>
    ensures { IfOk result (λ s. string_bytes s ≡ bytes_line bytes.now) }
{
    let digits = hex::encode(alloc, bytes)?;
    let digits = digits.as_str();
    format!(in alloc; "0x{digits}\n")
}

/// The line of a node: the node as it is printed, and a newline. Memory where there is no room for it.
pub fn node_line(alloc: Global, node: &Node) -> Result<Text, Memory>
    ensures { IfOk result (λ written. written ≡ line (tree node.now)) }
{
    let text = print(alloc, node)?;
    let mut line = text.as_slice().to_vec(alloc)?;
    line.push(b'\n')?;
    Text::from_vec(line)
}

/// A line as its bytes.
pub fn as_text(line: String) -> Result<Text, Memory>
    ensures { IfOk result (λ text. text ≡ string_bytes line) }
{
    Text::from_vec(line.into_bytes())
}
