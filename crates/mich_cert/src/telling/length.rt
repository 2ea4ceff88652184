// How many bytes nodes take on a line (Octez "Micheline"), as far as they fit there.
ghost use Rattle.std.specs.Prelude.{◌≡◌, ◌+◌, IfOk, length};
ghost use Rattle.std.specs.Fmt.{signed_decimal};
ghost use Rattle.hex.specs.Hex.{encode_lower};
ghost use Rattle.rules_text.specs.nodes.Tree.{seq};
ghost use Rattle.rules_text.specs.text.Printed.{annotations_text, arguments_text, elements_text, in_parens, is_wrapped, printed, spelling, string_text};
ghost use Rattle.mich_base.specs.View.{app_tree, tree, trees};
ghost use Rattle.mich_cert.specs.telling.Length.{IsLeft};

use crate::telling::error::LineError;
use mich_base::{App, Memory, Node, Nodes, Texts};
use std::alloc::Global;

// What so many bytes leave of the room for others.
pub(crate) fn behind_bytes(bytes: usize, room: u32) -> Result<u32, LineError>
    ensures { IsLeft bytes room result }
{
    if bytes > room as usize {
        return Err(LineError::Long);
    }
    Ok(room - bytes as u32)
}

fn number_length(alloc: Global, number: i128) -> Result<usize, Memory>
    ensures { IfOk result (λ n. n ≡ length (signed_decimal number)) }
{
    let text = format!(in alloc; "{number}")?;
    Ok(text.as_str().len())
}

// How many bytes a byte of a string takes.
fn spelled(byte: u8) -> usize
    ensures { result ≡ length (spelling byte) }
{
    match byte {
        b'\n' | b'\\' | b'"' | b'\t' | 8 | b'\r' => 2,
        _ => 1,
    }
}

// What the bytes of a string and its closing quote leave.
fn behind_string(text: &[u8], room: u32) -> Result<u32, LineError>
    ensures { IsLeft (length (string_text text.now)) room result }
{
    let mut left = room;
    for byte in text {
        left = behind_bytes(spelled(*byte), left)?;
    }
    behind_bytes(1, left)
}

// What bytes leave, of which each has two digits.
#[tactic(auto, using(crate::proofs::telling_lemmas::Lengths::digits))]
fn behind_digits(bytes: &[u8], room: u32) -> Result<u32, LineError>
    ensures { IsLeft (2 + length (encode_lower bytes.now)) room result }
{
    let left = behind_bytes(2, room)?;
    let left = behind_bytes(bytes.len(), left)?;
    behind_bytes(bytes.len(), left)
}

fn behind_annotations(annotations: &Texts, room: u32) -> Result<u32, LineError>
    ensures { IsLeft (length (annotations_text annotations.now)) room result }
{
    let mut left = room;
    for annotation in annotations.as_slice() {
        left = behind_bytes(1, left)?;
        left = behind_bytes(annotation.len(), left)?;
    }
    Ok(left)
}

// Whether a node stands in parentheses as an argument: an application with arguments or annotations.
fn is_wrapped(node: &Node) -> bool
    ensures { result ≡ is_wrapped (tree node.now) }
{
    match node {
        Node::Prim(app) => !app.annots.is_empty() || !app.args.is_empty(),
        _ => false,
    }
}

// What a node leaves of the room for bytes.
#[cycle(measure)]
pub(crate) fn behind_node(alloc: Global, node: &Node, room: u32) -> Result<u32, LineError>
    ensures { IsLeft (length (printed (tree node.now))) room result }
{
    match node {
        Node::Int(number) => behind_bytes(number_length(alloc, *number)?, room),
        Node::Str(text) => {
            let left = behind_bytes(1, room)?;
            behind_string(text.as_slice(), left)
        }
        Node::Bytes(bytes) => behind_digits(bytes.as_slice(), room),
        Node::Prim(app) => behind_app(alloc, app, room),
        Node::Seq(nodes) => behind_sequence(alloc, nodes, room),
    }
}

#[cycle(measure)]
fn behind_app(alloc: Global, app: &App, room: u32) -> Result<u32, LineError>
    ensures { IsLeft (length (printed (app_tree app.now))) room result }
{
    let left = behind_bytes(app.name.len(), room)?;
    let left = behind_annotations(&app.annots, left)?;
    behind_arguments(alloc, &app.args, left)
}

#[cycle(measure)]
fn behind_arguments(alloc: Global, nodes: &Nodes, room: u32) -> Result<u32, LineError>
    ensures { IsLeft (length (arguments_text (trees nodes.now))) room result }
{
    let mut left = room;
    for node in nodes.as_slice() {
        left = behind_bytes(1, left)?;
        left = behind_argument(alloc, node, left)?;
    }
    Ok(left)
}

#[cycle(measure)]
fn behind_argument(alloc: Global, node: &Node, room: u32) -> Result<u32, LineError>
    ensures { IsLeft (length (in_parens (is_wrapped (tree node.now)) (printed (tree node.now)))) room result }
{
    if !is_wrapped(node) {
        return behind_node(alloc, node, room);
    }
    let left = behind_bytes(2, room)?;
    behind_node(alloc, node, left)
}

#[cycle(measure)]
fn behind_sequence(alloc: Global, nodes: &Nodes, room: u32) -> Result<u32, LineError>
    ensures { IsLeft (length (printed (seq (trees nodes.now)))) room result }
{
    if nodes.is_empty() {
        return behind_bytes(2, room);
    }
    let left = behind_bytes(1, room)?;
    behind_elements(alloc, nodes, left)
}

// What elements leave, each behind its sign.
#[cycle(measure)]
fn behind_elements(alloc: Global, nodes: &Nodes, room: u32) -> Result<u32, LineError>
    ensures { IsLeft (length (elements_text (trees nodes.now))) room result }
{
    let mut left = room;
    for node in nodes.as_slice() {
        left = behind_bytes(3, left)?;
        left = behind_node(alloc, node, left)?;
    }
    Ok(left)
}
