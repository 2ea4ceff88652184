//! Printing a node on one line.
ghost use Rattle.std.specs.Prelude.{◌≡◌, ◌<◌, ◌∷◌, ◌++◌, [], IfOk, OnOk};
ghost use Rattle.std.specs.Fmt.{signed_decimal};
ghost use Rattle.hex.specs.Hex.{encode_lower};
ghost use Rattle.rules_text.specs.nodes.Tree.{seq};
ghost use Rattle.mich_base.specs.View.{tree, trees, app_tree};
ghost use Rattle.rules_text.specs.text.Printed.{spelling, string_text, annotations_text, is_wrapped, printed, arguments_text};
ghost use Rattle.mich_text.specs.Line.{joined};

use mich_base::{App, Memory, Node, Nodes, Text, Texts};
use std::alloc::Global;

// Adds bytes to the line.
fn put(line: &mut Vec<u8>, bytes: &[u8]) -> Result<(), Memory>
    ensures { OnOk result (line.new.items ≡ line.old.items ++ bytes.now) }
{
    line.extend_from_slice(bytes)?;
    Ok(())
}

fn put_byte(line: &mut Vec<u8>, byte: u8) -> Result<(), Memory>
    ensures { OnOk result (line.new.items ≡ line.old.items ++ byte ∷ []) }
{
    line.push(byte)?;
    Ok(())
}

fn put_number(alloc: Global, line: &mut Vec<u8>, number: i128) -> Result<(), Memory>
    ensures { OnOk result (line.new.items ≡ line.old.items ++ signed_decimal number) }
{
    let text = format!(in alloc; "{number}")?;
    put(line, text.as_str().as_bytes())
}

// A byte of a string, by an escape where it has one.
fn put_spelling(line: &mut Vec<u8>, byte: u8) -> Result<(), Memory>
    ensures { OnOk result (line.new.items ≡ line.old.items ++ spelling byte) }
{
    match byte {
        b'\n' => put(line, b"\\n"),
        b'\\' => put(line, b"\\\\"),
        b'"' => put(line, b"\\\""),
        b'\t' => put(line, b"\\t"),
        8 => put(line, b"\\b"),
        b'\r' => put(line, b"\\r"),
        _ => put_byte(line, byte),
    }
}

// The bytes of a string and its closing quote.
fn put_string(line: &mut Vec<u8>, text: &[u8]) -> Result<(), Memory>
    ensures { OnOk result (line.new.items ≡ line.old.items ++ string_text text.now) }
{
    'bytes: for byte in text {
        put_spelling(line, *byte)?;
    }
    put_byte(line, b'"')
}

// Bytes in hexadecimal digits.
fn put_bytes(alloc: Global, line: &mut Vec<u8>, bytes: &[u8]) -> Result<(), Memory>
    ensures { OnOk result (line.new.items ≡ line.old.items ++ encode_lower bytes.now) }
{
    let digits = hex::encode(alloc, bytes)?;
    put(line, digits.as_str().as_bytes())
}

fn put_annotations(line: &mut Vec<u8>, annotations: &Texts) -> Result<(), Memory>
    ensures { OnOk result (line.new.items ≡ line.old.items ++ annotations_text annotations.now) }
{
    'annotations: for annotation in annotations.as_slice() {
        put_byte(line, b' ')?;
        put(line, annotation.as_slice())?;
    }
    Ok(())
}

// Whether a node stands in parentheses as an argument: an application with arguments or annotations.
fn is_wrapped(node: &Node) -> bool
    ensures { result ≡ is_wrapped (tree node.now) }
{
    match node {
        Node::Prim(app) => !app.annots.is_empty() || !app.args.is_empty(),
        _ => false,
    }
}

/// Puts the node behind a line, as `print` writes it. Memory where there is no room for it.
#[cycle(print)]
pub fn put_node(alloc: Global, line: &mut Vec<u8>, node: &Node) -> Result<(), Memory>
    ensures { OnOk result (line.new.items ≡ line.old.items ++ printed (tree node.now)) }
{
    match node {
        Node::Int(number) => put_number(alloc, line, *number),
        Node::Str(text) => {
            put_byte(line, b'"')?;
            put_string(line, text.as_slice())
        }
        Node::Bytes(bytes) => {
            put(line, b"0x")?;
            put_bytes(alloc, line, bytes.as_slice())
        }
        Node::Prim(app) => put_application(alloc, line, app),
        Node::Seq(nodes) => put_sequence(alloc, line, nodes),
    }
}

#[cycle(print)]
fn put_application(alloc: Global, line: &mut Vec<u8>, app: &App) -> Result<(), Memory>
    ensures { OnOk result (line.new.items ≡ line.old.items ++ printed (app_tree app.now)) }
{
    put(line, app.name.as_slice())?;
    put_annotations(line, &app.annots)?;
    put_arguments(alloc, line, &app.args)
}

#[cycle(print)]
fn put_arguments(alloc: Global, line: &mut Vec<u8>, nodes: &Nodes) -> Result<(), Memory>
    ensures { OnOk result (line.new.items ≡ line.old.items ++ arguments_text (trees nodes.now)) }
{
    'arguments: for node in nodes.as_slice() {
        put_byte(line, b' ')?;
        if is_wrapped(node) {
            put_byte(line, b'(')?;
            put_node(alloc, line, node)?;
            put_byte(line, b')')?;
        } else {
            put_node(alloc, line, node)?;
        }
    }
    Ok(())
}

// Elements, the first behind a space and each other behind its sign.
#[cycle(print)]
fn put_elements(alloc: Global, line: &mut Vec<u8>, nodes: &Nodes) -> Result<(), Memory>
    ensures { OnOk result (line.new.items ≡ line.old.items ++ joined (32 ∷ []) (trees nodes.now)) }
{
    let mut separator = b" ".as_slice();
    'elements: for node in nodes.as_slice() {
        put(line, separator)?;
        put_node(alloc, line, node)?;
        separator = b" ; ".as_slice();
    }
    Ok(())
}

#[cycle(print)]
fn put_sequence(alloc: Global, line: &mut Vec<u8>, nodes: &Nodes) -> Result<(), Memory>
    ensures { OnOk result (line.new.items ≡ line.old.items ++ printed (seq (trees nodes.now))) }
{
    if nodes.is_empty() {
        return put(line, b"{}");
    }
    put_byte(line, b'{')?;
    put_elements(alloc, line, nodes)?;
    put(line, b" }")
}

/// The node on one line: numbers in decimal, bytes in lower case, strings with their six escapes, and single spaces
/// (Octez "Micheline"). Memory where there is no room for the line.
pub fn print(alloc: Global, node: &Node) -> Result<Text, Memory>
    ensures { IfOk result (λ line. line ≡ printed (tree node.now)) }
{
    let mut line = Vec::new(alloc);
    put_node(alloc, &mut line, node)?;
    Text::from_vec(line)
}
