// Writing nodes behind what was written.
ghost use Rattle.std.specs.Prelude.{◌≡◌, ℕ, List, [], ◌∷◌, ◌+◌, ◌-◌, ◌<◌, ◌≤◌, ◌^◌, ◌++◌, length};
ghost use Rattle.std.specs.Int.{w32, to_be_bytes};
ghost use Rattle.rules_text.specs.nodes.Limits.{encoded_limit};
ghost use Rattle.rules_text.specs.binary.Spelling.{groups, signed_groups, integer, field, joined, short, application, code, count, spelling, spellings};
ghost use Rattle.mich_base.specs.View.{tree, app_tree, trees};
ghost use Rattle.mich_binary.specs.Results.{IsWritten, IsJoined};

use crate::errors::EncodeError;
use mich_base::{App, ENCODED_LIMIT, Node, Nodes, Text, prim_code};
use std::alloc::Global;

fn put(out: &mut Vec<u8>, bytes: &[u8]) -> Result<(), EncodeError>
    requires { length out.old.items ≤ encoded_limit }
    ensures { IsWritten out.old.items out.new.items bytes.now result }
{
    if bytes.len() > ENCODED_LIMIT - out.len() {
        return Err(EncodeError::TooLong);
    }
    out.extend_from_slice(bytes)?;
    Ok(())
}

#[tactic(auto, using(laws_data::proofs::binary_lemmas::ForCallers::more_groups, laws_data::proofs::binary_lemmas::ForCallers::one_group))]
fn put_groups(out: &mut Vec<u8>, n: u128) -> Result<(), EncodeError>
    requires { length out.old.items ≤ encoded_limit }
    ensures { IsWritten out.old.items out.new.items (groups n) result }
{
    if n < 128 {
        return put(out, &[n as u8]);
    }
    put(out, &[128 + (n % 128) as u8])?;
    put_groups(out, n / 128)
}

// An integer behind its tag, by its sign, 64 for negative, and its absolute value.
fn put_signed(out: &mut Vec<u8>, sign: u8, n: u128) -> Result<(), EncodeError>
    requires room { length out.old.items ≤ encoded_limit }
    requires sign { sign ≤ 64 }
    ensures { IsWritten out.old.items out.new.items (0 ∷ signed_groups sign n) result }
{
    if n < 64 {
        return put(out, &[0, sign + n as u8]);
    }
    put(out, &[0, 128 + sign + (n % 64) as u8])?;
    put_groups(out, n / 64)
}

#[tactic(auto, using(crate::proofs::Writings::integer_is))]
fn put_integer(out: &mut Vec<u8>, n: i128) -> Result<(), EncodeError>
    requires { length out.old.items ≤ encoded_limit }
    ensures { IsWritten out.old.items out.new.items (0 ∷ integer n) result }
{
    let sign = if n < 0 { 64 } else { 0 };
    put_signed(out, sign, n.unsigned_abs())
}

// A field of these bytes, behind these.
#[tactic(auto, unfolding(rules_text::specs::binary::Spelling::field))]
fn put_field(out: &mut Vec<u8>, content: &[u8]) -> Result<(), EncodeError>
    requires { length out.old.items ≤ encoded_limit }
    ensures { IsWritten out.old.items out.new.items (field content.now) result }
{
    if content.len() > ENCODED_LIMIT {
        return Err(EncodeError::TooLong);
    }
    put(out, &(content.len() as u32).to_be_bytes())?;
    put(out, content)
}

fn put_tagged_field(out: &mut Vec<u8>, tag: u8, content: &[u8]) -> Result<(), EncodeError>
    requires { length out.old.items ≤ encoded_limit }
    ensures { IsWritten out.old.items out.new.items (tag ∷ field content.now) result }
{
    put(out, &[tag])?;
    put_field(out, content)
}

// Writes the length of what stands behind the four bytes from a place on into these four.
fn set_length(out: &mut Vec<u8>, start: usize)
    requires room { start + 4 ≤ length out.old.items }
    requires short { length out.old.items < 2 ^ 32 }
    ensures { (front content : List ℕ) → out.old.items ≡ front ++ (0 ∷ 0 ∷ 0 ∷ 0 ∷ content) → start ≡ length front → out.new.items ≡ front ++ field content }
{
    let length = (out.len() - start - 4) as u32;
    let bytes = length.to_be_bytes();
    out[start] = bytes[0];
    out[start + 1] = bytes[1];
    out[start + 2] = bytes[2];
    out[start + 3] = bytes[3];
}

// Annotations joined by single spaces.
fn joined_texts(alloc: Global, texts: &[Text]) -> Result<Vec<u8>, EncodeError>
    ensures { IsJoined result texts.now }
{
    let mut out = Vec::new(alloc);
    let Some((first, rest)) = texts.split_first() else {
        return Ok(out);
    };
    out.extend_from_slice(first.as_slice())?;
    for text in rest {
        out.push(b' ')?;
        out.extend_from_slice(text.as_slice())?;
    }
    Ok(out)
}

fn code_of(name: &Text) -> u8
    ensures { result ≡ code name.now }
{
    match prim_code(name) {
        Some(code) => code,
        None => 0,
    }
}

/// A node behind what was written.
#[cycle(put)]
pub fn put_node(alloc: Global, out: &mut Vec<u8>, node: &Node) -> Result<(), EncodeError>
    requires { length out.old.items ≤ encoded_limit }
    ensures { IsWritten out.old.items out.new.items (spelling (tree node.now)) result }
{
    match node {
        Node::Int(n) => put_integer(out, *n),
        Node::Str(text) => put_tagged_field(out, 1, text.as_slice()),
        Node::Bytes(bytes) => put_tagged_field(out, 10, bytes.as_slice()),
        Node::Prim(app) => put_application(alloc, out, app),
        Node::Seq(nodes) => put_sequence(alloc, out, nodes),
    }
}

#[cycle(put)]
fn put_application(alloc: Global, out: &mut Vec<u8>, app: &App) -> Result<(), EncodeError>
    requires { length out.old.items ≤ encoded_limit }
    ensures { IsWritten out.old.items out.new.items (spelling (app_tree app.now)) result }
{
    let notes = joined_texts(alloc, app.annots.as_slice())?;
    put_parts(alloc, out, code_of(&app.name), &app.args, notes.as_slice())
}

// An application by its code, its arguments and its joined annotations.
#[cycle(put)]
fn put_parts(
    alloc: Global,
    out: &mut Vec<u8>,
    code: u8,
    args: &Nodes,
    notes: &[u8],
) -> Result<(), EncodeError>
    requires { length out.old.items ≤ encoded_limit }
    ensures { IsWritten out.old.items out.new.items (application code (count (trees args.now)) (spellings (trees args.now)) notes.now) result }
{
    match args.len() {
        0 => put_short(alloc, out, 3, code, args, notes),
        1 => put_short(alloc, out, 5, code, args, notes),
        2 => put_short(alloc, out, 7, code, args, notes),
        _ => put_long(alloc, out, code, args, notes),
    }
}

#[cycle(put)]
fn put_short(
    alloc: Global,
    out: &mut Vec<u8>,
    tag: u8,
    code: u8,
    args: &Nodes,
    notes: &[u8],
) -> Result<(), EncodeError>
    requires room { length out.old.items ≤ encoded_limit }
    requires small { tag < 255 }
    ensures { IsWritten out.old.items out.new.items (short tag code (spellings (trees args.now)) notes.now) result }
{
    if notes.is_empty() {
        put(out, &[tag, code])?;
        return put_nodes(alloc, out, args);
    }
    put(out, &[tag + 1, code])?;
    put_nodes(alloc, out, args)?;
    put_field(out, notes)
}

#[cycle(put)]
fn put_long(
    alloc: Global,
    out: &mut Vec<u8>,
    code: u8,
    args: &Nodes,
    notes: &[u8],
) -> Result<(), EncodeError>
    requires { length out.old.items ≤ encoded_limit }
    ensures { IsWritten out.old.items out.new.items (9 ∷ code ∷ field (spellings (trees args.now)) ++ field notes.now) result }
{
    put(out, &[9, code])?;
    put_nodes_field(alloc, out, args)?;
    put_field(out, notes)
}

#[cycle(put)]
fn put_sequence(alloc: Global, out: &mut Vec<u8>, nodes: &Nodes) -> Result<(), EncodeError>
    requires { length out.old.items ≤ encoded_limit }
    ensures { IsWritten out.old.items out.new.items (2 ∷ field (spellings (trees nodes.now))) result }
{
    put(out, &[2])?;
    put_nodes_field(alloc, out, nodes)
}

// A field of nodes: its length is written when they stand there.
#[cycle(put)]
fn put_nodes_field(alloc: Global, out: &mut Vec<u8>, nodes: &Nodes) -> Result<(), EncodeError>
    requires { length out.old.items ≤ encoded_limit }
    ensures { IsWritten out.old.items out.new.items (field (spellings (trees nodes.now))) result }
{
    let start = out.len();
    put(out, &[0, 0, 0, 0])?;
    put_nodes(alloc, out, nodes)?;
    set_length(out, start);
    Ok(())
}

#[cycle(put)]
fn put_nodes(alloc: Global, out: &mut Vec<u8>, nodes: &Nodes) -> Result<(), EncodeError>
    requires { length out.old.items ≤ encoded_limit }
    ensures { IsWritten out.old.items out.new.items (spellings (trees nodes.now)) result }
{
    for node in nodes.as_slice() {
        put_node(alloc, out, node)?;
    }
    Ok(())
}
