// How many bytes the binary forms of nodes have, each counted up to 2^64-1. Nothing here takes memory.
ghost use Rattle.std.specs.Prelude.{◌≡◌, length};
ghost use Rattle.rules_text.specs.binary.Spelling.{groups, integer, joined, signed_groups};
ghost use Rattle.mich_base.specs.View.{tree, app_tree, trees};
ghost use Rattle.mich_term.specs.Weights.{capped};
ghost use Rattle.mich_pack.specs.Lengths.{node_length, nodes_length, own_length, application_length};

use mich_base::{App, Node, Nodes, Text};

// Groups of seven bits.
#[tactic(auto, using(laws_data::proofs::binary_lemmas::ForCallers::more_groups, laws_data::proofs::binary_lemmas::ForCallers::one_group))]
fn groups_len(n: u128) -> u64
    ensures { result ≡ capped (length (groups n)) }
{
    if n < 128 {
        1
    } else {
        groups_len(n / 128).saturating_add(1)
    }
}

// An integer by its absolute value.
fn absolute_len(n: u128) -> u64
    ensures { result ≡ capped (length (signed_groups 0 n)) }
{
    if n < 64 {
        1
    } else {
        groups_len(n / 64).saturating_add(1)
    }
}

#[tactic(auto, using(crate::proofs::Lengths::integer_length))]
pub(crate) fn integer_len(n: i128) -> u64
    ensures { result ≡ capped (length (integer n)) }
{
    absolute_len(n.unsigned_abs())
}

// Annotations joined by single spaces.
fn notes_len(texts: &[Text]) -> u64
    ensures { result ≡ capped (length (joined texts.now)) }
{
    let Some((first, rest)) = texts.split_first() else {
        return 0;
    };
    let mut total = first.len() as u64;
    for text in rest {
        total = total.saturating_add(1);
        total = total.saturating_add(text.len() as u64);
    }
    total
}

// What an application has beside its arguments and its annotations.
fn own_len(arguments: usize, notes: u64) -> u64
    ensures { result ≡ own_length arguments notes }
{
    if arguments >= 3 {
        10
    } else if notes == 0 {
        2
    } else {
        6
    }
}

#[cycle(node)]
pub(crate) fn node_len(node: &Node) -> u64
    ensures { result ≡ capped (node_length (tree node.now)) }
{
    match node {
        Node::Int(n) => integer_len(*n).saturating_add(1),
        Node::Str(text) => (text.len() as u64).saturating_add(5),
        Node::Bytes(bytes) => (bytes.len() as u64).saturating_add(5),
        Node::Prim(app) => application_len(app),
        Node::Seq(nodes) => nodes_len(nodes).saturating_add(5),
    }
}

#[cycle(node)]
fn application_len(app: &App) -> u64
    ensures { result ≡ capped (node_length (app_tree app.now)) }
{
    parts_len(&app.args, app.annots.as_slice())
}

// An application by its arguments and its annotations.
#[cycle(node)]
fn parts_len(args: &Nodes, annotations: &[Text]) -> u64
    ensures { result ≡ capped (application_length (trees args.now) annotations.now) }
{
    let notes = notes_len(annotations);
    nodes_len(args)
        .saturating_add(notes)
        .saturating_add(own_len(args.len(), notes))
}

#[cycle(node)]
fn nodes_len(nodes: &Nodes) -> u64
    ensures { result ≡ capped (nodes_length (trees nodes.now)) }
{
    let mut total: u64 = 0;
    for node in nodes.as_slice() {
        total = total.saturating_add(node_len(node));
    }
    total
}
