// What is read of the fields of a line: amounts, and amounts of tickets.
ghost use Rattle.std.specs.Prelude.{◌≡◌, [], Some, None, option_map, IfOk, MatchOption};
ghost use Rattle.rules_text.specs.nodes.Tree.{prim};
ghost use Rattle.rules_audit.specs.Fields.{amount_from, change_by, changes_of, each, holding_by, holdings_of, named, part_of, ticket_by, ticket_of, tickets_in, tickets_within};
ghost use Rattle.mich_base.specs.View.{tree, trees};
ghost use Rattle.mich_audit.specs.View.{one_seen, parts_seen, sort_seen};
ghost use Rattle.mich_audit.specs.Told.{issuer_of, IsNoPlain, Tells};

use crate::counted::four;
use crate::part::{Identity, Part, Parts, Sort};
use mich_base::{App, Bytes, Memory, Node, Nodes};

/// An application of a name without annotations.
pub(crate) fn plain(node: &Node) -> Option<&App>
    ensures { MatchOption result (IsNoPlain (tree node.now)) (λ app. tree node.now ≡ prim app.now.name [] (trees app.now.args)) }
{
    match node {
        Node::Prim(app) if app.annots.is_empty() => Some(app),
        _ => None,
    }
}

/// An amount, from the least to 2^127-1.
pub(crate) fn amount_from(least: u8, node: &Node) -> Option<u128>
    ensures { result ≡ amount_from least (tree node.now) }
{
    match node {
        Node::Int(n) if i128::from(least) <= *n => Some(*n as u128),
        _ => None,
    }
}

/// The bytes of a place, of which there are 22.
pub(crate) fn issuer_of(node: &Node) -> Option<&Bytes>
    ensures { option_map (λ b. b.now) result ≡ issuer_of (tree node.now) }
{
    match node {
        Node::Bytes(issuer) if issuer.len() == 22 => Some(issuer),
        _ => None,
    }
}

// ---- tickets

// issuer type content amount
#[tactic(auto, using(crate::proofs::Counts::part_fields))]
fn part_of(sort: Sort, args: &Nodes) -> Option<Part<'_>>
    ensures { option_map one_seen result ≡ part_of (sort_seen sort) (trees args.now) }
{
    let Some((issuer, kind, content, amount)) = four(args) else {
        return None;
    };
    let issuer = issuer_of(issuer)?;
    let amount = amount_from(1, amount)?;
    let identity = Identity {
        issuer,
        kind,
        content,
    };
    Some(Part {
        sort,
        identity,
        amount,
    })
}

// Puts what was read behind the parts.
fn put<'a>(read: Option<Part<'a>>, parts: &mut Parts<'a>) -> Result<bool, Memory>
    ensures { IfOk result (λ told. Tells (option_map one_seen read.entry) (parts_seen parts.old) (parts_seen parts.new) told) }
{
    let Some(part) = read else {
        return Ok(false);
    };
    parts.push(part)?;
    Ok(true)
}

// `Minted` and `Burnt`, the changes of an effect.
fn change_by<'a>(name: &[u8], args: &'a Nodes) -> Option<Part<'a>>
    ensures { option_map one_seen result ≡ change_by name.now (trees args.now) }
{
    if name == b"Minted".as_slice() {
        part_of(Sort::Minted, args)
    } else if name == b"Burnt".as_slice() {
        part_of(Sort::Burnt, args)
    } else {
        None
    }
}

// `Held`, what an account holds.
fn holding_by<'a>(name: &[u8], args: &'a Nodes) -> Option<Part<'a>>
    ensures { option_map one_seen result ≡ holding_by name.now (trees args.now) }
{
    if name == b"Held".as_slice() {
        part_of(Sort::Held, args)
    } else {
        None
    }
}

// A change, put behind the parts.
fn change<'a>(node: &'a Node, parts: &mut Parts<'a>) -> Result<bool, Memory>
    ensures { IfOk result (λ told. Tells (named change_by (tree node.now)) (parts_seen parts.old) (parts_seen parts.new) told) }
{
    let Some(app) = plain(node) else {
        return Ok(false);
    };
    put(change_by(app.name.as_slice(), &app.args), parts)
}

// What is held of a ticket, put behind the parts.
fn holding<'a>(node: &'a Node, parts: &mut Parts<'a>) -> Result<bool, Memory>
    ensures { IfOk result (λ told. Tells (named holding_by (tree node.now)) (parts_seen parts.old) (parts_seen parts.new) told) }
{
    let Some(app) = plain(node) else {
        return Ok(false);
    };
    put(holding_by(app.name.as_slice(), &app.args), parts)
}

fn each_change<'a>(nodes: &'a Nodes, parts: &mut Parts<'a>) -> Result<bool, Memory>
    ensures { IfOk result (λ told. Tells (each (named change_by) (trees nodes.now)) (parts_seen parts.old) (parts_seen parts.new) told) }
{
    'changes: for node in nodes.as_slice() {
        if !change(node, parts)? {
            return Ok(false);
        }
    }
    Ok(true)
}

fn each_holding<'a>(nodes: &'a Nodes, parts: &mut Parts<'a>) -> Result<bool, Memory>
    ensures { IfOk result (λ told. Tells (each (named holding_by) (trees nodes.now)) (parts_seen parts.old) (parts_seen parts.new) told) }
{
    'holdings: for node in nodes.as_slice() {
        if !holding(node, parts)? {
            return Ok(false);
        }
    }
    Ok(true)
}

/// The changes of an effect, put behind the parts. Memory where there is no room for them.
pub(crate) fn changes_of<'a>(node: &'a Node, parts: &mut Parts<'a>) -> Result<bool, Memory>
    ensures { IfOk result (λ told. Tells (changes_of (tree node.now)) (parts_seen parts.old) (parts_seen parts.new) told) }
{
    match node {
        Node::Seq(nodes) => each_change(nodes, parts),
        _ => Ok(false),
    }
}

/// What an account holds, put behind the parts. Memory where there is no room for it.
pub(crate) fn holdings_of<'a>(node: &'a Node, parts: &mut Parts<'a>) -> Result<bool, Memory>
    ensures { IfOk result (λ told. Tells (holdings_of (tree node.now)) (parts_seen parts.old) (parts_seen parts.new) told) }
{
    match node {
        Node::Seq(nodes) => each_holding(nodes, parts),
        _ => Ok(false),
    }
}

// ---- literals

// An application `Ticket issuer type content amount`, with an amount of at least 1; another shape of that name tells nothing.
#[tactic(auto, using(crate::proofs::Counts::ticket_fields))]
fn ticket_of<'a>(args: &'a Nodes, parts: &mut Parts<'a>) -> Result<bool, Memory>
    ensures { IfOk result (λ told. Tells (ticket_of (trees args.now)) (parts_seen parts.old) (parts_seen parts.new) told) }
{
    let Some((issuer, _, _, _)) = four(args) else {
        return Ok(true);
    };
    if issuer_of(issuer).is_none() {
        return Ok(true);
    }
    put(part_of(Sort::Held, args), parts)
}

fn ticket_by<'a>(name: &[u8], args: &'a Nodes, parts: &mut Parts<'a>) -> Result<bool, Memory>
    ensures { IfOk result (λ told. Tells (ticket_by name.now (trees args.now)) (parts_seen parts.old) (parts_seen parts.new) told) }
{
    if name == b"Ticket".as_slice() {
        ticket_of(args, parts)
    } else {
        Ok(true)
    }
}

/// The tickets in a literal, at any depth, put behind the parts. Memory where there is no room for them.
#[cycle(tickets)]
pub(crate) fn tickets_in<'a>(node: &'a Node, parts: &mut Parts<'a>) -> Result<bool, Memory>
    ensures { IfOk result (λ told. Tells (tickets_in (tree node.now)) (parts_seen parts.old) (parts_seen parts.new) told) }
{
    match node {
        Node::Prim(app) => tickets_in_application(app, parts),
        Node::Seq(nodes) => tickets_within(nodes, parts),
        _ => Ok(true),
    }
}

#[cycle(tickets)]
fn tickets_in_application<'a>(app: &'a App, parts: &mut Parts<'a>) -> Result<bool, Memory>
    ensures { IfOk result (λ told. Tells (tickets_in (prim app.now.name app.now.annots (trees app.now.args))) (parts_seen parts.old) (parts_seen parts.new) told) }
{
    if !ticket_by(app.name.as_slice(), &app.args, parts)? {
        return Ok(false);
    }
    tickets_within(&app.args, parts)
}

#[cycle(tickets)]
fn tickets_within<'a>(nodes: &'a Nodes, parts: &mut Parts<'a>) -> Result<bool, Memory>
    ensures { IfOk result (λ told. Tells (tickets_within (trees nodes.now)) (parts_seen parts.old) (parts_seen parts.new) told) }
{
    'literals: for node in nodes.as_slice() {
        if !tickets_in(node, parts)? {
            return Ok(false);
        }
    }
    Ok(true)
}
