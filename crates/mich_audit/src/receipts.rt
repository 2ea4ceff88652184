// What the receipt of a group tells of tickets.
ghost use Rattle.std.specs.Prelude.{◌≡◌, Some, None, IfOk};
ghost use Rattle.rules_audit.specs.Fields.{each, in_sequence, named};
ghost use Rattle.rules_audit.specs.Lines.{alone, applied_of, effect_by, event_of, failed_of, give_of, receipt_of, refused_by, status_by, third_amount, transfer_of};
ghost use Rattle.mich_base.specs.View.{tree, trees};
ghost use Rattle.mich_audit.specs.View.{parts_seen};
ghost use Rattle.mich_audit.specs.Told.{Tells, TellsNothing};

use crate::counted::{five, four, seven};
use crate::fields::{amount_from, changes_of, issuer_of, plain};
use crate::part::Parts;
use mich_base::{Memory, Node, Nodes};

// ---- effects

// sender destination amount argument changes
#[tactic(auto, using(crate::proofs::Counts::transfer_fields))]
fn transfer_of<'a>(args: &'a Nodes, parts: &mut Parts<'a>) -> Result<bool, Memory>
    ensures { IfOk result (λ told. Tells (transfer_of (trees args.now)) (parts_seen parts.old) (parts_seen parts.new) told) }
{
    let Some((_, _, amount, _, changes)) = five(args) else {
        return Ok(false);
    };
    if amount_from(0, amount).is_none() {
        return Ok(false);
    }
    changes_of(changes, parts)
}

// sender destination issuer type content amount changes
#[tactic(auto, using(crate::proofs::Counts::give_fields))]
fn give_of<'a>(args: &'a Nodes, parts: &mut Parts<'a>) -> Result<bool, Memory>
    ensures { IfOk result (λ told. Tells (give_of (trees args.now)) (parts_seen parts.old) (parts_seen parts.new) told) }
{
    let Some((_, _, issuer, _, _, amount, changes)) = seven(args) else {
        return Ok(false);
    };
    if issuer_of(issuer).is_none() {
        return Ok(false);
    }
    if amount_from(0, amount).is_none() {
        return Ok(false);
    }
    changes_of(changes, parts)
}

// sender address amount; and address bytes amount
#[tactic(auto, using(crate::proofs::Counts::third_fields))]
fn third_amount(args: &Nodes) -> bool
    ensures { TellsNothing (third_amount (trees args.now)) result }
{
    match args.three() {
        Some((_, _, amount)) => amount_from(0, amount).is_some(),
        None => false,
    }
}

// sender tag type value
#[tactic(auto, using(crate::proofs::Counts::event_fields))]
fn event_of(args: &Nodes) -> bool
    ensures { TellsNothing (event_of (trees args.now)) result }
{
    four(args).is_some()
}

fn effect_by<'a>(name: &[u8], args: &'a Nodes, parts: &mut Parts<'a>) -> Result<bool, Memory>
    ensures { IfOk result (λ told. Tells (effect_by name.now (trees args.now)) (parts_seen parts.old) (parts_seen parts.new) told) }
{
    if name == b"Transfer".as_slice() {
        transfer_of(args, parts)
    } else if name == b"Give".as_slice() {
        give_of(args, parts)
    } else if name == b"Origination".as_slice() {
        Ok(third_amount(args))
    } else if name == b"Event".as_slice() {
        Ok(event_of(args))
    } else if name == b"Storage".as_slice() {
        Ok(third_amount(args))
    } else {
        Ok(false)
    }
}

fn effect<'a>(node: &'a Node, parts: &mut Parts<'a>) -> Result<bool, Memory>
    ensures { IfOk result (λ told. Tells (named effect_by (tree node.now)) (parts_seen parts.old) (parts_seen parts.new) told) }
{
    match plain(node) {
        Some(app) => effect_by(app.name.as_slice(), &app.args, parts),
        None => Ok(false),
    }
}

fn each_effect<'a>(nodes: &'a Nodes, parts: &mut Parts<'a>) -> Result<bool, Memory>
    ensures { IfOk result (λ told. Tells (each (named effect_by) (trees nodes.now)) (parts_seen parts.old) (parts_seen parts.new) told) }
{
    'effects: for node in nodes.as_slice() {
        if !effect(node, parts)? {
            return Ok(false);
        }
    }
    Ok(true)
}

fn effects_of<'a>(node: &'a Node, parts: &mut Parts<'a>) -> Result<bool, Memory>
    ensures { IfOk result (λ told. Tells (in_sequence (named effect_by) (tree node.now)) (parts_seen parts.old) (parts_seen parts.new) told) }
{
    match node {
        Node::Seq(nodes) => each_effect(nodes, parts),
        _ => Ok(false),
    }
}

// ---- statuses

// gas effects
#[tactic(auto, using(crate::proofs::Counts::applied_fields))]
fn applied_of<'a>(args: &'a Nodes, parts: &mut Parts<'a>) -> Result<bool, Memory>
    ensures { IfOk result (λ told. Tells (applied_of (trees args.now)) (parts_seen parts.old) (parts_seen parts.new) told) }
{
    match args.both() {
        Some((_, effects)) => effects_of(effects, parts),
        None => Ok(false),
    }
}

// count failure
#[tactic(auto, using(crate::proofs::Counts::failed_fields))]
fn failed_of(args: &Nodes) -> bool
    ensures { TellsNothing (failed_of (trees args.now)) result }
{
    args.both().is_some()
}

#[tactic(auto, using(crate::proofs::Counts::alone_fields))]
fn alone(args: &Nodes) -> bool
    ensures { TellsNothing (alone (trees args.now)) result }
{
    args.is_empty()
}

fn status_by<'a>(name: &[u8], args: &'a Nodes, parts: &mut Parts<'a>) -> Result<bool, Memory>
    ensures { IfOk result (λ told. Tells (status_by name.now (trees args.now)) (parts_seen parts.old) (parts_seen parts.new) told) }
{
    if name == b"Applied".as_slice() {
        applied_of(args, parts)
    } else if name == b"Backtracked".as_slice() {
        Ok(alone(args))
    } else if name == b"Failed".as_slice() {
        Ok(failed_of(args))
    } else if name == b"Skipped".as_slice() {
        Ok(alone(args))
    } else {
        Ok(false)
    }
}

fn status<'a>(node: &'a Node, parts: &mut Parts<'a>) -> Result<bool, Memory>
    ensures { IfOk result (λ told. Tells (named status_by (tree node.now)) (parts_seen parts.old) (parts_seen parts.new) told) }
{
    match plain(node) {
        Some(app) => status_by(app.name.as_slice(), &app.args, parts),
        None => Ok(false),
    }
}

fn each_status<'a>(nodes: &'a Nodes, parts: &mut Parts<'a>) -> Result<bool, Memory>
    ensures { IfOk result (λ told. Tells (each (named status_by) (trees nodes.now)) (parts_seen parts.old) (parts_seen parts.new) told) }
{
    'statuses: for node in nodes.as_slice() {
        if !status(node, parts)? {
            return Ok(false);
        }
    }
    Ok(true)
}

// A refused group tells nothing.
#[tactic(auto, using(crate::proofs::Counts::refused_fields))]
fn refused_by(name: &[u8], args: &Nodes) -> bool
    ensures { TellsNothing (refused_by name.now (trees args.now)) result }
{
    match args.only() {
        Some(_) => name == b"Refused".as_slice(),
        None => false,
    }
}

fn refused(node: &Node) -> bool
    ensures { TellsNothing (named refused_by (tree node.now)) result }
{
    match plain(node) {
        Some(app) => refused_by(app.name.as_slice(), &app.args),
        None => false,
    }
}

/// What a receipt tells of tickets, put behind the parts. Memory where there is no room for it.
pub(crate) fn receipt_of<'a>(node: &'a Node, parts: &mut Parts<'a>) -> Result<bool, Memory>
    ensures { IfOk result (λ told. Tells (receipt_of (tree node.now)) (parts_seen parts.old) (parts_seen parts.new) told) }
{
    match node {
        Node::Seq(nodes) => each_status(nodes, parts),
        _ => Ok(refused(node)),
    }
}
