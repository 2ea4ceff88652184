// What became of groups.
ghost use Rattle.std.specs.Prelude.{◌≡◌, ◌++◌, ◌∷◌, [], IfOk, OnOk, map};
ghost use Rattle.rules_text.specs.nodes.Tree.{more, none, trees_of};
ghost use Rattle.rules_text.specs.text.Printed.{arguments_text, printed};
ghost use Rattle.rules_world.specs.lines.Nodes.{fault_node, group_node, line, number, sequence};
ghost use Rattle.rules_world.specs.world.Receipts.{Receipt};
ghost use Rattle.mich_base.specs.View.{tree};
ghost use Rattle.mich_text.specs.Line.{joined};
ghost use Rattle.mich_ops.specs.Told.{Applied, Failed, Refused, told_receipt};
ghost use Rattle.mich_ops.specs.View.{effect, failure, fault, receipt, status};
ghost use Rattle.mich_report.specs.Told.{told_group_node, told_receipt_node, told_status_node};

use crate::effects::put_effects;
use crate::failures::failure_node;
use crate::fields::put_number;
use crate::line::{put, put_separator};
use crate::parts::number_node;
use mich_base::{Memory, Node, Rows, Text};
use mich_ops::{Effect, Failure, GroupFault, GroupReceipt, Status};
use mich_text::put_node;
use mich_types::{bare, over_one, over_two};
use std::alloc::Global;

// How many bytes a line has room for at first; most need no more.
const LINE: usize = 256;

fn fault_node(alloc: Global, why: GroupFault) -> Result<Node, Memory>
    ensures { IfOk result (λ n. tree n ≡ fault_node (fault why)) }
{
    match why {
        GroupFault::UnknownSource => bare(alloc, b"UnknownSource"),
        GroupFault::GasTooHigh => bare(alloc, b"GasTooHigh"),
        GroupFault::FeeTooHigh => bare(alloc, b"FeeTooHigh"),
    }
}

// A name and a number behind a line.
fn put_count(alloc: Global, line: &mut Vec<u8>, name: &[u8], count: u64) -> Result<(), Memory>
    ensures { OnOk result (line.new.items ≡ line.old.items ++ (name.now ++ 32 ∷ printed (number count))) }
{
    put(line, name)?;
    put_number(alloc, line, count)
}

// What was done, behind a line.
fn put_applied(
    alloc: Global,
    line: &mut Vec<u8>,
    gas: u64,
    effects: &Rows<Effect>,
) -> Result<(), Memory>
    ensures { OnOk result (line.new.items ≡ line.old.items ++ printed (told_status_node (Applied gas (map effect effects.now)))) }
{
    put_count(alloc, line, b"Applied", gas)?;
    put(line, b" ")?;
    put_effects(alloc, line, effects)
}

// Why an operation failed, behind a line.
fn put_failed(alloc: Global, line: &mut Vec<u8>, count: u64, why: &Failure) -> Result<(), Memory>
    ensures { OnOk result (line.new.items ≡ line.old.items ++ printed (told_status_node (Failed count (failure why.now)))) }
{
    let reason = failure_node(alloc, why)?;
    let node = over_two(alloc, b"Failed", number_node(count), reason)?;
    put_node(alloc, line, &node)
}

fn put_status(alloc: Global, line: &mut Vec<u8>, found: &Status) -> Result<(), Memory>
    ensures { OnOk result (line.new.items ≡ line.old.items ++ printed (told_status_node (status found.now))) }
{
    match found {
        Status::Applied(gas, effects) => put_applied(alloc, line, *gas, effects),
        Status::Backtracked => put(line, b"Backtracked"),
        Status::Failed(count, why) => put_failed(alloc, line, *count, why),
        Status::Skipped => put(line, b"Skipped"),
    }
}

// Statuses, the first behind a space and each other behind its sign.
fn put_each(alloc: Global, line: &mut Vec<u8>, statuses: &Rows<Status>) -> Result<(), Memory>
    ensures { OnOk result (line.new.items ≡ line.old.items ++ joined (32 ∷ []) (trees_of (map told_status_node (map status statuses.now)))) }
{
    let mut begun = false;
    'statuses: for found in statuses.as_slice() {
        put_separator(line, begun)?;
        put_status(alloc, line, found)?;
        begun = true;
    }
    Ok(())
}

fn put_statuses(alloc: Global, line: &mut Vec<u8>, statuses: &Rows<Status>) -> Result<(), Memory>
    ensures { OnOk result (line.new.items ≡ line.old.items ++ printed (sequence (map told_status_node (map status statuses.now)))) }
{
    if statuses.is_empty() {
        return put(line, b"{}");
    }
    put(line, b"{")?;
    put_each(alloc, line, statuses)?;
    put(line, b" }")
}

// Why a group was refused, as an argument behind a line.
fn put_refused(alloc: Global, line: &mut Vec<u8>, why: GroupFault) -> Result<(), Memory>
    ensures { OnOk result (line.new.items ≡ line.old.items ++ arguments_text (more (told_receipt_node (Refused (fault why))) none)) }
{
    let reason = fault_node(alloc, why)?;
    let node = over_one(alloc, b"Refused", reason)?;
    put(line, b" (")?;
    put_node(alloc, line, &node)?;
    put(line, b")")
}

// What became of a group, as an argument behind a line.
fn put_receipt(alloc: Global, line: &mut Vec<u8>, found: &GroupReceipt) -> Result<(), Memory>
    ensures { OnOk result (line.new.items ≡ line.old.items ++ arguments_text (more (told_receipt_node (receipt found.now)) none)) }
{
    match found {
        GroupReceipt::Refused(why) => put_refused(alloc, line, *why),
        GroupReceipt::Done(statuses) => {
            put(line, b" ")?;
            put_statuses(alloc, line, statuses)
        }
    }
}

// A group with its number behind a line.
fn put_group(
    alloc: Global,
    line: &mut Vec<u8>,
    number: u64,
    found: &GroupReceipt,
) -> Result<(), Memory>
    ensures { OnOk result (line.new.items ≡ line.old.items ++ printed (told_group_node number (receipt found.now))) }
{
    put_count(alloc, line, b"Group", number)?;
    put_receipt(alloc, line, found)
}

// The line of a group.
fn group_text(alloc: Global, number: u64, found: &GroupReceipt) -> Result<Text, Memory>
    ensures { IfOk result (λ written. written ≡ line (told_group_node number (receipt found.now))) }
{
    let mut line = Vec::with_capacity(alloc, LINE)?;
    put_group(alloc, &mut line, number, found)?;
    put(&mut line, b"\n")?;
    Text::from_vec(line)
}

/// The line of the group of a number: why it was refused, or the status of each content, with the gas that it used and its
/// effects (Octez "Operations", receipts). It is the rules' line of each receipt of theirs of which this one tells all.
/// Memory where there is no room for it.
pub fn receipt_text(alloc: Global, number: u64, r: &GroupReceipt) -> Result<Text, Memory>
    ensures exact { IfOk result (λ written. written ≡ line (told_group_node number (receipt r.now))) }
    ensures found { IfOk result (λ written. (found : Receipt) → told_receipt found ≡ receipt r.now → written ≡ line (group_node number found)) }
{
    let written = group_text(alloc, number, r)?;
    Ok(written)
}
