// The line that sums up a workload.
ghost use Rattle.std.specs.List.{AllByRecursion};
ghost use Rattle.std.specs.List.Sorted.{IsStrictlySortedBy};
ghost use Rattle.std.specs.Map.{keys_of};
ghost use Rattle.std.specs.Prelude.{◌≡◌, ◌<ℤ◌, ◌≤ℤ◌, ◌+ℤ◌, ◌-ℤ◌, pos, IfOk, map};
ghost use Rattle.rules_world.specs.lines.Nodes.{line};
ghost use Rattle.rules_world.specs.summary.Summary.{summary_node};
ghost use Rattle.rules_world.specs.world.World.{World as PlainWorld};
ghost use Rattle.mich_base.specs.View.{tree};
ghost use Rattle.mich_report.specs.Amounts.{by_print, seen};
ghost use Rattle.mich_report.specs.State.{AreTotals, IsAtRest};
ghost use Rattle.mich_report.specs.Summed.{AreSums, summary_with};

use crate::amounts::Amounts;
use crate::gathering::all_minted;
use crate::line::node_line;
use crate::parts::number_node;
use mich_base::{Memory, Node, Nodes, Text};
use mich_tickets::{Ledger, Totals};
use mich_types::application;
use mich_world::World;
use std::alloc::Global;

/// What was minted, burnt and is held, of all tickets together.
#[derive(Clone, Copy, Debug)]
pub(crate) struct Sums {
    pub(crate) minted: i128,
    pub(crate) burnt: i128,
    pub(crate) held: i128,
}

// The sum, where it has its place.
fn plus(a: i128, b: i128) -> Result<i128, Memory>
    ensures { IfOk result (λ n. n ≡ a +ℤ b) }
{
    match a.checked_add(b) {
        Some(n) => Ok(n),
        None => Err(Memory),
    }
}

// What is left of what was minted.
fn rest_of(totals: Totals) -> i128
    requires minted { pos 0 ≤ℤ totals.minted }
    requires burnt { pos 0 ≤ℤ totals.burnt }
    ensures { result ≡ totals.minted -ℤ totals.burnt }
{
    totals.minted - totals.burnt
}

// With the totals of one more ticket.
fn with_totals(sums: Sums, totals: Totals) -> Result<Sums, Memory>
    requires minted { pos 0 ≤ℤ totals.minted }
    requires burnt { pos 0 ≤ℤ totals.burnt }
    ensures minted { IfOk result (λ s. s.minted ≡ sums.minted +ℤ totals.minted) }
    ensures burnt { IfOk result (λ s. s.burnt ≡ sums.burnt +ℤ totals.burnt) }
    ensures held { IfOk result (λ s. s.held ≡ sums.held +ℤ (totals.minted -ℤ totals.burnt)) }
{
    let minted = plus(sums.minted, totals.minted)?;
    let burnt = plus(sums.burnt, totals.burnt)?;
    let held = plus(sums.held, rest_of(totals))?;
    Ok(Sums {
        minted,
        burnt,
        held,
    })
}

// The totals of these tickets.
fn sum_tickets(ledger: &Ledger, minted: &Amounts) -> Result<Sums, Memory>
    requires { AreTotals ledger.now.books.present }
    ensures sums { IfOk result (λ s. AreSums ledger.now.books.present (map seen minted.now) s) }
    ensures order { IsStrictlySortedBy by_print (keys_of minted.now) }
    ensures positive { AllByRecursion (λ e. pos 0 <ℤ e.1) minted.now }
{
    let _count = minted.map.len();
    let mut sums = Sums {
        minted: 0,
        burnt: 0,
        held: 0,
    };
    'tickets: for (id, amount) in &minted.map {
        let _minted = amount;
        sums = with_totals(sums, ledger.totals(&id.id))?;
    }
    Ok(sums)
}

// A summary.
fn summary_node(
    alloc: Global,
    calls: u64,
    applied: u64,
    failed: u64,
    supply: u64,
    sums: Sums,
) -> Result<Node, Memory>
    ensures { IfOk result (λ n. tree n ≡ summary_with calls applied failed supply sums) }
{
    let mut fields = Nodes::new(alloc);
    fields.push(number_node(calls))?;
    fields.push(number_node(applied))?;
    fields.push(number_node(failed))?;
    fields.push(number_node(supply))?;
    fields.push(Node::Int(sums.minted))?;
    fields.push(Node::Int(sums.burnt))?;
    fields.push(Node::Int(sums.held))?;
    application(alloc, b"Summary", fields)
}

/// The line that sums up a workload of so many calls, some of which were applied and some of which failed, in a world that stands for a
/// good one in which nothing waits: all mutez, and what was minted, burnt and is held, of all tickets together (this host's own).
/// Memory where there is no room for it, or a sum is past 2^127-1.
pub fn summary_text(
    alloc: Global,
    calls: u64,
    applied: u64,
    failed: u64,
    world: &World,
) -> Result<Text, Memory>
    requires { (w : PlainWorld) × IsAtRest world.now w }
    ensures { (w : PlainWorld) → IsAtRest world.now w → IfOk result (λ text. text ≡ line (summary_node calls applied failed w)) }
{
    let ledger = world.ledger();
    let minted = all_minted(alloc, ledger.lines())?;
    let sums = sum_tickets(ledger, &minted)?;
    let node = summary_node(alloc, calls, applied, failed, world.supply(), sums)?;
    node_line(alloc, &node)
}
