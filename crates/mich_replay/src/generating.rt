// A workload that is made, replayed and summed up.
ghost use Rattle.std.specs.Prelude.{◌≡◌, ◌≤◌, ◌<◌, ◌++◌, ◌∷◌, [], ◌^◌, ℕ, List, Option, length, true, IfOk, IsErrOf, if◌then◌else◌};
ghost use Rattle.rules_files.specs.course.Course.{Course as PlainCourse};
ghost use Rattle.rules_text.specs.streams.Causes.{HasCause};
ghost use Rattle.rules_files.specs.commands.Commands.{Generating};
ghost use Rattle.rules_world.specs.world.Receipts.{Receipt};
ghost use Rattle.mich_group.specs.course.Following.{Follows};
ghost use Rattle.mich_ops.specs.View.{receipt};
ghost use Rattle.mich_replay.specs.Coming.{CameTo, Comes};
ghost use Rattle.mich_replay.specs.Generating.{AllCounted, AreCounts, CountsEvent, SumsUp, told_applied, told_failed};
ghost use Rattle.mich_replay.specs.Output.{output};
ghost use Rattle.mich_replay.specs.Steps.{Tells};

use crate::session::Session;
use crate::steps::Event;
use crate::writing::write_line;
use mich_base::Memory;
use mich_generate::scenario;
use mich_group::course::Course;
use mich_io::{Sink, Stop};
use mich_ops::{GroupReceipt, Status};
use mich_report::summary_text;
use std::alloc::Global;

/// How many groups there were, and of those behind the first, how many were applied and how many failed.
#[derive(Clone, Copy, Debug)]
pub struct Counts {
    pub groups: u64,
    pub applied: u64,
    pub failed: u64,
}

/// How the counting goes on.
#[derive(Clone, Copy, Debug)]
pub enum Counting {
    /// There may be more groups.
    On(Counts),
    /// There are none.
    Ended(Counts),
}

// Whether it is a group whose one content was applied.
fn is_applied(told: &GroupReceipt) -> bool
    ensures { result ≡ told_applied (receipt told.now) }
{
    let GroupReceipt::Done(statuses) = told else {
        return false;
    };
    let [status] = statuses.as_slice() else {
        return false;
    };
    matches!(status, Status::Applied(_, _))
}

// Whether it is a group whose one content failed.
fn is_failed(told: &GroupReceipt) -> bool
    ensures { result ≡ told_failed (receipt told.now) }
{
    let GroupReceipt::Done(statuses) = told else {
        return false;
    };
    let [status] = statuses.as_slice() else {
        return false;
    };
    matches!(status, Status::Failed(_, _))
}

// One more, where it is so.
fn one_if(is_so: bool) -> u64
    ensures { result ≡ (if is_so then 1 else 0) }
{
    if is_so { 1 } else { 0 }
}

// With one more group. The first isn't counted.
fn with_group(counts: Counts, told: &GroupReceipt) -> Counts
    requires { (receipts : List Receipt) × AreCounts receipts counts × (length receipts < 2 ^ 32) }
    ensures { (receipts : List Receipt) (found : Receipt) → AreCounts receipts counts → Tells told.now found → AreCounts (receipts ++ found ∷ []) result }
{
    if counts.groups == 0 {
        return Counts {
            groups: 1,
            applied: 0,
            failed: 0,
        };
    }
    Counts {
        groups: counts.groups + 1,
        applied: counts.applied + one_if(is_applied(told)),
        failed: counts.failed + one_if(is_failed(told)),
    }
}

// Counts what came. No workload is refused; where one were, it is given up as for want of memory.
fn count(counts: Counts, event: Event) -> Result<Counting, Memory>
    requires { (receipts : List Receipt) × AreCounts receipts counts × (length receipts < 2 ^ 32) }
    ensures { CountsEvent counts event result }
{
    match event {
        Event::Taken => Ok(Counting::On(counts)),
        Event::Group(told) => Ok(Counting::On(with_group(counts, &told))),
        Event::End => Ok(Counting::Ended(counts)),
        Event::More => Err(Memory),
        Event::Refused(_, _) => Err(Memory),
    }
}

// Counts the groups of a workload to its end.
fn count_groups(alloc: Global, session: &mut Session) -> Result<Counts, Memory>
    requires { (fed : List ℕ) × CameTo None fed true session.old [] }
    ensures { (fed : List ℕ) → CameTo None fed true session.old [] → IfOk result (λ counts. AllCounted fed session.new counts) }
{
    let mut counts = Counts {
        groups: 0,
        applied: 0,
        failed: 0,
    };
    'groups: loop {
        let event = session.next(alloc, true)?;
        let counting = count(counts, event)?;
        match counting {
            Counting::On(more) => counts = more,
            Counting::Ended(all) => return Ok(all),
        }
    }
}

// Writes the summary of a workload of so many calls.
fn sum_up<K: Sink>(
    alloc: Global,
    calls: u32,
    counts: Counts,
    course: &Course,
    out: &mut K,
) -> Result<u8, Stop>
    requires { (p : PlainCourse) × Follows course.now p }
    ensures summed { (receipts : List Receipt) (p : PlainCourse) → Follows course.now p
        → SumsUp receipts counts calls p (output (K.written out.old) (K.handed out.old)) (output (K.written out.new) (K.handed out.new)) result }
    ensures no_read { IsErrOf result Stop.Read → ⊥ }
    ensures cause { HasCause Stop.Write (K.faults out.old) (K.faults out.new) result }
{
    let line = summary_text(
        alloc,
        u64::from(calls),
        counts.applied,
        counts.failed,
        &course.world,
    )?;
    write_line(out, line.as_slice())?;
    Ok(0)
}

/// Makes a workload of so many calls, replays it, writes its summary, and answers the status.
pub(crate) fn generate<K: Sink>(alloc: Global, calls: u32, out: &mut K) -> Result<u8, Stop>
    requires { (1 ≤ calls) × (calls ≤ 100000) }
    ensures comes { (content : List ℕ → Option (List ℕ)) → Comes (Generating calls) content (output (K.written out.old) (K.handed out.old)) (output (K.written out.new) (K.handed out.new)) result }
    ensures no_read { IsErrOf result Stop.Read → ⊥ }
    ensures cause { HasCause Stop.Write (K.faults out.old) (K.faults out.new) result }
{
    let text = scenario(alloc, calls)?;
    let mut session = Session::new(alloc)?;
    session.feed(text.as_slice())?;
    let counts = count_groups(alloc, &mut session)?;
    match &session.progress.course {
        Some(course) => sum_up(alloc, calls, counts, course, out),
        None => Err(Stop::Memory),
    }
}
