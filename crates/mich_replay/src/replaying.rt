// A file that is replayed as it is read.
ghost use Rattle.std.specs.Prelude.{◌≡◌, ◌<◌, ◌-◌, ℕ, List, [], false, Option, Contains, IfOk, IsErrOf};
ghost use Rattle.std.specs.Io.KnownBytes.{IsAtEnd};
ghost use Rattle.rules_files.specs.course.Course.{Course as PlainCourse};
ghost use Rattle.rules_text.specs.streams.Causes.{HasCause};
ghost use Rattle.rules_text.specs.streams.Known.{SameFiles};
ghost use Rattle.rules_files.specs.commands.Commands.{OnFile, Replaying};
ghost use Rattle.rules_files.specs.commands.Lines.{refusal_line};
ghost use Rattle.rules_files.specs.commands.Replay.{RefusedAt, ending_of};
ghost use Rattle.mich_replay.specs.Coming.{CameTo, Closes, Comes, EndsAs, Grows, TellsEvent, TellsGroups, Told};
ghost use Rattle.mich_replay.specs.Output.{Output, RefusesWith, output};
ghost use Rattle.mich_replay.specs.Pace.{TakesInStep, WritesAsItReads};
ghost use Rattle.mich_replay.specs.Steps.{FollowsIf};
ghost use Rattle.mich_replay.specs.View.{file_fault_seen, status_in};

use crate::feeding::feed_piece;
use crate::lines::file_fault_name;
use crate::outcome::FileFault;
use crate::progress::Progress;
use crate::session::Session;
use crate::steps::Event;
use crate::writing::{write_group, write_line, write_lines};
use mich_answers::refusal_line;
use mich_group::course::Course;
use mich_io::{Files, Sink, Stop, start};
use mich_report::state_lines;
use std::alloc::Global;

/// What stands behind the groups that were told.
pub enum Pause {
    /// No statement, before more is fed.
    More,
    /// The end of the file.
    End,
    /// Why the file is refused, at a place.
    Refused(FileFault, u64),
}

// Writes the line of the group that came, or tells what else did.
fn tell<K: Sink>(
    alloc: Global,
    progress: &Progress,
    event: Event,
    out: &mut K,
) -> Result<Option<Pause>, Stop>
    ensures told { TellsEvent progress.now event (output (K.written out.old) (K.handed out.old)) (output (K.written out.new) (K.handed out.new)) result }
    ensures grows { Grows (K.written out.old) (K.written out.new) }
    ensures no_read { IsErrOf result Stop.Read → ⊥ }
    ensures cause { HasCause Stop.Write (K.faults out.old) (K.faults out.new) result }
{
    match event {
        Event::Taken => Ok(None),
        Event::Group(receipt) => {
            write_group(alloc, &progress.course, &receipt, out)?;
            Ok(None)
        }
        Event::More => Ok(Some(Pause::More)),
        Event::End => Ok(Some(Pause::End)),
        Event::Refused(fault, at) => Ok(Some(Pause::Refused(fault, at))),
    }
}

// Takes the statements that stand, and writes the line of each group at once.
fn tell_groups<K: Sink>(
    alloc: Global,
    session: &mut Session,
    last: bool,
    out: &mut K,
) -> Result<Pause, Stop>
    requires { (from : Option PlainCourse) × (fed : List ℕ) × (before : Output) × Told from fed last before (output (K.written out.old) (K.handed out.old)) session.old.reader session.old.progress }
    ensures told { TellsGroups last (output (K.written out.old) (K.handed out.old)) (output (K.written out.new) (K.handed out.new)) session.old session.new result }
    ensures grows { Grows (K.written out.old) (K.written out.new) }
    ensures no_read { IsErrOf result Stop.Read → ⊥ }
    ensures cause { HasCause Stop.Write (K.faults out.old) (K.faults out.new) result }
{
    'told: loop {
        let event = session.next(alloc, last)?;
        let turn = tell(alloc, &session.progress, event, out)?;
        match turn {
            Some(pause) => return Ok(pause),
            None => {}
        }
    }
}

/// Writes the line of a refusal with this name and place, and answers its status.
pub(crate) fn refuse_as<K: Sink>(
    alloc: Global,
    name: &str,
    at: u64,
    out: &mut K,
) -> Result<u8, Stop>
    ensures refuses { RefusesWith (refusal_line name.now at) (output (K.written out.old) (K.handed out.old)) (output (K.written out.new) (K.handed out.new)) result }
    ensures no_read { IsErrOf result Stop.Read → ⊥ }
    ensures cause { HasCause Stop.Write (K.faults out.old) (K.faults out.new) result }
{
    let line = refusal_line(alloc, name, at)?;
    write_line(out, line.as_bytes())?;
    Ok(2)
}

// Writes why a file is refused, and where.
fn refuse<K: Sink>(alloc: Global, fault: FileFault, at: u64, out: &mut K) -> Result<u8, Stop>
    ensures closes { Closes (output (K.written out.old) (K.handed out.old)) (output (K.written out.new) (K.handed out.new)) (RefusedAt (file_fault_seen fault) at) result }
    ensures status { IfOk result (λ status. status ≡ 2) }
    ensures no_read { IsErrOf result Stop.Read → ⊥ }
    ensures cause { HasCause Stop.Write (K.faults out.old) (K.faults out.new) result }
{
    refuse_as(alloc, file_fault_name(fault), at, out)
}

// Writes what stands behind all statements of a file of so many bytes.
fn end<K: Sink>(alloc: Global, course: &Option<Course>, size: u64, out: &mut K) -> Result<u8, Stop>
    requires { (p : Option PlainCourse) × FollowsIf course.now p }
    ensures closes { (p : Option PlainCourse) → FollowsIf course.now p → Closes (output (K.written out.old) (K.handed out.old)) (output (K.written out.new) (K.handed out.new)) (ending_of size p) result }
    ensures no_read { IsErrOf result Stop.Read → ⊥ }
    ensures cause { HasCause Stop.Write (K.faults out.old) (K.faults out.new) result }
{
    match course {
        Some(course) => {
            let lines = state_lines(alloc, &course.world)?;
            write_lines(out, &lines)?;
            Ok(0)
        }
        None => refuse(alloc, FileFault::BadOrder, size, out),
    }
}

/// Goes on with a file that was started, as it is read, and answers the status. The line of each group is written before more is read.
pub(crate) fn replay_on<F: Files, K: Sink>(
    alloc: Global,
    session: &mut Session,
    files: &mut F,
    out: &mut K,
) -> Result<u8, Stop>
    requires { (from : Option PlainCourse) × CameTo from [] false session.old [] }
    ensures ends { (from : Option PlainCourse) → CameTo from [] false session.old []
        → EndsAs from (F.left files.old) (output (K.written out.old) (K.handed out.old)) (output (K.written out.new) (K.handed out.new)) result }
    ensures pace { (from : Option PlainCourse) → CameTo from [] false session.old []
        → TakesInStep from (F.left files.old) (F.left files.new) (K.written out.old) (K.written out.new) (status_in result) }
    ensures same { SameFiles (F.lent files.old) (F.lent files.new) (F.content files.old) (F.content files.new) }
    ensures end { IfOk result (λ status. status ≡ 0 → IsAtEnd (F.left files.new)) }
    ensures reads { HasCause Stop.Read (F.faults files.old) (F.faults files.new) result }
    ensures writes { HasCause Stop.Write (K.faults out.old) (K.faults out.new) result }
{
    let mut size = 0u64;
    'pieces: loop {
        let count = feed_piece(session, files)?;
        let last = count == 0;
        size += count as u64;
        match tell_groups(alloc, session, last, out)? {
            Pause::More => {}
            Pause::End => return end(alloc, &session.progress.course, size, out),
            Pause::Refused(fault, at) => return refuse(alloc, fault, at, out),
        }
    }
}

/// Replays a file as it is read, and answers the status. The line of each group is written before more is read.
pub(crate) fn replay_file<F: Files, K: Sink>(
    alloc: Global,
    path: &str,
    files: &mut F,
    out: &mut K,
) -> Result<u8, Stop>
    requires { Contains (F.lent files.old) path.now }
    ensures comes { Comes (OnFile Replaying path.now) (F.content files.old) (output (K.written out.old) (K.handed out.old)) (output (K.written out.new) (K.handed out.new)) result }
    ensures pace { WritesAsItReads (F.content files.old path.now) (F.left files.old) (F.left files.new)
        (K.written out.old) (K.written out.new) (status_in result) }
    ensures same { SameFiles (F.lent files.old) (F.lent files.new) (F.content files.old) (F.content files.new) }
    ensures end { IfOk result (λ status. status ≡ 0 → IsAtEnd (F.left files.new)) }
    ensures reads { HasCause Stop.Read (F.faults files.old) (F.faults files.new) result }
    ensures writes { HasCause Stop.Write (K.faults out.old) (K.faults out.new) result }
{
    start(files, path)?;
    let mut session = Session::new(alloc)?;
    replay_on(alloc, &mut session, files, out)
}
