// A file that is replayed, and the snapshot of the state that it comes to.
ghost use Rattle.std.specs.Prelude.{◌≡◌, ◌⊎◌, ℕ, List, Option, Contains, IfOk, OnOk, OnErr, IsErrOf};
ghost use Rattle.std.specs.Io.KnownBytes.{IsAtEnd};
ghost use Rattle.rules_files.specs.commands.Answers.{done_with};
ghost use Rattle.rules_files.specs.commands.Commands.{OnFile, Snapshotting};
ghost use Rattle.rules_files.specs.commands.Snapshots.{Reached as PlainReached, saved_answer, snapshot_answer};
ghost use Rattle.rules_files.specs.course.Course.{Course as PlainCourse};
ghost use Rattle.rules_files.specs.snapshots.Loading.{saved};
ghost use Rattle.rules_text.specs.streams.Causes.{HasCause};
ghost use Rattle.rules_text.specs.streams.Known.{SameFiles};
ghost use Rattle.rules_world.specs.world.Receipts.{Receipt};
ghost use Rattle.rules_world.specs.world.World.{World as PlainWorld};
ghost use Rattle.mich_answers.specs.View.{answer_seen, IsDoneOrRefused};
ghost use Rattle.mich_report.specs.State.{IsAtRest};
ghost use Rattle.mich_snapshot.specs.Snapshots.{snapshot_of};
ghost use Rattle.mich_replay.specs.Coming.{CameTo, Comes, IsAnswerIfTold};
ghost use Rattle.mich_replay.specs.Output.{output};
ghost use Rattle.mich_replay.specs.Reaching.{EndsIn, IsReachedBy, IsSeenAs, IsState, PassesEvent, PassesGroups};
ghost use Rattle.mich_replay.specs.Taken.{HasTaken, TakesFile};
ghost use Rattle.mich_replay.specs.View.{status_in};

use crate::feeding::feed_piece;
use crate::lines::file_fault_name;
use crate::outcome::FileFault;
use crate::progress::Progress;
use crate::replaying::Pause;
use crate::session::Session;
use crate::steps::Event;
use crate::writing::write_lines;
use mich_answers::{Answer, done, refused};
use mich_base::{Bytes, Memory, Text};
use mich_io::{Files, Sink, Stop, start};
use mich_snapshot::{SaveError, State, save};
use std::alloc::Global;

/// What a file comes to: a state, or why it is refused, at a place.
#[derive(Drop)]
pub enum Reached {
    State(State),
    Refused(FileFault, u64),
}

// What stands behind an event, if no statement does.
fn pause_of(event: &Event) -> Option<Pause>
    ensures { PassesEvent event.now result }
{
    match event {
        Event::Taken => None,
        Event::Group(_) => None,
        Event::More => Some(Pause::More),
        Event::End => Some(Pause::End),
        Event::Refused(fault, at) => Some(Pause::Refused(*fault, *at)),
    }
}

// Takes the statements that stand.
fn pass_groups(alloc: Global, session: &mut Session, last: bool) -> Result<Pause, Memory>
    requires { (from : Option PlainCourse) × (fed : List ℕ) × (receipts : List Receipt) × CameTo from fed last session.old receipts }
    ensures { PassesGroups last session.old session.new result }
{
    'passed: loop {
        let event = session.next(alloc, last)?;
        match pause_of(&event) {
            Some(pause) => return Ok(pause),
            None => {}
        }
    }
}

// What a file of so many bytes comes to at its end.
fn state_reached(progress: Progress, size: u64) -> Reached
    ensures { EndsIn progress size result }
{
    let Progress { course, marks } = progress;
    match course {
        Some(course) => Reached::State(State {
            world: course.world,
            costs: course.costs,
            groups: course.groups,
            costs_stood: marks.costs_stood,
            started: marks.started,
        }),
        None => Reached::Refused(FileFault::BadOrder, size),
    }
}

// What a file that was started comes to.
fn reach<F: Files>(alloc: Global, files: &mut F) -> Result<Reached, Stop>
    ensures reached { IfOk result (IsReachedBy (F.left files.old)) }
    ensures end { IfOk result (λ found. IsState found → IsAtEnd (F.left files.new)) }
    ensures taken { HasTaken (F.left files.old) (F.left files.new) }
    ensures same { SameFiles (F.lent files.old) (F.lent files.new) (F.content files.old) (F.content files.new) }
    ensures no_write { IsErrOf result Stop.Write → ⊥ }
    ensures cause { HasCause Stop.Read (F.faults files.old) (F.faults files.new) result }
{
    let mut session = Session::new(alloc)?;
    let mut size = 0u64;
    'pieces: loop {
        let count = feed_piece(&mut session, files)?;
        let last = count == 0;
        size += count as u64;
        match pass_groups(alloc, &mut session, last)? {
            Pause::More => {}
            Pause::End => return Ok(state_reached(session.progress, size)),
            Pause::Refused(fault, at) => return Ok(Reached::Refused(fault, at)),
        }
    }
}

// The answer with these bytes.
fn answer_bytes(alloc: Global, bytes: Bytes) -> Result<Answer, Memory>
    ensures { IfOk result (λ a. answer_seen a ≡ done_with bytes) }
{
    let text = Text::from_vec(bytes.into_vec(alloc)?)?;
    done(alloc, text)
}

// The answer with the bytes of a state.
fn answer_state(alloc: Global, state: &State) -> Result<Answer, Memory>
    requires { (w : PlainWorld) × IsAtRest state.now.world w }
    ensures { (w : PlainWorld) → IsAtRest state.now.world w → IfOk result (λ a. answer_seen a ≡ saved_answer (saved (snapshot_of state.now w))) }
{
    match save(alloc, state) {
        Ok(bytes) => answer_bytes(alloc, bytes),
        Err(SaveError::TooLong) => refused(alloc, "TooLong", 0),
        Err(SaveError::Memory) => Err(Memory),
    }
}

// The answer to a file that comes to this.
fn answer_reached(alloc: Global, reached: &Reached) -> Result<Answer, Memory>
    requires { (plain : PlainReached) × IsSeenAs plain reached.now }
    ensures exact { (plain : PlainReached) → IsSeenAs plain reached.now → IfOk result (λ a. answer_seen a ≡ snapshot_answer plain) }
    ensures end { IfOk result (λ a. a.status ≡ 0 → IsState reached.now) }
    ensures status { IfOk result (λ a. IsDoneOrRefused a.status) }
{
    match reached {
        Reached::State(state) => answer_state(alloc, state),
        Reached::Refused(fault, at) => refused(alloc, file_fault_name(*fault), *at),
    }
}

// The answer to a file.
fn answer_path<F: Files>(alloc: Global, path: &str, files: &mut F) -> Result<Answer, Stop>
    requires { Contains (F.lent files.old) path.now }
    ensures exact { IfOk result (λ a. IsAnswerIfTold (OnFile Snapshotting path.now) (F.content files.old) (answer_seen a)) }
    ensures status { IfOk result (λ a. IsDoneOrRefused a.status) }
    ensures end { IfOk result (λ a. a.status ≡ 0 → IsAtEnd (F.left files.new)) }
    ensures taken { OnOk result (HasTaken (F.content files.old path.now) (F.left files.new)) }
    ensures given_up { OnErr result ((F.left files.new ≡ F.left files.old) ⊎ HasTaken (F.content files.old path.now) (F.left files.new)) }
    ensures same { SameFiles (F.lent files.old) (F.lent files.new) (F.content files.old) (F.content files.new) }
    ensures no_write { IsErrOf result Stop.Write → ⊥ }
    ensures cause { HasCause Stop.Read (F.faults files.old) (F.faults files.new) result }
{
    start(files, path)?;
    let reached = reach(alloc, files)?;
    let answer = answer_reached(alloc, &reached)?;
    Ok(answer)
}

/// Writes the snapshot of what a file comes to, or why there is none, and answers the status.
pub(crate) fn snapshot_file<F: Files, K: Sink>(
    alloc: Global,
    path: &str,
    files: &mut F,
    out: &mut K,
) -> Result<u8, Stop>
    requires { Contains (F.lent files.old) path.now }
    ensures comes { Comes (OnFile Snapshotting path.now) (F.content files.old) (output (K.written out.old) (K.handed out.old)) (output (K.written out.new) (K.handed out.new)) result }
    ensures taken { TakesFile (F.content files.old path.now) (F.left files.old) (F.left files.new)
        (K.written out.old) (K.written out.new) (status_in result) }
    ensures same { SameFiles (F.lent files.old) (F.lent files.new) (F.content files.old) (F.content files.new) }
    ensures end { IfOk result (λ status. status ≡ 0 → IsAtEnd (F.left files.new)) }
    ensures reads { HasCause Stop.Read (F.faults files.old) (F.faults files.new) result }
    ensures writes { HasCause Stop.Write (K.faults out.old) (K.faults out.new) result }
{
    let answer = answer_path(alloc, path, files)?;
    write_lines(out, &answer.lines)?;
    Ok(answer.status)
}
