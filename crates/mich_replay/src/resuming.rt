// A snapshot that is loaded, and a file that goes on from its state.
ghost use Rattle.std.specs.Prelude.{◌≡◌, ◌⊎◌, ◌||◌, not, Some, Result, Contains, IfOk, OnOk, OnErr, IsErrOf};
ghost use Rattle.std.specs.Io.KnownBytes.{IsAtEnd};
ghost use Rattle.rules_files.specs.commands.Commands.{Resuming};
ghost use Rattle.rules_files.specs.course.Course.{Course as PlainCourse};
ghost use Rattle.rules_files.specs.snapshots.Loading.{LoadFault, loaded};
ghost use Rattle.rules_files.specs.snapshots.State.{State as PlainState};
ghost use Rattle.rules_text.specs.streams.Causes.{HasCause};
ghost use Rattle.rules_text.specs.streams.Known.{SameFiles};
ghost use Rattle.mich_replay.specs.Coming.{Comes, EndsAs};
ghost use Rattle.mich_replay.specs.Output.{output};
ghost use Rattle.mich_replay.specs.Pace.{PacesBehind, WritesBehind};
ghost use Rattle.mich_replay.specs.Opening.{GoesOnAs, IsOpened, IsOpenedFrom, PacesAs, ResumesAs};
ghost use Rattle.mich_replay.specs.Taken.{HasTaken, TakesBoth};
ghost use Rattle.mich_replay.specs.View.{status_in};

use crate::reading::read_file;
use crate::replaying::{refuse_as, replay_on};
use crate::session::Session;
use mich_base::Memory;
use mich_group::course::Course;
use mich_io::{Files, Sink, Stop, start};
use mich_snapshot::{LoadError, State, load};
use std::alloc::Global;

/// What comes of loading a snapshot: the course that goes on from its state, or why it is refused, at a place.
#[derive(Drop)]
pub enum Loaded {
    Course(Course),
    BadForm(u64),
    Unsound(u64),
}

// The course that goes on from a state.
fn course_of(state: State) -> Course
    ensures world { result.world ≡ state.world }
    ensures costs { result.costs ≡ state.costs }
    ensures groups { result.groups ≡ state.groups }
    ensures at_head { result.at_head ≡ not (state.costs_stood || state.started) }
{
    Course {
        world: state.world,
        costs: state.costs,
        groups: state.groups,
        at_head: !(state.costs_stood || state.started),
    }
}

// What comes of loading these bytes.
fn open(alloc: Global, bytes: &[u8]) -> Result<Loaded, Memory>
    ensures { IfOk result (IsOpened (loaded bytes.now)) }
{
    match load(alloc, bytes) {
        Ok(state) => Ok(Loaded::Course(course_of(state))),
        Err(LoadError::BadForm(place)) => Ok(Loaded::BadForm(place)),
        Err(LoadError::Unsound(place)) => Ok(Loaded::Unsound(place)),
        Err(LoadError::Memory) => Err(Memory),
    }
}

// What comes of loading a file.
fn open_file<F: Files>(alloc: Global, path: &str, files: &mut F) -> Result<Loaded, Stop>
    requires { Contains (F.lent files.old) path.now }
    ensures opened { IfOk result (IsOpenedFrom (F.content files.old path.now)) }
    ensures taken { OnOk result (HasTaken (F.content files.old path.now) (F.left files.new)) }
    ensures given_up { OnErr result ((F.left files.new ≡ F.left files.old) ⊎ HasTaken (F.content files.old path.now) (F.left files.new)) }
    ensures same { SameFiles (F.lent files.old) (F.lent files.new) (F.content files.old) (F.content files.new) }
    ensures no_write { IsErrOf result Stop.Write → ⊥ }
    ensures cause { HasCause Stop.Read (F.faults files.old) (F.faults files.new) result }
{
    let bytes = read_file(alloc, files, path)?;
    let loaded = open(alloc, bytes.as_slice())?;
    Ok(loaded)
}

// Goes on from a course with a file, and answers the status.
fn go_on<F: Files, K: Sink>(
    alloc: Global,
    course: Course,
    path: &str,
    files: &mut F,
    out: &mut K,
) -> Result<u8, Stop>
    requires path { Contains (F.lent files.old) path.now }
    requires follows { (p : PlainCourse) × GoesOnAs course p }
    ensures ends { (p : PlainCourse) → GoesOnAs course p
        → EndsAs (Some p) (F.content files.old path.now) (output (K.written out.old) (K.handed out.old)) (output (K.written out.new) (K.handed out.new)) result }
    ensures pace { (p : PlainCourse) → GoesOnAs course p
        → WritesBehind (Some p) (F.content files.old path.now) (F.left files.old) (F.left files.new) (K.written out.old) (K.written out.new) (status_in result) }
    ensures same { SameFiles (F.lent files.old) (F.lent files.new) (F.content files.old) (F.content files.new) }
    ensures end { IfOk result (λ status. status ≡ 0 → IsAtEnd (F.left files.new)) }
    ensures reads { HasCause Stop.Read (F.faults files.old) (F.faults files.new) result }
    ensures writes { HasCause Stop.Write (K.faults out.old) (K.faults out.new) result }
{
    start(files, path)?;
    let mut session = Session::behind(alloc, course)?;
    replay_on(alloc, &mut session, files, out)
}

// Goes on with a file from what a snapshot was loaded as, or writes why it was not, and answers the status.
fn resume_loaded<F: Files, K: Sink>(
    alloc: Global,
    loaded: Loaded,
    path: &str,
    files: &mut F,
    out: &mut K,
) -> Result<u8, Stop>
    requires path { Contains (F.lent files.old) path.now }
    requires opened { (found : Result PlainState LoadFault) × IsOpened found loaded }
    ensures resumes { ResumesAs loaded (F.content files.old path.now) (output (K.written out.old) (K.handed out.old)) (output (K.written out.new) (K.handed out.new)) result }
    ensures pace { PacesAs loaded (F.content files.old path.now) (F.left files.old) (F.left files.new) (K.written out.old) (K.written out.new) (status_in result) }
    ensures same { SameFiles (F.lent files.old) (F.lent files.new) (F.content files.old) (F.content files.new) }
    ensures end { IfOk result (λ status. status ≡ 0 → IsAtEnd (F.left files.new)) }
    ensures reads { HasCause Stop.Read (F.faults files.old) (F.faults files.new) result }
    ensures writes { HasCause Stop.Write (K.faults out.old) (K.faults out.new) result }
{
    match loaded {
        Loaded::Course(course) => go_on(alloc, course, path, files, out),
        Loaded::BadForm(place) => refuse_as(alloc, "BadForm", place, out),
        Loaded::Unsound(place) => refuse_as(alloc, "Unsound", place, out),
    }
}

/// Loads a snapshot and goes on from it with a file, or writes why it can't be loaded, and answers the status. Where it can't, the file isn't
/// read.
pub(crate) fn resume<F: Files, K: Sink>(
    alloc: Global,
    snapshot: &str,
    path: &str,
    files: &mut F,
    out: &mut K,
) -> Result<u8, Stop>
    requires snapshot { Contains (F.lent files.old) snapshot.now }
    requires path { Contains (F.lent files.old) path.now }
    ensures comes { Comes (Resuming snapshot.now path.now) (F.content files.old) (output (K.written out.old) (K.handed out.old)) (output (K.written out.new) (K.handed out.new)) result }
    ensures pace { PacesBehind (F.content files.old snapshot.now) (F.content files.old path.now) (F.left files.new)
        (K.written out.old) (K.written out.new) (status_in result) }
    ensures taken { TakesBoth (F.content files.old snapshot.now) (F.content files.old path.now) (F.left files.old) (F.left files.new)
        (K.written out.old) (K.written out.new) (status_in result) }
    ensures same { SameFiles (F.lent files.old) (F.lent files.new) (F.content files.old) (F.content files.new) }
    ensures end { IfOk result (λ status. status ≡ 0 → IsAtEnd (F.left files.new)) }
    ensures reads { HasCause Stop.Read (F.faults files.old) (F.faults files.new) result }
    ensures writes { HasCause Stop.Write (K.faults out.old) (K.faults out.new) result }
{
    let loaded = open_file(alloc, snapshot, files)?;
    resume_loaded(alloc, loaded, path, files, out)
}
