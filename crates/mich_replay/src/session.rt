// A replay that goes on as the bytes of its file come.
ghost use Rattle.std.specs.Prelude.{◌<◌, ◌++◌, ◌^◌, ℕ, List, [], Bool, false, None, Some, Option, IfOk, OnOk};
ghost use Rattle.rules_files.specs.course.Course.{Course as PlainCourse};
ghost use Rattle.rules_world.specs.world.Receipts.{Receipt};
ghost use Rattle.mich_group.specs.course.Following.{Follows};
ghost use Rattle.mich_replay.specs.Coming.{CameTo, HappensTo, MayGoOn};

use crate::outcome::FileFault;
use crate::progress::{Marks, Progress};
use crate::steps::{Event, take};
use mich_base::Memory;
use mich_group::course::Course;
use mich_machine::Bodies;
use mich_text::TextError;
use mich_text::pieces::{Next, Reader};
use std::alloc::Global;

/// A replay of a file that comes in pieces: the reader of its text, how far it has come, and the bodies that were tried.
#[derive(Drop)]
pub struct Session {
    pub reader: Reader,
    pub progress: Progress,
    pub bodies: Bodies,
}

// A replay that was fed nothing, behind a course or as that of a whole file.
fn fresh(alloc: Global, course: Option<Course>) -> Result<Session, Memory>
    ensures { (from : Option PlainCourse) → MayGoOn from course → IfOk result (λ s. CameTo from [] false s []) }
{
    Ok(Session {
        reader: Reader::new(alloc),
        progress: Progress {
            course,
            marks: Marks::none(),
        },
        bodies: Bodies::new(alloc)?,
    })
}

impl Session {
    /// A replay of a whole file that was fed nothing.
    pub(crate) fn new(alloc: Global) -> Result<Session, Memory>
        ensures { IfOk result (λ s. CameTo None [] false s []) }
    {
        fresh(alloc, None)
    }

    /// A replay that goes on from a course, and was fed nothing.
    pub(crate) fn behind(alloc: Global, course: Course) -> Result<Session, Memory>
        ensures { (p : PlainCourse) → Follows course p → p.groups < 2 ^ 63 → IfOk result (λ s. CameTo (Some p) [] false s []) }
    {
        fresh(alloc, Some(course))
    }

    /// Feeds a piece, of which none comes behind the last one.
    pub(crate) fn feed(&mut self, piece: &[u8]) -> Result<(), Memory>
        requires { (from : Option PlainCourse) × (fed : List ℕ) × (receipts : List Receipt) × CameTo from fed false self.old receipts }
        ensures { (from : Option PlainCourse) (fed : List ℕ) (receipts : List Receipt) (last : Bool) → CameTo from fed false self.old receipts
            → OnOk result (CameTo from (fed ++ piece.now) last self.new receipts) }
    {
        self.reader.feed(piece)?;
        Ok(())
    }

    /// Takes the next statement, where its `;` was fed or nothing more comes. After Memory all is given up.
    pub(crate) fn next(&mut self, alloc: Global, last: bool) -> Result<Event, Memory>
        requires { (from : Option PlainCourse) × (fed : List ℕ) × (receipts : List Receipt) × CameTo from fed last self.old receipts }
        ensures { (from : Option PlainCourse) (fed : List ℕ) (receipts : List Receipt) → CameTo from fed last self.old receipts
            → HappensTo from fed last receipts self.old self.new result }
    {
        match self.reader.next(last) {
            Ok(Next::Placed(placed)) => take(
                alloc,
                &mut self.progress,
                &mut self.bodies,
                placed.start,
                placed.node,
            ),
            Ok(Next::More) => Ok(Event::More),
            Ok(Next::End) => Ok(Event::End),
            Err(TextError::Fault(kind, at)) => Ok(Event::Refused(FileFault::Text(kind), at)),
            Err(TextError::Memory) => Err(Memory),
        }
    }
}
