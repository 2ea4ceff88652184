// One statement of a file, behind others or as the first.
ghost use Rattle.std.specs.Prelude.{◌≡◌, ◌<◌, ◌^◌, ℕ, List, Option, Some, OnOk};
ghost use Rattle.rules_text.specs.nodes.Tree.{size};
ghost use Rattle.rules_files.specs.course.Course.{Course as PlainCourse};
ghost use Rattle.rules_files.specs.course.Ranges.{IsStatement};
ghost use Rattle.rules_files.specs.commands.Replay.{step};
ghost use Rattle.rules_files.specs.statements.Statements.{form};
ghost use Rattle.rules_world.specs.world.Receipts.{Receipt};
ghost use Rattle.mich_base.specs.View.{tree};
ghost use Rattle.mich_scenario.specs.View.{said};
ghost use Rattle.mich_replay.specs.Marks.{marked};
ghost use Rattle.mich_replay.specs.Steps.{FollowsIf, HasRoom, Leads, Stands, Takes, groups_of};

use crate::outcome::FileFault;
use crate::progress::Progress;
use mich_base::{Memory, Node};
use mich_group::course::{Course, CourseError, begin};
use mich_machine::Bodies;
use mich_ops::GroupReceipt;
use mich_scenario::{FormError, Statement, take_form};
use std::alloc::Global;

// Goes on with a statement, or begins with it.
fn go_on(
    alloc: Global,
    course: &mut Option<Course>,
    bodies: &mut Bodies,
    statement: &Statement,
) -> Result<Option<GroupReceipt>, CourseError>
    requires follows { (p : Option PlainCourse) × FollowsIf course.old p }
    requires room { HasRoom course.old }
    requires ranges { IsStatement (said statement.now) }
    ensures { (p : Option PlainCourse) → FollowsIf course.old p → Leads (step p (said statement.entry.now)) course.new result }
{
    match course {
        None => {
            *course = Some(begin(alloc, statement)?);
            Ok(None)
        }
        Some(found) => found.take(alloc, statement, bodies),
    }
}

/// What a replay comes to next.
#[derive(Drop)]
pub enum Event {
    /// A statement was taken of which nothing is told.
    Taken,
    /// A group was, with this receipt.
    Group(GroupReceipt),
    /// No statement stands before more is fed.
    More,
    /// The file ends.
    End,
    /// The file is refused, at a place.
    Refused(FileFault, u64),
}

// Goes on with a statement at a place.
fn step(
    alloc: Global,
    course: &mut Option<Course>,
    bodies: &mut Bodies,
    place: u64,
    statement: &Statement,
) -> Result<Event, Memory>
    requires stands { (groups : ℕ) × (receipts : List Receipt) × (p : Option PlainCourse) × Stands groups receipts p course.old }
    requires room { HasRoom course.old }
    requires ranges { IsStatement (said statement.now) }
    ensures { Takes place (Some (said statement.entry.now)) course.old course.new result }
{
    match go_on(alloc, course, bodies, statement) {
        Ok(None) => Ok(Event::Taken),
        Ok(Some(receipt)) => Ok(Event::Group(receipt)),
        Err(CourseError::BadOrder) => Ok(Event::Refused(FileFault::BadOrder, place)),
        Err(CourseError::BadCosts) => Ok(Event::Refused(FileFault::BadCosts, place)),
        Err(CourseError::RepeatedAccount) => Ok(Event::Refused(FileFault::RepeatedAccount, place)),
        Err(CourseError::SupplyLimit) => Ok(Event::Refused(FileFault::SupplyLimit, place)),
        Err(CourseError::Memory) => Err(Memory),
    }
}

/// Takes a node at a place as the next statement: the course goes on, with the receipt of a group, or it is why the file is refused.
/// After Memory all is given up.
pub(crate) fn take(
    alloc: Global,
    progress: &mut Progress,
    bodies: &mut Bodies,
    place: u64,
    node: Node,
) -> Result<Event, Memory>
    requires stands { (groups : ℕ) × (receipts : List Receipt) × (p : Option PlainCourse) × Stands groups receipts p progress.old.course }
    requires room { HasRoom progress.old.course }
    requires small { size (tree node) < 2 ^ 32 }
    ensures takes { Takes place (form (tree node)) progress.old.course progress.new.course result }
    ensures marks { OnOk result (progress.new.marks ≡ marked progress.old.marks (form (tree node))) }
{
    match take_form(alloc, node) {
        Ok(statement) => {
            progress.marks.add(&statement);
            step(alloc, &mut progress.course, bodies, place, &statement)
        }
        Err(FormError::BadStatement) => Ok(Event::Refused(FileFault::BadStatement, place)),
        Err(FormError::Memory) => Err(Memory),
    }
}

/// The number of the last group.
pub(crate) fn last_number(course: &Option<Course>) -> u64
    ensures { result ≡ groups_of course.now }
{
    match course {
        None => 0,
        Some(found) => found.groups,
    }
}
