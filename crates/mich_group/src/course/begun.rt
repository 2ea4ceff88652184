// The first statement of a file.
ghost use Rattle.rules_files.specs.course.Course.{first_step};
ghost use Rattle.rules_files.specs.course.Ranges.{IsStatement};
ghost use Rattle.mich_group.specs.course.Following.{Begins};
ghost use Rattle.mich_scenario.specs.View.{said};

use crate::course::course::Course;
use crate::course::error::CourseError;
use mich_gas::Costs;
use mich_scenario::Statement;
use mich_world::World;
use std::alloc::Global;

/// The course that a file's first statement begins: that of a chain, whose world is empty. BadOrder exactly where it is another
/// statement (this host's own).
pub fn begin(alloc: Global, statement: &Statement) -> Result<Course, CourseError>
    requires { IsStatement (said statement.now) }
    ensures { Begins (first_step (said statement.now)) result }
{
    match statement {
        Statement::Chain(id, level, moment) => Ok(Course {
            world: World::new(alloc, *id, *level, *moment),
            costs: Costs::standard(),
            groups: 0,
            at_head: true,
        }),
        _ => Err(CourseError::BadOrder),
    }
}
