// How far a file has come.
ghost use Rattle.std.specs.Prelude.{◌≡◌, Some, false};
ghost use Rattle.mich_scenario.specs.View.{said};
ghost use Rattle.mich_replay.specs.Marks.{marked};

use mich_group::course::Course;
use mich_scenario::Statement;

/// Which statements stood: a table of prices; an account, a block or a group.
#[derive(Clone, Copy, Debug)]
pub struct Marks {
    pub costs_stood: bool,
    pub started: bool,
}

/// The course that a file has come to, if any, and which statements stood in it.
#[derive(Drop)]
pub struct Progress {
    pub course: Option<Course>,
    pub marks: Marks,
}

// Behind a statement.
fn marked(marks: Marks, statement: &Statement) -> Marks
    ensures { result ≡ marked marks (Some (said statement.now)) }
{
    match statement {
        Statement::Chain(_, _, _) | Statement::Profile(_) => marks,
        Statement::Costs(_) => Marks {
            costs_stood: true,
            started: marks.started,
        },
        Statement::Account(_, _) | Statement::Block(_, _) | Statement::Group(_) => Marks {
            costs_stood: marks.costs_stood,
            started: true,
        },
    }
}

impl Marks {
    /// None stood yet.
    pub(crate) fn none() -> Marks
        ensures costs { result.costs_stood ≡ false }
        ensures started { result.started ≡ false }
    {
        Marks {
            costs_stood: false,
            started: false,
        }
    }

    /// One more statement stands.
    pub(crate) fn add(&mut self, statement: &Statement)
        ensures { self.new ≡ marked self.old (Some (said statement.now)) }
    {
        *self = marked(*self, statement);
    }
}
