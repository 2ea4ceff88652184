//! Laws of what a file reaches: it is a state that can be saved and is loaded again.
ghost use Rattle.laws_commands.specs.reached.Counted.{LiteralsAreCounted, RunsAreCounted, StepsAreCounted};
ghost use Rattle.laws_commands.specs.reached.Reached.{ListsAreCounted, ReachedAreSound};

/// A list in the value of a literal has no more items than the literal has nodes (Michelson reference, "Types").
pub fn literals_are_counted()
    ensures { LiteralsAreCounted }
{}

/// An instruction without bodies makes lists longer by one item at most (Michelson reference, "Instructions").
pub fn steps_are_counted()
    ensures { StepsAreCounted }
{}

/// Code makes lists longer by one item at most for each unit of gas (Michelson reference, "Semantics").
pub fn runs_are_counted()
    ensures { RunsAreCounted }
{}

/// Behind the statements of a file lists in storages can be counted in eight bytes: each item was read of the file, or cost gas.
pub fn lists_are_counted()
    ensures { ListsAreCounted }
{}

/// The state that a file comes to is sound and has a spelling, where it can be saved and isn't too long for a snapshot.
pub fn reached_are_sound()
    ensures { ReachedAreSound }
{}
