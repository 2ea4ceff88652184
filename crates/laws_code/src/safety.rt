//! The law that typed code is never stuck: its evaluation always has a failure or a stack of the types that typing gives.
ghost use Rattle.laws_code.specs.evaluation.Laws.{NeverStuck};
ghost use Rattle.laws_code.specs.safety.Laws.{CodeLeavesWell};

/// Code that is typed is never stuck. The stack that comes out has the types that typing gives and values that fit them,
/// and none comes out of code that fails (Michelson reference, "Semantics" and "Typing"; Octez "Tickets").
pub fn never_stuck()
    ensures { NeverStuck }
{}

/// The operations that code issues hand over values of their types, and its changes of tickets have their form
/// (Michelson reference, "Operations on contracts"; Octez "Tickets").
pub fn code_leaves_well()
    ensures { CodeLeavesWell }
{}
