//! Laws of evaluation: it is what its own step says, gas only falls, and the contracts that code makes are new.
ghost use Rattle.laws_code.specs.evaluation.Laws.{GasFalls, IsItsStep};
ghost use Rattle.laws_code.specs.evaluation.Origins.{OriginationsAreNew};

/// Where each kind costs something, the evaluation is what its own step says, with itself for what is left.
pub fn evaluation_is_its_step()
    ensures { IsItsStep }
{}

/// Where each kind costs something, no outcome has more gas than there was.
pub fn gas_falls()
    ensures { GasFalls }
{}

/// Each contract that code makes has a number of its own in its group.
pub fn originations_are_new()
    ensures { OriginationsAreNew }
{}
