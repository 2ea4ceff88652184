// What is so of every world, mark and write.
ghost use Rattle.mich_world.specs.Laws.{MarksStay, MarksComeBack, SuppliesAgree, BalancesAgree, MovesAgree, FeesAgree};

/// Each mark that is good stays good after every write, and the world at it stays the same.
pub fn marks_stay()
    ensures { MarksStay }
{}

/// Whatever writes came since, the world at its mark is the world that was marked.
pub fn marks_come_back()
    ensures { MarksComeBack }
{}

/// All balances and the fees are those of the world that a world stands for.
pub fn supplies_agree()
    ensures { SuppliesAgree }
{}

/// The balance at each place is that in the world that a world stands for.
pub fn balances_agree()
    ensures { BalancesAgree }
{}

/// After a move of mutez a world stands for the world after the same move.
pub fn moves_agree()
    ensures { MovesAgree }
{}

/// After a fee a world stands for the world after the same fee.
pub fn fees_agree()
    ensures { FeesAgree }
{}
