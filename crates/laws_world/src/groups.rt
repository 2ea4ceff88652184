//! Laws of groups of operations: they come to an end, keep good worlds good, conserve mutez and tickets, and are all or nothing.
ghost use Rattle.rules_world.specs.world.Laws.{
  FailedGroupsMoveFees,
  GrantsAddMutez,
  GroupsConserveMutez,
  GroupsKeepGood,
  GroupsSettle,
  RefusedGroupsMoveNothing,
  TicketsBalance,
};
ghost use Rattle.rules_world.specs.world.RunLaws.{RunsEnd};
ghost use Rattle.laws_world.specs.operations.NewOperations.{OperationsAreNew};
ghost use Rattle.laws_world.specs.runs.RunEnds.{RunsEndWell};
ghost use Rattle.laws_world.specs.accounts.Texts.{TextsTellTypes};
ghost use Rattle.laws_world.specs.runs.Worlds.{GrantsKeepGood, GroupsKeepWhole, NewWorldsAreGood};

/// Accepted code is never stuck, in any good world (Michelson reference, "Semantics of smart contracts and transactions").
pub fn runs_end()
    ensures { RunsEnd }
{}

/// The run of a contract in a good world leaves a storage and operations of their types, and neither makes nor loses a ticket
/// but by minting and burning (Octez "Tickets").
pub fn runs_end_well()
    ensures { RunsEndWell }
{}

/// The operations that a run issues have numbers and contracts of their own (Octez "Operations", internal operations).
pub fn operations_are_new()
    ensures { OperationsAreNew }
{}

/// A group of a good world always comes to an end.
pub fn groups_settle()
    ensures { GroupsSettle }
{}

/// A good world stays good.
pub fn groups_keep_good()
    ensures { GroupsKeepGood }
{}

/// Mutez is conserved by groups.
pub fn groups_conserve_mutez()
    ensures { GroupsConserveMutez }
{}

/// Grants alone add mutez.
pub fn grants_add_mutez()
    ensures { GrantsAddMutez }
{}

/// All tickets that owners hold are what was minted less what was burnt (Octez "Tickets").
pub fn tickets_balance()
    ensures { TicketsBalance }
{}

/// A group with a content that failed moves its fees, and nothing else.
pub fn failed_groups_move_fees()
    ensures { FailedGroupsMoveFees }
{}

/// A group that is refused moves nothing.
pub fn refused_groups_move_nothing()
    ensures { RefusedGroupsMoveNothing }
{}

/// Types are told by their texts, so that the order of tickets tells tickets apart.
pub fn texts_tell_types()
    ensures { TextsTellTypes }
{}

/// A new world is good, and no group has made a contract in it.
pub fn new_worlds_are_good()
    ensures { NewWorldsAreGood }
{}

/// A grant keeps a good world good, and all mutez are those that were granted.
pub fn grants_keep_good()
    ensures { GrantsKeepGood }
{}

/// So does a group, and no group of another number has made a contract behind it if none had before it.
pub fn groups_keep_whole()
    ensures { GroupsKeepWhole }
{}
