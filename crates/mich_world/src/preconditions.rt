//! Laws: a good world gives the calls on the world that stands for it what they ask.
ghost use Rattle.mich_world.specs.preconditions.Laws.{TransfersMayRun, OriginationsMayRun, PlainValuesMayRun, GiftsMayRun, MovesLeaveRoom, CreditsFit, InstallsFit, CommitsFit};

/// There is room for what a transfer that waits hands over (Octez "Tickets").
pub fn transfers_may_run()
    ensures { TransfersMayRun }
{}

/// There is room for the storage of an origination that waits.
pub fn originations_may_run()
    ensures { OriginationsMayRun }
{}

/// There is room for a value without tickets.
pub fn plain_values_may_run()
    ensures { PlainValuesMayRun }
{}

/// There is room for a ticket that was taken from an account.
pub fn gifts_may_run()
    ensures { GiftsMayRun }
{}

/// A move of mutez leaves as much room.
pub fn moves_leave_room()
    ensures { MovesLeaveRoom }
{}

/// A ticket that there is room for may come to an account.
pub fn credits_fit()
    ensures { CreditsFit }
{}

/// The tickets in a storage that there is room for may come to a contract.
pub fn installs_fit()
    ensures { InstallsFit }
{}

/// The storage that a run leaves may be kept (Octez "Tickets").
pub fn commits_fit()
    ensures { CommitsFit }
{}
