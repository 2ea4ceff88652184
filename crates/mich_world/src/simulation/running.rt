// What code does to a world, and what stays settled.
ghost use Rattle.mich_world.specs.simulation.Laws.{RunsBegin, RunsGoOn, LedgersRun, StoresRun, MovesKeepStored, FeesKeepStored, GrantsKeepStored, PaymentsKeepStored, RunsKeepStored};

/// Code that did nothing did nothing to a world.
pub fn runs_begin()
    ensures { RunsBegin }
{}

/// What code does in two parts it does to a world, one after the other.
pub fn runs_go_on()
    ensures { RunsGoOn }
{}

/// Code may tell the ledger of a world changes.
pub fn ledgers_run()
    ensures { LedgersRun }
{}

/// Code may add bases to the store of a world.
pub fn stores_run()
    ensures { StoresRun }
{}

/// After a move of mutez each big map of a storage is settled still.
pub fn moves_keep_stored()
    ensures { MovesKeepStored }
{}

/// The same of a fee.
pub fn fees_keep_stored()
    ensures { FeesKeepStored }
{}

/// The same of a grant.
pub fn grants_keep_stored()
    ensures { GrantsKeepStored }
{}

/// The same of what is burnt for storage.
pub fn payments_keep_stored()
    ensures { PaymentsKeepStored }
{}

/// The same of what code does.
pub fn runs_keep_stored()
    ensures { RunsKeepStored }
{}
