// What a world stands for after each call.
ghost use Rattle.mich_world.specs.simulation.Laws.{NewWorldsAgree, ClocksAgree, RatesAgree, PaymentsAgree, ContractsAgree, AccountsAgree, ReceiversAgree, GrantsAgree, InstallsAgree, CommitsAgree, RunsAgree, RunEndsAgree, CreditsAgree, DebitsAgree, CreditsMakeAccounts, SameWorldsAgree, MarksAgree, KeepingAgrees};

/// A world of nobody stands for a new one.
pub fn new_worlds_agree()
    ensures { NewWorldsAgree }
{}

/// After the clock is set a world stands for that with this clock.
pub fn clocks_agree()
    ensures { ClocksAgree }
{}

/// After the rate is set a world stands for that with this rate.
pub fn rates_agree()
    ensures { RatesAgree }
{}

/// After a contract has paid for its size a world stands for that in which it has (Octez "Operations", storage fees and burn).
pub fn payments_agree()
    ensures { PaymentsAgree }
{}

/// A grant answers what the rules say, and a world stands for that after it.
pub fn grants_agree()
    ensures { GrantsAgree }
{}

/// After a contract is made a world stands for that with the contract (Octez "Operations", originations).
pub fn installs_agree()
    ensures { InstallsAgree }
{}

/// After a contract has a new storage a world stands for that with this storage.
pub fn commits_agree()
    ensures { CommitsAgree }
{}

/// A world that code has changed stands for that with the changes of tickets at the end of the log.
pub fn runs_agree()
    ensures { RunsAgree }
{}

/// After the run of a contract a world stands for that with the new storage, and with the changes at the end of the log (Octez
/// "Operations", transactions).
pub fn run_ends_agree()
    ensures { RunEndsAgree }
{}

/// After a ticket came to an account a world stands for that in which the account holds it (Octez "Tickets").
pub fn credits_agree()
    ensures { CreditsAgree }
{}

/// After a ticket went from an account a world stands for that in which the account holds it no more (Octez "Tickets").
pub fn debits_agree()
    ensures { DebitsAgree }
{}

/// An account that a move of no mutez makes holds a ticket as if the ticket had made it.
pub fn credits_make_accounts()
    ensures { CreditsMakeAccounts }
{}

/// Worlds that are the same stand for the same.
pub fn same_worlds_agree()
    ensures { SameWorldsAgree }
{}

/// A world that is taken back to a mark stands for what it stood for there.
pub fn marks_agree()
    ensures { MarksAgree }
{}

/// The end of all marks leaves what a world stands for.
pub fn keeping_agrees()
    ensures { KeepingAgrees }
{}

/// A contract of a world stands for that of the world that it stands for.
pub fn contracts_agree()
    ensures { ContractsAgree }
{}

/// An account of a world has the balance that it has in the world that it stands for.
pub fn accounts_agree()
    ensures { AccountsAgree }
{}

/// Mutez may come to a place exactly where it is an account's, or a contract's that is there.
pub fn receivers_agree()
    ensures { ReceiversAgree }
{}
