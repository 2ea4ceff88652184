//! Laws of tickets: evaluation, and a run of a contract, neither make nor lose a ticket but by minting and burning.
ghost use Rattle.laws_code.specs.evaluation.Laws.{LinearTickets};
ghost use Rattle.rules_world.specs.world.RunLaws.{RunsKeepTickets};
ghost use Rattle.laws_tickets.specs.runs.Laws.{EvaluationKeepsTotals, TicketsAreLinear};

/// What is on the stack and in issued operations, with what was burnt and less what was minted, stays as it is, whatever
/// code is evaluated (Octez "Tickets").
pub fn evaluation_keeps_totals()
    ensures { EvaluationKeepsTotals }
{}

/// Typed code on values of its types neither makes nor loses a ticket but by minting and burning: tickets are on the stack, or on
/// their way with operations (Octez "Tickets").
pub fn typed_code_keeps_tickets()
    ensures { LinearTickets }
{}

/// A run of a contract that comes to its end keeps the tickets of each identity: those in the argument, in the storage
/// before it and the minted ones are those in the storage behind it, in the returned operations and the burnt ones
/// (Octez "Tickets").
pub fn tickets_are_linear()
    ensures { TicketsAreLinear }
{}

/// The same, as a law of the runs of contracts.
pub fn runs_keep_tickets()
    ensures { RunsKeepTickets }
{}
