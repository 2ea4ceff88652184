// What a run issued and doesn't return is discarded.
ghost use Rattle.std.specs.Prelude.{◌≡◌, ◌++◌, IfOk, map};
ghost use Rattle.std.specs.Map.{values_of};
ghost use Rattle.rules_code.specs.evaluation.Operations.{operation_tickets};
ghost use Rattle.rules_code.specs.steps.Changes.{burns};
ghost use Rattle.mich_ops.specs.Issued.{issued};
ghost use Rattle.mich_term.specs.TicketView.{held};
ghost use Rattle.mich_tickets.specs.Effects.{Tells};
ghost use Rattle.mich_tickets.specs.Limits.{IsReady};
ghost use Rattle.mich_base.specs.undo.History.{Keeps};
ghost use Rattle.mich_machine.specs.Returned.{handed};

use crate::returning::Numbered;
use mich_base::{Memory, Rows};
use mich_ops::Issued;
use mich_step::burn_all;
use mich_term::{Ticket, discard};
use mich_tickets::{Collector, Ledger};
use std::alloc::Global;

// The tickets of an operation are told.
fn discard_operation(alloc: Global, operation: Issued, told: &mut Collector) -> Result<(), Memory>
    ensures { IfOk result (λ _. map held told.new.tickets ≡ map held told.old.tickets ++ operation_tickets (issued operation).operation) }
{
    match operation {
        Issued::Transfer { argument, .. } => discard(alloc, argument, told),
        Issued::Origination { storage, .. } => discard(alloc, storage, told),
        Issued::Event { value, .. } => discard(alloc, value, told),
    }
}

// Those of several operations, in the order of their numbers.
fn discard_all(alloc: Global, operations: Numbered) -> Result<Rows<Ticket>, Memory>
    ensures { IfOk result (λ ts. map held ts ≡ handed (values_of operations.entries)) }
{
    let mut told = Collector {
        tickets: Rows::new(alloc),
    };
    for (_, operation) in operations {
        discard_operation(alloc, operation, &mut told)?;
    }
    Ok(told.tickets)
}

// Burns the tickets of operations that are discarded, in the order of their numbers.
#[tactic(auto, using(mich_base::proofs::undo_lemmas::ForCallers::keeps_same))]
pub(crate) fn burn_discarded(
    alloc: Global,
    ledger: &mut Ledger,
    operations: Numbered,
) -> Result<(), Memory>
    requires { IsReady ledger.old.books.present (handed (values_of operations.entries)) }
    ensures tells { IfOk result (λ _. Tells (burns (handed (values_of operations.entries))) ledger.old ledger.new) }
    ensures keeps { Keeps ledger.old.books ledger.new.books }
{
    let tickets = discard_all(alloc, operations)?;
    burn_all(alloc, ledger, tickets)
}
