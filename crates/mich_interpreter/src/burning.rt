// Tickets that are discarded.
ghost use Rattle.std.specs.Prelude.{IfOk};
ghost use Rattle.rules_code.specs.steps.Changes.{burns};
ghost use Rattle.rules_data.specs.values.Tickets.{tickets};
ghost use Rattle.mich_term.specs.ValueView.{val};
ghost use Rattle.mich_tickets.specs.Effects.{Tells};
ghost use Rattle.mich_tickets.specs.Limits.{IsReady};
ghost use Rattle.mich_base.specs.undo.History.{Keeps};

use mich_base::{Memory, Rows};
use mich_step::burn_all;
use mich_term::{Value, discard};
use mich_tickets::{Collector, Ledger};
use std::alloc::Global;

// Burns the tickets of a value that is discarded, parts from left to right and entries by key.
#[tactic(auto, using(mich_base::proofs::undo_lemmas::ForCallers::keeps_same))]
pub(crate) fn burn_value(alloc: Global, ledger: &mut Ledger, value: Value) -> Result<(), Memory>
    requires { IsReady ledger.old.books.present (tickets (val value)) }
    ensures tells { IfOk result (λ _. Tells (burns (tickets (val value))) ledger.old ledger.new) }
    ensures keeps { Keeps ledger.old.books ledger.new.books }
{
    let mut told = Collector {
        tickets: Rows::new(alloc),
    };
    discard(alloc, value, &mut told)?;
    burn_all(alloc, ledger, told.tickets)
}
