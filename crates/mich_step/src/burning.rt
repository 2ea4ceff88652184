//! Groups of instructions that burn tickets, over the ledger.
ghost use Rattle.std.specs.Prelude.{◌≡◌, [], false, IfOk, map};
ghost use Rattle.mich_base.specs.undo.History.{Keeps as KeepsBooks};
ghost use Rattle.rules_code.specs.steps.Changes.{burns};
ghost use Rattle.rules_code.specs.steps.Collections.{collection_step};
ghost use Rattle.rules_code.specs.steps.Stack.{pair_step, stack_step};
ghost use Rattle.mich_overload.specs.View.{collection_row, pair_row, stack_row};
ghost use Rattle.mich_overload.specs.Steps.{is_on_big_map};
ghost use Rattle.mich_term.specs.TicketView.{held};
ghost use Rattle.mich_stack.specs.Views.{plain};
ghost use Rattle.mich_stack.specs.Ends.{Fits, gone};
ghost use Rattle.mich_step.specs.collections.Keys.{SuitsCollections};
ghost use Rattle.mich_tickets.specs.Effects.{Tells};
ghost use Rattle.mich_tickets.specs.Limits.{IsReady};
ghost use Rattle.mich_step.specs.Ends.{SuitsStack};
ghost use Rattle.mich_step.specs.Tells.{Steps, TellsShown};

use crate::collections::collection_step;
use crate::order::stack_step;
use crate::pairs::pair_step;
use mich_base::{Memory, Rows};
use mich_overload::{CollectionRow, PairRow, StackRow};
use mich_stack::StepError;
use mich_term::{Ticket, Value};
use mich_tickets::{Collector, Ledger};
use std::alloc::Global;

/// Burns tickets, the first before those behind it. After Memory the ledger is given up, and what was written to it can be taken back
/// (Octez "Tickets").
#[tactic(auto, using(mich_base::proofs::undo_lemmas::ForCallers::keeps_same, mich_base::proofs::undo_lemmas::ForCallers::keeps_trans, crate::proofs::Ledgers::tells_same))]
pub fn burn_all(alloc: Global, ledger: &mut Ledger, tickets: Rows<Ticket>) -> Result<(), Memory>
    requires { IsReady ledger.old.books.present (map held tickets) }
    ensures tells { IfOk result (λ _. Tells (burns (map held tickets)) ledger.old ledger.new) }
    ensures keeps { KeepsBooks ledger.old.books ledger.new.books }
{
    for ticket in tickets.into_vec() {
        ledger.burn(alloc, ticket)?;
    }
    Ok(())
}

// Nobody is told yet.
fn collector(alloc: Global) -> Collector
    ensures { result.tickets ≡ [] }
{
    Collector {
        tickets: Rows::new(alloc),
    }
}

#[tactic(auto, using(mich_base::proofs::undo_lemmas::ForCallers::keeps_same))]
pub(crate) fn order(
    alloc: Global,
    row: &StackRow,
    stack: &mut Rows<Value>,
    ledger: &mut Ledger,
) -> Result<(), StepError>
    requires fits { Fits (stack_step (stack_row row.now)) stack.old }
    requires suits { SuitsStack (stack_row row.now) (plain stack.old) }
    requires ready { IsReady ledger.old.books.present (gone (stack_step (stack_row row.now) (plain stack.old))) }
    ensures ends { Steps (stack_step (stack_row row.now)) stack.old stack.new result }
    ensures tells { IfOk result (λ _. TellsShown (stack_step (stack_row row.now)) stack.old ledger.old ledger.new) }
    ensures keeps { KeepsBooks ledger.old.books ledger.new.books }
{
    let mut told = collector(alloc);
    match stack_step(alloc, row, stack, &mut told) {
        Ok(()) => {
            burn_all(alloc, ledger, told.tickets)?;
            Ok(())
        }
        Err(error) => Err(error),
    }
}

/// What an instruction on pairs makes of a stack that it fits; the tickets that it discards are burnt, in order. After Memory the ledger is
/// given up, and what was written to it can be taken back.
#[tactic(auto, using(mich_base::proofs::undo_lemmas::ForCallers::keeps_same))]
pub fn pairs(
    alloc: Global,
    row: &PairRow,
    stack: &mut Rows<Value>,
    ledger: &mut Ledger,
) -> Result<(), StepError>
    requires fits { Fits (pair_step (pair_row row.now)) stack.old }
    requires ready { IsReady ledger.old.books.present (gone (pair_step (pair_row row.now) (plain stack.old))) }
    ensures ends { Steps (pair_step (pair_row row.now)) stack.old stack.new result }
    ensures tells { IfOk result (λ _. TellsShown (pair_step (pair_row row.now)) stack.old ledger.old ledger.new) }
    ensures keeps { KeepsBooks ledger.old.books ledger.new.books }
{
    let mut told = collector(alloc);
    match pair_step(alloc, row, stack, &mut told) {
        Ok(()) => {
            burn_all(alloc, ledger, told.tickets)?;
            Ok(())
        }
        Err(error) => Err(error),
    }
}

#[tactic(auto, using(mich_base::proofs::undo_lemmas::ForCallers::keeps_same))]
pub(crate) fn collections(
    alloc: Global,
    row: &CollectionRow,
    stack: &mut Rows<Value>,
    ledger: &mut Ledger,
) -> Result<(), StepError>
    requires no_big_map { is_on_big_map (collection_row row.now) ≡ false }
    requires fits { Fits (collection_step (collection_row row.now)) stack.old }
    requires suits { SuitsCollections (collection_row row.now) (plain stack.old) }
    requires ready { IsReady ledger.old.books.present (gone (collection_step (collection_row row.now) (plain stack.old))) }
    ensures ends { Steps (collection_step (collection_row row.now)) stack.old stack.new result }
    ensures tells { IfOk result (λ _. TellsShown (collection_step (collection_row row.now)) stack.old ledger.old ledger.new) }
    ensures keeps { KeepsBooks ledger.old.books ledger.new.books }
{
    let mut told = collector(alloc);
    match collection_step(alloc, row, stack, &mut told) {
        Ok(()) => {
            burn_all(alloc, ledger, told.tickets)?;
            Ok(())
        }
        Err(error) => Err(error),
    }
}
