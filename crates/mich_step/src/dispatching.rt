// One instruction without bodies.
ghost use Rattle.std.specs.Prelude.{◌≡◌, ℤ, true, flat_map, IfOk};
ghost use Rattle.mich_base.specs.undo.History.{Keeps as KeepsBooks};
ghost use Rattle.rules_data.specs.values.Tickets.{Identity, tickets};
ghost use Rattle.mich_overload.specs.Steps.{in_step};
ghost use Rattle.mich_overload.specs.View.{straight};
ghost use Rattle.mich_stack.specs.Views.{plain};
ghost use Rattle.mich_stack.specs.Ends.{Fits, Keeps};
ghost use Rattle.mich_tickets.specs.Limits.{IsReady};
ghost use Rattle.mich_step.specs.Rule.{IsQuiet, Suits, rule};
ghost use Rattle.mich_step.specs.Tells.{Steps, TellsShown, simple_rule};
ghost use Rattle.mich_step.specs.Views.{environment};

use crate::burning::{collections, order, pairs};
use crate::collections::text_step;
use crate::environment::{Env, environment_step};
use crate::logic::logic_step;
use crate::numbers::number_step;
use crate::operations::operation_step;
use crate::tickets::ticket_step;
use crate::unions::union_step;
use mich_base::Rows;
use mich_overload::Simple;
use mich_stack::StepError;
use mich_term::Value;
use mich_tickets::Ledger;
use std::alloc::Global;

// An instruction that burns and mints nothing.
fn quiet(alloc: Global, instr: &Simple, stack: &mut Rows<Value>, env: &Env) -> Result<(), StepError>
    requires in_step { in_step (straight instr.now) ≡ true }
    requires no_change { IsQuiet (straight instr.now) }
    requires fits { (total : Identity → ℤ) × Fits (rule (environment env.now) total (straight instr.now)) stack.old }
    requires suits { Suits (straight instr.now) (plain stack.old) }
    ensures { (total : Identity → ℤ) → Keeps (rule (environment env.entry.now) total (straight instr.now)) stack.old stack.new result }
{
    match instr {
        Simple::Unions(row) => union_step(alloc, row, stack),
        Simple::Numbers(row) => number_step(alloc, row, stack),
        Simple::Logic(row) => logic_step(row, stack),
        Simple::Texts(row) => text_step(alloc, row, stack),
        Simple::Environment(row) => environment_step(alloc, env, row, stack),
        Simple::Operations(row) => operation_step(alloc, row, stack),
        Simple::Stack(_) | Simple::Pairs(_) | Simple::Collections(_) => unreachable!(),
        Simple::Hashes(_) | Simple::Tickets(_) => unreachable!(),
    }
}

/// What an instruction without bodies makes of a stack and of a ledger of tickets, where and for whom code runs. Failed exactly
/// where its rule fails; after that and after Memory stack and ledger are given up, and what was written to the ledger can be taken
/// back. Not for instructions that pack, hash, look up or issue, or work on big maps (Michelson reference, "Instructions").
#[tactic(auto, using(mich_base::proofs::undo_lemmas::ForCallers::keeps_same, crate::proofs::Ledgers::tells_same))]
pub fn step(
    alloc: Global,
    instr: &Simple,
    stack: &mut Rows<Value>,
    ledger: &mut Ledger,
    env: &Env,
) -> Result<(), StepError>
    requires in_step { in_step (straight instr.now) ≡ true }
    requires fits { Fits (simple_rule env.now ledger.old.books.present (straight instr.now)) stack.old }
    requires suits { Suits (straight instr.now) (plain stack.old) }
    requires ready { IsReady ledger.old.books.present (flat_map tickets (plain stack.old)) }
    ensures ends { Steps (simple_rule env.entry.now ledger.old.books.present (straight instr.now)) stack.old stack.new result }
    ensures tells { IfOk result (λ _. TellsShown (simple_rule env.entry.now ledger.old.books.present (straight instr.now)) stack.old ledger.old ledger.new) }
    ensures keeps { KeepsBooks ledger.old.books ledger.new.books }
{
    match instr {
        Simple::Stack(row) => order(alloc, row, stack, ledger),
        Simple::Pairs(row) => pairs(alloc, row, stack, ledger),
        Simple::Collections(row) => collections(alloc, row, stack, ledger),
        Simple::Tickets(row) => ticket_step(alloc, env, row, stack, ledger),
        _ => quiet(alloc, instr, stack, env),
    }
}
