// Tickets of accounts.
ghost use Rattle.std.specs.Prelude.{◌≡◌, pos, ◌+ℤ◌, ◌<ℤ◌, ◌≤ℤ◌, IfOk};
ghost use Rattle.rules_data.specs.forms.Spelling.{implicit_place};
ghost use Rattle.mich_forms.specs.declared.places.Place.TheVariants as place;
ghost use Rattle.mich_term.specs.TicketView.{held, identity};
ghost use Rattle.mich_tickets.specs.Answers.{IsDebit};
ghost use Rattle.mich_tickets.specs.Limits.{IsPositive};
ghost use Rattle.mich_tickets.specs.Most.{most};
ghost use Rattle.mich_tickets.specs.Sums.{held_of};
ghost use Rattle.mich_base.specs.undo.History.{Keeps};
ghost use Rattle.mich_world.specs.World.{with_ledger};
ghost use Rattle.mich_operations.specs.Gifts.{Receives};

use mich_base::Memory;
use mich_forms::{KeyHash, Place};
use mich_term::{Ticket, TicketId};
use mich_tickets::DebitError;
use mich_world::World;
use std::alloc::Global;

// A ticket comes to an account.
pub(crate) fn credit(
    alloc: Global,
    world: &mut World,
    who: &KeyHash,
    ticket: Ticket,
) -> Result<(), Memory>
    requires positive { IsPositive (held ticket) }
    requires room { (held_of world.old.ledger.books.present (identity ticket.id) (implicit_place who.now) +ℤ ticket.amount) ≤ℤ most }
    ensures world { world.new ≡ with_ledger world.old world.new.ledger }
    ensures moves { IfOk result (λ _. Receives who.now ticket world.old world.new) }
    ensures keeps { Keeps world.old.ledger.books world.new.ledger.books }
{
    world
        .ledger_mut()
        .credit(alloc, Place::Implicit(*who), ticket)
}

// Takes so many tickets from an account.
pub(crate) fn debit(
    alloc: Global,
    world: &mut World,
    who: &KeyHash,
    id: &TicketId,
    amount: i128,
) -> Result<Ticket, DebitError>
    requires { pos 0 <ℤ amount }
    ensures world { world.new ≡ with_ledger world.old world.new.ledger }
    ensures answer { IsDebit id.now (place.Implicit who.now) amount world.old.ledger world.new.ledger result }
    ensures keeps { Keeps world.old.ledger.books world.new.ledger.books }
{
    world
        .ledger_mut()
        .debit(alloc, Place::Implicit(*who), id, amount)
}
