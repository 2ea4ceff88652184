// The tickets of a value that is stored, or stored no more.
ghost use Rattle.std.specs.Prelude.{◌≡◌, [], ◌∷◌, IfOk, map};
ghost use Rattle.mich_base.specs.undo.History.{Keeps};
ghost use Rattle.rules_data.specs.values.Tickets.{tickets};
ghost use Rattle.mich_forms.specs.Spelled.{place_bytes};
ghost use Rattle.mich_term.specs.TicketView.{held};
ghost use Rattle.mich_term.specs.ValueView.{val};
ghost use Rattle.mich_tickets.specs.Carrying.{MayCarry, Carries, MayEnter, Enters, MayLeave, Leaves};

use crate::ledger::Ledger;
use mich_base::{Memory, Rows};
use mich_forms::Place;
use mich_term::{Burner, Ticket, Value, discard, shadow};
use std::alloc::Global;

/// Which way tickets go.
#[derive(Clone, Copy, Debug)]
pub(crate) enum Direction {
    In,
    Out,
}

// A ticket comes to an owner or goes from one.
fn carry_ticket(
    alloc: Global,
    ledger: &mut Ledger,
    owner: &Place,
    ticket: &Ticket,
    direction: Direction,
) -> Result<(), Memory>
    requires { MayCarry direction (place_bytes owner.now) ledger.old.books.present (held ticket.now ∷ []) }
    ensures moves { IfOk result (λ _. Carries direction (place_bytes owner.now) (held ticket.now ∷ []) ledger.old.books.present ledger.new.books.present) }
    ensures changes { ledger.new.changes ≡ ledger.old.changes }
    ensures keeps { Keeps ledger.old.books ledger.new.books }
{
    match direction {
        Direction::In => {
            ledger.put_in(alloc, owner, ticket)?;
            Ok(())
        }
        Direction::Out => {
            ledger.put_out(alloc, owner, ticket)?;
            Ok(())
        }
    }
}

/// Tickets that were told, in order, and that are burnt later.
#[derive(Debug, Drop)]
pub struct Collector {
    pub tickets: Rows<Ticket>,
}

impl Burner for Collector {
    ghost told = { λ c. map held c.tickets };

    ghost ready = { λ _ _. Unit {0} };

    ghost prefix = { λ _ _ _ _. tt };

    fn burn(&mut self, _alloc: Global, ticket: Ticket) -> Result<(), Memory> {
        self.tickets.push(ticket)
    }
}

/// The tickets of a value, parts from left to right and entries by key: those of a copy that is discarded. Memory where there is
/// no room for them.
pub fn tickets_of(alloc: Global, value: &Value) -> Result<Rows<Ticket>, Memory>
    ensures { IfOk result (λ ts. map held ts ≡ tickets (val value.now)) }
{
    let copy = shadow(alloc, value)?;
    let mut collector = Collector {
        tickets: Rows::new(alloc),
    };
    discard(alloc, copy, &mut collector)?;
    Ok(collector.tickets)
}

// Tickets come to an owner or go from one, the first before those behind it.
#[tactic(auto, using(mich_base::proofs::undo_lemmas::ForCallers::keeps_same, mich_base::proofs::undo_lemmas::ForCallers::keeps_trans))]
fn carry(
    alloc: Global,
    ledger: &mut Ledger,
    owner: &Place,
    items: &Rows<Ticket>,
    direction: Direction,
) -> Result<(), Memory>
    requires { MayCarry direction (place_bytes owner.now) ledger.old.books.present (map held items.now) }
    ensures moves { IfOk result (λ _. Carries direction (place_bytes owner.now) (map held items.now) ledger.old.books.present ledger.new.books.present) }
    ensures changes { ledger.new.changes ≡ ledger.old.changes }
    ensures keeps { Keeps ledger.old.books ledger.new.books }
{
    for ticket in items.as_slice() {
        carry_ticket(alloc, ledger, owner, ticket, direction)?;
    }
    Ok(())
}

impl Ledger {
    /// Adds the tickets of a value that is stored to what an owner holds. After Memory the ledger is given up with its world, and
    /// the books have only writes that can be taken back.
    #[tactic(auto, using(mich_base::proofs::undo_lemmas::ForCallers::keeps_same))]
    pub fn enter(&mut self, alloc: Global, owner: Place, value: &Value) -> Result<(), Memory>
        requires { MayEnter (place_bytes owner) self.old.books.present (tickets (val value.now)) }
        ensures moves { IfOk result (λ _. Enters (place_bytes owner) (tickets (val value.now)) self.old.books.present self.new.books.present) }
        ensures changes { self.new.changes ≡ self.old.changes }
        ensures keeps { Keeps self.old.books self.new.books }
    {
        let items = tickets_of(alloc, value)?;
        carry(alloc, self, &owner, &items, Direction::In)?;
        Ok(())
    }

    /// Takes the tickets of a value that is stored no more from what an owner holds. After Memory the ledger is given up with its
    /// world, and the books have only writes that can be taken back.
    #[tactic(auto, using(mich_base::proofs::undo_lemmas::ForCallers::keeps_same))]
    pub fn leave(&mut self, alloc: Global, owner: Place, value: &Value) -> Result<(), Memory>
        requires { MayLeave (place_bytes owner) self.old.books.present (tickets (val value.now)) }
        ensures moves { IfOk result (λ _. Leaves (place_bytes owner) (tickets (val value.now)) self.old.books.present self.new.books.present) }
        ensures changes { self.new.changes ≡ self.old.changes }
        ensures keeps { Keeps self.old.books self.new.books }
    {
        let items = tickets_of(alloc, value)?;
        carry(alloc, self, &owner, &items, Direction::Out)?;
        Ok(())
    }
}
