// What is burnt, an empty big map, and an identity of tickets.
ghost use Rattle.std.specs.Prelude.{map};
ghost use Rattle.mich_bigmap.specs.Formed.{IsFormed};
ghost use Rattle.mich_term.specs.TicketView.{held};

use mich_base::{Memory, Rows, Ty};
use mich_forms::Place;
use mich_term::{BigMap, Burner, Datum, Table, Ticket, TicketId};
use std::alloc::Global;

// Keeps all that is burnt.
#[derive(Drop)]
pub(crate) struct Recorder {
    pub(crate) tickets: Rows<Ticket>,
}

impl Burner for Recorder {
    ghost told = { λ r. map held r.tickets };

    ghost ready = { λ _ _. Unit {0} };

    ghost prefix = { λ _ _ _ _. tt };

    fn burn(&mut self, _alloc: Global, ticket: Ticket) -> Result<(), Memory> {
        self.tickets.push(ticket)
    }
}

pub(crate) fn empty(alloc: Global) -> BigMap
    ensures { IsFormed result }
{
    BigMap {
        base: None,
        overlay: Table::new(alloc),
    }
}

// A ticket's identity: nat content.
pub(crate) fn identity(content: i128) -> TicketId {
    TicketId {
        issuer: Place::Contract([7; 20]),
        ty: Ty::Nat,
        content: Datum::Number(content),
    }
}
