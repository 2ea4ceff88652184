// What is burnt.
ghost use Rattle.std.specs.Prelude.{map};
ghost use Rattle.mich_term.specs.TicketView.{held};

use mich_base::{Memory, Rows};
use mich_term::{Burner, Ticket};
use std::alloc::Global;

// Keeps all that is burnt.
#[derive(Drop)]
pub(crate) struct Recorder {
    pub(crate) tickets: Rows<Ticket>,
}

impl Burner for Recorder {
    ghost told = { λ r. map held r.tickets };

    ghost ready = { λ _ _. Unit {0} };

    ghost prefix = { λ _ _ _ _. tt };

    fn burn(&mut self, _alloc: Global, ticket: Ticket) -> Result<(), Memory> {
        self.tickets.push(ticket)
    }
}
