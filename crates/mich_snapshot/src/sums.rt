// How much there is of each ticket.
ghost use Rattle.std.specs.Prelude.{◌≡◌, map, IfOk, ℕ};
ghost use Rattle.rules_data.specs.values.Tickets.{Identity};
ghost use Rattle.rules_files.specs.snapshots.State.{State};
ghost use Rattle.mich_saved.specs.Shown.{total};
ghost use Rattle.mich_term.specs.TicketView.{held, identity};
ghost use Rattle.mich_snapshot.specs.Sums.{AreFound, FindsTicket, FindsTickets, is_found, nothing};

use mich_base::{Memory, Rows};
use mich_saved::ReadTotal;
use mich_term::{Ticket, TicketId, copy_id};
use std::alloc::Global;
use std::collections::BTreeMap;

/// Of each ticket that has a total, how much was found, counted up to 2^128-1.
#[derive(Drop)]
pub struct Sums {
    found: BTreeMap<TicketId, u128>,
}

impl Sums {
    /// Nothing was found yet of the tickets that have these totals. Memory where there is no room.
    pub fn of_totals(alloc: Global, totals: &Rows<ReadTotal>) -> Result<Sums, Memory>
        ensures { (s : State) → map (λ t. (total t).1) totals.now ≡ s.tickets → IfOk result (λ sums. AreFound s nothing sums.found.entries) }
    {
        let mut found = BTreeMap::new(alloc);
        for total in totals.as_slice() {
            let id = copy_id(alloc, &total.id)?;
            found.insert(id, 0)?;
        }
        Ok(Sums { found })
    }

    /// More of a ticket is found. False where it has no total; the sums are given up then.
    pub fn add(&mut self, id: &TicketId, amount: i128) -> bool
        ensures { FindsTicket self.old.found.entries self.new.found.entries (identity id.now) amount result }
    {
        match self.found.get_mut(id) {
            Some(sum) => {
                *sum = sum.saturating_add(amount.unsigned_abs());
                true
            }
            None => false,
        }
    }

    /// More is found of each of these tickets. False where one has no total; the sums are given up then.
    pub fn add_all(&mut self, tickets: &Rows<Ticket>) -> bool
        ensures { FindsTickets self.old.found.entries self.new.found.entries (map held tickets.now) result }
    {
        for ticket in tickets.as_slice() {
            if !self.add(&ticket.id, ticket.amount) {
                return false;
            }
        }
        true
    }

    /// Whether so much was found of a ticket that has a total.
    pub fn is(&self, id: &TicketId, amount: i128) -> bool
        ensures { (s : State) (found : Identity → ℕ) → AreFound s found self.now.found.entries → result ≡ is_found s found (identity id.now) amount }
    {
        match self.found.get(id) {
            Some(sum) => 0 <= amount && *sum == amount.unsigned_abs(),
            None => false,
        }
    }
}
