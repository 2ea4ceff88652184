// Tickets, and who is told of those that are burnt.
ghost use Rattle.std.specs.Prelude.{◌≡◌, IfOk, List, [], ◌∷◌, ◌++◌};
ghost use Rattle.rules_data.specs.values.Tickets.{Held};
ghost use Rattle.mich_term.specs.TicketView.{held};

use crate::datum::{Datum, copy_datum};
use mich_base::{Memory, Share, Ty, copy_type};
use mich_forms::Place;
use std::alloc::Global;

/// A ticket: its identity and its amount (Octez "Tickets"). It is made by minting, splitting and joining, and copied by
/// `shadow` alone.
#[derive(Debug, Drop)]
pub struct Ticket {
    pub id: TicketId,
    pub amount: i128,
}

/// What makes tickets alike: who issued them, the type of their content, and the content (Octez "Tickets").
#[derive(Debug, Drop)]
pub struct TicketId {
    pub issuer: Place,
    pub ty: Ty,
    pub content: Datum,
}

/// What an instruction did to the amount of tickets of one identity.
#[derive(Debug, Drop)]
pub enum Change {
    Minted(TicketId, i128),
    Burnt(TicketId, i128),
}

/// Who is told of the tickets that are burnt: the list of what was told, and which lists of tickets may be told next.
pub trait Burner {
    ghost told: { Self → List Held };

    ghost ready: { Self → List Held → Type 0 };

    /// Burns a ticket that may be told. After Memory the burner is given up.
    fn burn(&mut self, alloc: Global, ticket: Ticket) -> Result<(), Memory>
        requires { ready self.old (held ticket ∷ []) }
        ensures tells { IfOk result (λ _. told self.new ≡ told self.old ++ held ticket ∷ []) }
        ensures stays_ready { IfOk result (λ _. (l : List Held) → ready self.old (held ticket ∷ l) → ready self.new l) };

    // A prefix of a ready list is ready.
    ghost prefix: { (b : Self) (l m : List Held) → ready b (l ++ m) → ready b l };
}

/// An equal identity. Memory where there is no room for it.
pub fn copy_id(alloc: Global, id: &TicketId) -> Result<TicketId, Memory>
    ensures { IfOk result (λ i. i ≡ id.now) }
{
    let ty = copy_type(alloc, &id.ty)?;
    let content = copy_datum(alloc, &id.content)?;
    Ok(TicketId {
        issuer: id.issuer,
        ty,
        content,
    })
}

// The one copy of a ticket, for shadows.
fn shadow_ticket(alloc: Global, ticket: &Ticket) -> Result<Ticket, Memory>
    ensures { IfOk result (λ t. t ≡ ticket.now) }
{
    let id = copy_id(alloc, &ticket.id)?;
    Ok(Ticket {
        id,
        amount: ticket.amount,
    })
}

impl Share for Ticket {
    fn share(&self, alloc: Global) -> Result<Ticket, Memory> {
        shadow_ticket(alloc, self)
    }
}
