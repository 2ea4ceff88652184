// Tickets in the order in which they are printed.
ghost use Rattle.std.specs.Prelude.{◌≡◌, ◌<ℤ◌, pos, Some, [], IfOk, map, refl};
ghost use Rattle.std.specs.List.{AllByRecursion};
ghost use Rattle.std.specs.List.Sorted.{IsStrictlySortedBy};
ghost use Rattle.std.specs.Map.{keys_of};
ghost use Rattle.std.specs.Ordering.{is_eq};
ghost use Rattle.std.specs.Cmp.{partial_order_from_agreeing_total, partial_equiv_from_equiv, eq_by_cmp_equiv};
ghost use Rattle.std.proofs.lemmas.Cmp.{on_total};
ghost use Rattle.laws_world.proofs.accounts.ForCallers.{identity_total};
ghost use Rattle.rules_world.specs.lines.Nodes.{held_node};
ghost use Rattle.rules_world.specs.world.World.{identity_order};
ghost use Rattle.mich_base.specs.View.{tree};
ghost use Rattle.mich_term.specs.TicketView.{identity};
ghost use Rattle.mich_report.specs.Amounts.{by_print, seen, with_amount};

use crate::parts::ticket_nodes;
use mich_base::{Memory, Node, Nodes, Text};
use mich_term::{TicketId, copy_id};
use mich_text::print;
use mich_types::{application, type_node};
use std::alloc::Global;
use std::cmp::Ordering;
use std::collections::BTreeMap;
use std::marker::Model;

/// An identity with the text of its type, by whose bytes it stands.
#[derive(Debug, Drop)]
pub struct Printed {
    pub id: TicketId,
    text: Text,
}

impl Model for Printed {
    ghost use Rattle.std.specs.Prelude.{◌≡◌};
    ghost use Rattle.rules_text.specs.text.Printed.{printed};
    ghost use Rattle.rules_data.specs.types.Printing.{node_of};
    ghost use Rattle.mich_base.specs.TypeView.{kind};
    ghost use Rattle.mich_term.specs.declared.ticket.TicketId.{TicketId};
    ghost use Rattle.mich_term.specs.contracts.ticket.TicketId as ticket_id;

    ghost Value = { TicketId };

    ghost coded = { ticket_id.the_row.coded };

    ghost view = { λ p. p.id };

    ghost invariant = { λ p. p.text ≡ printed (node_of (kind p.id.ty)) };
}

impl Printed {
    /// An identity. Memory where there is no room for it.
    pub fn of(alloc: Global, id: &TicketId) -> Result<Printed, Memory>
        ensures { IfOk result (λ p. p ≡ id.now) }
    {
        let node = type_node(alloc, &id.ty)?;
        let text = print(alloc, &node)?;
        let id = copy_id(alloc, id)?;
        Ok(Printed { id, text })
    }
}

impl PartialEq for Printed {
    ghost eq = { λ a b. is_eq (identity_order (identity a) (identity b)) };

    ghost laws = { partial_equiv_from_equiv (eq_by_cmp_equiv (on_total identity identity_total)) };

    fn eq(&self, other: &Printed) -> bool {
        self.cmp(other) == Ordering::Equal
    }
}

impl Eq for Printed {
    ghost laws = { eq_by_cmp_equiv (on_total identity identity_total) };
}

impl PartialOrd for Printed {
    ghost partial_cmp = { λ a b. Some (identity_order (identity a) (identity b)) };

    ghost laws = { partial_order_from_agreeing_total (λ a b. identity_order (identity a) (identity b)) (on_total identity identity_total) (λ _ _. refl) (λ _ _. refl) };

    fn partial_cmp(&self, other: &Printed) -> Option<Ordering> {
        Some(self.cmp(other))
    }
}

impl Ord for Printed {
    ghost cmp = { λ a b. identity_order (identity a) (identity b) };

    ghost total = { on_total identity identity_total };

    ghost matches_partial_cmp = { λ _ _. refl };

    ghost matches_eq = { λ _ _. refl };

    fn cmp(&self, other: &Printed) -> Ordering {
        self.id.issuer.cmp(&other.id.issuer).then(
            self.text
                .cmp(&other.text)
                .then(self.id.content.cmp(&other.id.content)),
        )
    }
}

/// Positive amounts of tickets: by the bytes of issuers, then by those of the texts of types, then by contents.
#[derive(Debug, Drop)]
pub struct Amounts {
    pub map: BTreeMap<Printed, i128>,
}

impl Model for Amounts {
    ghost use Rattle.std.specs.Prelude.{pos, ◌<ℤ◌};
    ghost use Rattle.std.specs.List.{AllByRecursion};
    ghost use Rattle.mich_report.specs.Amounts.{Amounts as Whole, amounts_code};

    ghost Value = { Whole };

    ghost coded = { amounts_code };

    ghost view = { λ a. a.map.entries };

    ghost invariant = { λ a. AllByRecursion (λ e. pos 0 <ℤ e.1) a.map.entries };
}

// A ticket with an amount, as it is held.
fn held_node(alloc: Global, id: &TicketId, amount: i128) -> Result<Node, Memory>
    ensures { IfOk result (λ n. tree n ≡ held_node (identity id.now, amount)) }
{
    let fields = ticket_nodes(alloc, id, amount)?;
    application(alloc, b"Held", fields)
}

impl Amounts {
    /// None; takes no memory.
    pub(crate) fn new(alloc: Global) -> Amounts
        ensures { result ≡ [] }
    {
        Amounts {
            map: BTreeMap::new(alloc),
        }
    }

    /// Writes an amount, where it is positive. Memory where there is no room for it.
    pub(crate) fn put(&mut self, alloc: Global, id: &TicketId, amount: i128) -> Result<(), Memory>
        ensures { IfOk result (λ _. self.new ≡ with_amount id.now amount self.old) }
    {
        if amount > 0 {
            let id = Printed::of(alloc, id)?;
            self.map.insert(id, amount)?;
        }
        Ok(())
    }

    /// The nodes of those that are held.
    pub(crate) fn held_nodes(&self, alloc: Global) -> Result<Nodes, Memory>
        ensures nodes { IfOk result (λ ns. map tree ns ≡ map held_node (map seen self.now)) }
        ensures order { IsStrictlySortedBy by_print (keys_of self.now) }
        ensures positive { AllByRecursion (λ e. pos 0 <ℤ e.1) self.now }
    {
        let _count = self.map.len();
        let mut nodes = Nodes::new(alloc);
        'tickets: for (id, amount) in &self.map {
            nodes.push(held_node(alloc, &id.id, *amount)?)?;
        }
        Ok(nodes)
    }
}
