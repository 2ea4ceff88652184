// The ledger of a world in the hands of a run.
ghost use Rattle.std.specs.Prelude.{◌≡◌, [], IfOk};
ghost use Rattle.std.specs.Map.{values_of};
ghost use Rattle.rules_code.specs.steps.Changes.{burns};
ghost use Rattle.mich_machine.specs.Returned.{handed};
ghost use Rattle.mich_tickets.specs.Books.{fresh, no_books};
ghost use Rattle.mich_tickets.specs.Effects.{Tells};
ghost use Rattle.mich_tickets.specs.Limits.{IsReady};
ghost use Rattle.mich_base.specs.undo.History.{Keeps};
ghost use Rattle.mich_world.specs.World.{with_ledger};

use crate::burning::burn_discarded;
use crate::returning::Numbered;
use mich_base::{Memory, Rows};
use mich_term::Change;
use mich_tickets::Ledger;
use mich_world::World;
use std::alloc::Global;
use std::mem;

// Takes the list of changes; it takes no memory.
pub(crate) fn take_changes(world: &mut World) -> Rows<Change>
    ensures taken { result ≡ world.old.ledger.changes }
    ensures world { world.new ≡ with_ledger world.old (record { books = world.old.ledger.books; changes = [] }) }
{
    world.ledger_mut().take_changes()
}

// Puts a ledger in the place of the one that is there; it takes no memory.
pub(crate) fn put_ledger(world: &mut World, ledger: Ledger)
    ensures { world.new ≡ with_ledger world.old ledger }
{
    *world.ledger_mut() = ledger;
}

// Takes the ledger out, with no changes in its list, and leaves an empty one there; it takes no memory.
pub(crate) fn take_ledger(alloc: Global, world: &mut World) -> Ledger
    ensures ledger { result ≡ record { books = world.old.ledger.books; changes = [] } }
    ensures world { world.new ≡ with_ledger world.old (fresh no_books) }
{
    let told = take_changes(world);
    drop(told);
    mem::replace(world.ledger_mut(), Ledger::new(alloc))
}

// Operations that aren't returned are discarded.
pub(crate) fn discard_left(
    alloc: Global,
    world: &mut World,
    operations: Numbered,
) -> Result<(), Memory>
    requires { IsReady world.old.ledger.books.present (handed (values_of operations.entries)) }
    ensures world { world.new ≡ with_ledger world.old world.new.ledger }
    ensures tells { IfOk result (λ _. Tells (burns (handed (values_of operations.entries))) world.old.ledger world.new.ledger) }
    ensures keeps { Keeps world.old.ledger.books world.new.ledger.books }
{
    burn_discarded(alloc, world.ledger_mut(), operations)
}
