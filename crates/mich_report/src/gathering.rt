// What is minted, and what accounts hold, gathered from the lines of a ledger.
ghost use Rattle.std.specs.BTreeMap.{is_at};
ghost use Rattle.std.specs.Cmp.Lexicographic.{slice_cmp};
ghost use Rattle.std.specs.Map.{lookup};
ghost use Rattle.std.specs.Ordering.{nat_cmp};
ghost use Rattle.std.specs.Prelude.{◌≡◌, IfOk, is_some};
ghost use Rattle.mich_base.specs.undo.Undone.{changed_at};
ghost use Rattle.mich_report.specs.Amounts.{AreWritten, IsWritten, with_amount};
ghost use Rattle.mich_report.specs.State.{Gathers, Mints};

use crate::amounts::Amounts;
use mich_base::Memory;
use mich_forms::{KeyHash, Place};
use mich_term::TicketId;
use mich_tickets::{Holdings, Lines};
use std::alloc::Global;
use std::collections::BTreeMap;

/// What each account holds, by the bytes of its key hash.
pub type Purses = BTreeMap<KeyHash, Amounts>;

// Writes an amount of a ticket that an account holds, where something is known of the account.
fn write_held(
    alloc: Global,
    purses: &mut Purses,
    who: &KeyHash,
    id: &TicketId,
    amount: i128,
) -> Result<bool, Memory>
    ensures new { IfOk result (λ _. purses.new.entries ≡ changed_at (is_at (slice_cmp nat_cmp who.now)) purses.old.entries (with_amount id.now amount)) }
    ensures there { IfOk result (λ found. found ≡ is_some (lookup (is_at (slice_cmp nat_cmp who.now)) purses.old.entries)) }
{
    match purses.get_mut(who) {
        Some(purse) => {
            purse.put(alloc, id, amount)?;
            Ok(true)
        }
        None => Ok(false),
    }
}

// The same, whatever is known.
fn add_held(
    alloc: Global,
    purses: &mut Purses,
    who: KeyHash,
    id: &TicketId,
    amount: i128,
) -> Result<(), Memory>
    ensures { IfOk result (λ _. IsWritten who id.now amount purses.old.entries purses.new.entries) }
{
    if write_held(alloc, purses, &who, id, amount)? {
        return Ok(());
    }
    let mut purse = Amounts::new(alloc);
    purse.put(alloc, id, amount)?;
    purses.insert(who, purse)?;
    Ok(())
}

// What accounts hold of a ticket.
fn add_owners(
    alloc: Global,
    purses: &mut Purses,
    id: &TicketId,
    held: &Holdings,
) -> Result<(), Memory>
    ensures { IfOk result (λ _. AreWritten id.now held.now purses.old.entries purses.new.entries) }
{
    let owners = held.owners();
    let _count = owners.len();
    'owners: for (owner, amount) in owners {
        if let Place::Implicit(who) = owner {
            add_held(alloc, purses, *who, id, *amount)?;
        }
    }
    Ok(())
}

/// What each account holds. Memory where there is no room for it.
pub fn held_by_accounts(alloc: Global, lines: &Lines) -> Result<Purses, Memory>
    ensures { IfOk result (λ ps. Gathers lines.now.entries ps.entries) }
{
    let _count = lines.len();
    let mut purses = Purses::new(alloc);
    'lines: for (id, line) in lines {
        add_owners(alloc, &mut purses, id, &line.held)?;
    }
    Ok(purses)
}

/// What was ever minted of each ticket, where something was. Memory where there is no room for it.
pub fn all_minted(alloc: Global, lines: &Lines) -> Result<Amounts, Memory>
    ensures { IfOk result (λ es. Mints lines.now.entries es) }
{
    let _count = lines.len();
    let mut minted = Amounts::new(alloc);
    'lines: for (id, line) in lines {
        minted.put(alloc, id, line.totals.minted)?;
    }
    Ok(minted)
}
