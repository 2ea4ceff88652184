// What no clause says: that the calls answer with ample memory. Splits, joins, burns, and tickets that come and go with values are
// tried by whole files.
use crate::support::identity;
use mich_base::Memory;
use mich_forms::{KeyHash, Place};
use mich_term::Ticket;
use mich_tickets::Ledger;
use std::alloc::Global;
use std::test::Fail;

fn account(last: u8) -> Place {
    let mut hash = [0; 20];
    hash[19] = last;
    Place::Implicit(KeyHash { tag: 0, hash })
}

// 5 tickets of content 7.
fn minted(alloc: Global, ledger: &mut Ledger) -> Result<Ticket, Memory> {
    match ledger.mint(alloc, identity(7), 5) {
        Ok(Some(ticket)) => Ok(ticket),
        _ => Err(Memory),
    }
}

// An owner gets a ticket, where there is room for it.
fn credit(alloc: Global, ledger: &mut Ledger, owner: &Place, ticket: Ticket) -> Result<(), Memory> {
    let amount = ticket.amount;
    let held = ledger.balance(&ticket.id, *owner);
    if amount <= 0 || held.checked_add(amount).is_none() {
        return Err(Memory);
    }
    ledger.credit(alloc, *owner, ticket)
}

// 5 tickets of content 7, held by the account 1.
fn credited(alloc: Global) -> Result<Ledger, Memory> {
    let mut ledger = Ledger::new(alloc);
    let ticket = minted(alloc, &mut ledger)?;
    credit(alloc, &mut ledger, &account(1), ticket)?;
    Ok(ledger)
}

// How many tickets of content 7 come from the account 1 where 2 are asked for.
fn debited(alloc: Global, ledger: &mut Ledger) -> Result<i128, Memory> {
    match ledger.debit(alloc, account(1), &identity(7), 2) {
        Ok(ticket) => Ok(ticket.amount),
        Err(_) => Err(Memory),
    }
}

// The same of 5 tickets that were credited, and how many are left.
fn debited_and_left(alloc: Global) -> Result<(i128, i128), Memory> {
    let mut ledger = credited(alloc)?;
    let amount = debited(alloc, &mut ledger)?;
    Ok((amount, ledger.balance(&identity(7), account(1))))
}

#[test]
fn what_is_minted_and_held_is_taken(rt: HostRuntime) -> Result<(), Fail> {
    let amounts = debited_and_left(rt.alloc())?;
    assert!(rt; amounts == (2, 3));
    Ok(())
}

// How many identities a view sees where 5 tickets were credited, and how many of them were minted and are held.
fn viewed(alloc: Global) -> Result<(usize, i128, i128), Memory> {
    let view = credited(alloc)?.for_view(alloc)?;
    let count = view.ids(alloc)?.len();
    let minted = view.totals(&identity(7)).minted;
    Ok((count, minted, view.balance(&identity(7), account(1))))
}

#[test]
fn a_view_sees_mints_alone(rt: HostRuntime) -> Result<(), Fail> {
    let seen = viewed(rt.alloc())?;
    assert!(rt; seen == (1, 5, 0));
    Ok(())
}
