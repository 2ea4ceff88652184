// Snapshots that were worked out by hand: what is read of them, what is refused at which place, and how values are written.
use mich_base::{Link, Memory, Text, Ty};
use mich_forms::Place;
use mich_gas::Price;
use mich_saved::{
    LoadError, ReadState, put, put_datum, put_eight, put_field, put_four, put_identity, put_mark,
    put_price, put_signed_eight, put_signed_sixteen, read,
};
use mich_term::{Datum, TicketId, Value};
use std::alloc::Global;
use std::test::Fail;

// The 20 bytes of the first contract of the first group.
static HASH: [u8; 20] = [0, 0, 0, 0, 0, 0, 0, 1, 0, 0, 0, 0, 0, 0, 0, 0, 0, 0, 0, 0];

// `{ storage (set nat) }`
static SCRIPT: [u8; 11] = [2, 0, 0, 0, 6, 5, 1, 5, 0x66, 3, 0x62];

// The ticket of this contract whose content is the natural number 7.
fn ticket() -> TicketId {
    TicketId {
        issuer: Place::Contract(HASH),
        ty: Ty::Nat,
        content: Datum::Number(7),
    }
}

fn put_head(out: &mut Vec<u8>) -> Result<(), Memory> {
    put(out, b"MICHSNP1\x7a\x06\xa7\x70")?;
    put_four(out, 3)?;
    put_signed_eight(out, -1)?;
    put(out, &[2])?;
    put_eight(out, 250)?;
    put_eight(out, 1)?;
    put_mark(out, false)?;
    put_mark(out, true)?;
    let price = Price {
        base: 1,
        coefficient: 2,
    };
    for _ in 0..98 {
        put_price(out, &price)?;
    }
    put_eight(out, 10)?;
    put_eight(out, 20)
}

// An account that holds 5 of the ticket.
fn put_account(alloc: Global, out: &mut Vec<u8>) -> Result<(), Memory> {
    put(out, &[0; 21])?;
    put_eight(out, 90)?;
    put_eight(out, 1)?;
    put_identity(alloc, out, &ticket())?;
    put_signed_sixteen(out, 5)
}

// A contract that stores a set of these two numbers.
fn put_contract(out: &mut Vec<u8>, first: i128, second: i128) -> Result<(), Memory> {
    put(out, &HASH)?;
    put_eight(out, 7)?;
    put_eight(out, 300)?;
    put_field(out, &SCRIPT)?;
    put_eight(out, 2)?;
    put_signed_sixteen(out, first)?;
    put_signed_sixteen(out, second)
}

fn snapshot(alloc: Global, first: i128, second: i128) -> Result<Vec<u8>, Memory> {
    let mut out = Vec::new(alloc);
    put_head(&mut out)?;
    put_eight(&mut out, 1)?;
    put_account(alloc, &mut out)?;
    put_eight(&mut out, 1)?;
    put_contract(&mut out, first, second)?;
    put_eight(&mut out, 1)?;
    put_identity(alloc, &mut out, &ticket())?;
    put_signed_sixteen(&mut out, 6)?;
    put_signed_sixteen(&mut out, 1)?;
    Ok(out)
}

fn state_of(alloc: Global, bytes: &[u8]) -> Result<ReadState, Fail> {
    match read(alloc, bytes) {
        Ok(state) => Ok(state),
        Err(_) => Err(Fail::from("not read")),
    }
}

// Where bytes can't be read.
fn fault_of(alloc: Global, bytes: &[u8]) -> Option<u64> {
    match read(alloc, bytes) {
        Err(LoadError::BadForm(place)) => Some(place),
        _ => None,
    }
}

#[test]
fn what_was_written_is_read(rt: HostRuntime) -> Result<(), Fail> {
    let bytes = snapshot(rt.alloc(), 1, 2)?;
    let state = state_of(rt.alloc(), bytes.as_slice())?;
    assert!(rt; state.head.moment.chain == [0x7a, 0x06, 0xa7, 0x70]);
    assert!(rt; state.head.moment.level == 3 && state.head.moment.now == -1);
    assert!(rt; state.head.pays && state.head.rate == 250 && state.head.groups == 1);
    assert!(rt; !state.head.costs_stood && state.head.started);
    assert!(rt; state.prices.len() == 98 && state.fees == 10 && state.storage_burn == 20);
    Ok(())
}

#[test]
fn holders_are_read_with_their_places(rt: HostRuntime) -> Result<(), Fail> {
    let bytes = snapshot(rt.alloc(), 1, 2)?;
    let state = state_of(rt.alloc(), bytes.as_slice())?;
    for account in state.accounts.as_slice() {
        assert!(rt; account.place == 851 && account.balance == 90 && account.holdings.len() == 1);
    }
    for contract in state.contracts.as_slice() {
        assert!(rt; contract.place == 949 && contract.hash == HASH);
        assert!(rt; contract.balance == 7 && contract.paid == 300);
        assert!(rt; matches!(&contract.storage, Some(Value::Set(_))));
    }
    for total in state.tickets.as_slice() {
        assert!(rt; total.place == 1048 && total.minted == 6 && total.burnt == 1);
        assert!(rt; matches!(&total.id.content, Datum::Number(7)));
    }
    assert!(rt; state.accounts.len() == 1 && state.contracts.len() == 1);
    assert!(rt; state.tickets.len() == 1);
    Ok(())
}

#[test]
fn a_set_out_of_order_is_not_kept(rt: HostRuntime) -> Result<(), Fail> {
    let bytes = snapshot(rt.alloc(), 2, 2)?;
    let state = state_of(rt.alloc(), bytes.as_slice())?;
    for contract in state.contracts.as_slice() {
        assert!(rt; contract.storage.is_none());
    }
    assert!(rt; state.tickets.len() == 1);
    Ok(())
}

#[test]
fn what_is_cut_off_is_missed_at_its_field(rt: HostRuntime) -> Result<(), Fail> {
    let mut bytes = snapshot(rt.alloc(), 1, 2)?;
    assert!(rt; bytes.len() == 1117);
    bytes.truncate(1116);
    assert!(rt; fault_of(rt.alloc(), bytes.as_slice()) == Some(1101));
    bytes.truncate(990);
    assert!(rt; fault_of(rt.alloc(), bytes.as_slice()) == Some(985));
    bytes.truncate(7);
    assert!(rt; fault_of(rt.alloc(), bytes.as_slice()) == Some(0));
    Ok(())
}

#[test]
fn what_stands_behind_is_refused(rt: HostRuntime) -> Result<(), Fail> {
    let mut bytes = snapshot(rt.alloc(), 1, 2)?;
    bytes.push(0)?;
    assert!(rt; fault_of(rt.alloc(), bytes.as_slice()) == Some(1117));
    Ok(())
}

#[test]
fn bytes_outside_a_choice_are_refused(rt: HostRuntime) -> Result<(), Fail> {
    let mut bytes = snapshot(rt.alloc(), 1, 2)?;
    assert!(rt; bytes.len() == 1117);
    bytes[24] = 3;
    assert!(rt; fault_of(rt.alloc(), bytes.as_slice()) == Some(24));
    bytes[24] = 1;
    bytes[42] = 2;
    assert!(rt; fault_of(rt.alloc(), bytes.as_slice()) == Some(42));
    bytes[42] = 0;
    bytes[851] = 4;
    assert!(rt; fault_of(rt.alloc(), bytes.as_slice()) == Some(851));
    Ok(())
}

#[test]
fn tickets_are_written_with_their_types(rt: HostRuntime) -> Result<(), Fail> {
    let alloc = rt.alloc();
    let option = Ty::Option(Link::new(alloc, Ty::Unit)?);
    let nothing = Link::new(alloc, Datum::None)?;
    let truth = Link::new(alloc, Datum::Bool(true))?;
    let id = TicketId {
        issuer: Place::Contract(HASH),
        ty: Ty::Pair(Link::new(alloc, option)?, Link::new(alloc, Ty::Bool)?),
        content: Datum::Pair(nothing, truth),
    };
    let mut out = Vec::new(alloc);
    put_identity(alloc, &mut out, &id)?;
    assert!(rt; out.as_slice().starts_with(&HASH));
    assert!(rt; out.as_slice().ends_with(&[0x65, 0x63, 0x6c, 0x59, 0, 1]));
    assert!(rt; out.len() == 26);
    Ok(())
}

#[test]
fn values_are_written_part_by_part(rt: HostRuntime) -> Result<(), Fail> {
    let alloc = rt.alloc();
    let text = Datum::Text(Text::from_slice(alloc, b"ab")?);
    let left = Datum::Left(Link::new(alloc, text)?);
    let some = Datum::Some(Link::new(alloc, Datum::Bool(true))?);
    let pair = Datum::Pair(Link::new(alloc, left)?, Link::new(alloc, some)?);
    let mut out = Vec::new(alloc);
    put_datum(&mut out, &pair)?;
    assert!(rt; out.as_slice() == [0, 0, 0, 0, 2, b'a', b'b', 1, 1].as_slice());
    Ok(())
}
