// What no clause says: that the calls answer with ample memory, that a big map may be settled often, and that copies of one that
// was settled cost little. What is noted, kept and undone, the clauses say.
ghost use Rattle.std.specs.Prelude.{IfOk};
ghost use Rattle.mich_bigmap.specs.Formed.{IsFormed};

use crate::support::{Recorder, empty, identity};
use mich_base::{Link, Memory, Rows};
use mich_bigmap::{Store, flat, get, put, release, settle, take};
use mich_term::{BigMap, Datum, Table, Ticket, Value, abandon, shadow};
use std::alloc::Global;
use std::test::Fail;

// The number at a key, and -1 where there is none.
fn number_at(store: &Store, m: &BigMap, key: i128) -> i128
    requires { IsFormed m.now }
{
    match get(store, m, &Datum::Number(key)) {
        Some(Value::Number(n)) => *n,
        _ => -1,
    }
}

// Puts a number at itself.
fn put_number(alloc: Global, store: &mut Store, m: &mut BigMap, n: i128) -> Result<(), Memory>
    requires { IsFormed m.old }
    ensures { IsFormed m.new }
{
    let old = put(alloc, store, m, Datum::Number(n), Value::Number(n))?;
    drop(old);
    Ok(())
}

// Takes away what stands at a number.
fn take_number(alloc: Global, store: &mut Store, m: &mut BigMap, n: i128) -> Result<(), Memory>
    requires { IsFormed m.old }
    ensures { IsFormed m.new }
{
    let taken = take(alloc, store, m, &Datum::Number(n))?;
    drop(taken);
    Ok(())
}

// A big map of the numbers from 0 on, each at itself.
fn filled(alloc: Global, store: &mut Store, count: i128) -> Result<BigMap, Memory>
    ensures { IfOk result IsFormed }
{
    let mut m = empty(alloc);
    'numbers: for i in 0..count {
        put_number(alloc, store, &mut m, i)?;
    }
    Ok(m)
}

// The same, settled behind each number.
fn settled_often(alloc: Global, store: &mut Store, count: i128) -> Result<BigMap, Memory>
    ensures { IfOk result IsFormed }
{
    let mut m = empty(alloc);
    'numbers: for i in 0..count {
        put_number(alloc, store, &mut m, i)?;
        m = settle(alloc, store, m)?;
    }
    Ok(m)
}

// The same, settled once.
fn settled(alloc: Global, store: &mut Store, count: i128) -> Result<BigMap, Memory>
    ensures { IfOk result IsFormed }
{
    let m = filled(alloc, store, count)?;
    settle(alloc, store, m)
}

// A big map of the numbers 0 to 4, settled; then 3 is taken away.
fn lessened(alloc: Global, store: &mut Store) -> Result<BigMap, Memory>
    ensures { IfOk result IsFormed }
{
    let mut m = settled(alloc, store, 5)?;
    take_number(alloc, store, &mut m, 3)?;
    settle(alloc, store, m)
}

// The numbers that it has at 3 and at 4.
fn numbers_of_lessened(alloc: Global) -> Result<(i128, i128), Memory> {
    let mut store = Store::new(alloc);
    let m = lessened(alloc, &mut store)?;
    Ok((number_at(&store, &m, 3), number_at(&store, &m, 4)))
}

#[test]
fn what_is_taken_from_a_settled_big_map_is_gone(rt: HostRuntime) -> Result<(), Fail> {
    let numbers = numbers_of_lessened(rt.alloc())?;
    assert!(rt; numbers == (-1, 4));
    Ok(())
}

fn alone(alloc: Global, m: BigMap) -> Result<Value, Memory> {
    Ok(Value::BigMap(Link::new(alloc, m)?))
}

// How many entries a big map has as it is printed.
fn printed_entries(alloc: Global, store: &Store, value: &Value) -> Result<usize, Memory> {
    let printed = flat(alloc, store, value)?;
    let count = match &printed {
        Value::BigMap(alone) => alone.get().overlay.len(),
        _ => 0,
    };
    abandon(printed);
    Ok(count)
}

fn entries_of_settled_often(alloc: Global, count: i128) -> Result<usize, Memory> {
    let mut store = Store::new(alloc);
    let m = settled_often(alloc, &mut store, count)?;
    let value = alone(alloc, m)?;
    printed_entries(alloc, &store, &value)
}

// Each call of a contract settles its big map once.
#[test]
fn a_big_map_is_settled_behind_each_of_5_000_entries(rt: HostRuntime) -> Result<(), Fail> {
    let count = entries_of_settled_often(rt.alloc(), 5_000)?;
    assert!(rt; count == 5_000);
    Ok(())
}

// Makes copies of a value, and ends each.
fn copy_often(alloc: Global, value: &Value, count: u32) -> Result<(), Memory> {
    for _ in 0..count {
        let copy = shadow(alloc, value)?;
        abandon(copy);
    }
    Ok(())
}

fn copy_settled_often(alloc: Global, entries: i128, copies: u32) -> Result<(), Memory> {
    let mut store = Store::new(alloc);
    let m = settled(alloc, &mut store, entries)?;
    let value = alone(alloc, m)?;
    copy_often(alloc, &value, copies)
}

#[test]
fn copies_of_a_settled_big_map_cost_little(rt: HostRuntime) -> Result<(), Fail> {
    copy_settled_often(rt.alloc(), 20_000, 1_000_000)?;
    Ok(())
}

// So many tickets of content 7.
fn tickets(alloc: Global, amount: i128) -> Result<Value, Memory> {
    let id = identity(7);
    Ok(Value::Ticket(Link::new(alloc, Ticket { id, amount })?))
}

// A big map of its own with 5 tickets at 1.
fn of_tickets(alloc: Global) -> Result<BigMap, Memory> {
    let mut overlay = Table::new(alloc);
    overlay.insert(Datum::Number(1), Some(tickets(alloc, 5)?))?;
    Ok(BigMap {
        base: None,
        overlay,
    })
}

// How many tickets are told of it where it is released.
fn released(alloc: Global) -> Result<usize, Memory> {
    let mut recorder = Recorder {
        tickets: Rows::new(alloc),
    };
    release(alloc, of_tickets(alloc)?, &mut recorder)?;
    Ok(recorder.tickets.len())
}

#[test]
fn the_tickets_of_a_big_map_that_is_released_are_told(rt: HostRuntime) -> Result<(), Fail> {
    let count = released(rt.alloc())?;
    assert!(rt; count == 1);
    Ok(())
}
