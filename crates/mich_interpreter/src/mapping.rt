// MAP.
ghost use Rattle.std.specs.Prelude.{◌≡◌, ◌∷◌, ◌++◌, [], IfOk};
ghost use Rattle.rules_data.specs.values.Val.{some, unit};
ghost use Rattle.mich_stack.specs.Views.{Sight, seen};
ghost use Rattle.mich_frames.specs.Frames as fr;
ghost use Rattle.mich_frames.specs.Shapes.{HasMapped, items_in};
ghost use Rattle.mich_instr.specs.Code as made;
ghost use Rattle.mich_instr.specs.View.{codes};
ghost use Rattle.mich_interpreter.specs.Made.{AreKeysBelow, list_mapping, table_mapping, list_with, table_with};
ghost use Rattle.mich_interpreter.specs.Ends.{Comes, Carries, Waits, Resumes, WaitsOn, ResumesOn, Spends, Turns};

use crate::act::{Act, Failed};
use crate::frame::Frame;
use crate::items::{backwards, entries_of, pair_of, values_of};
use crate::made::{Making, OverList, OverTable};
use crate::paying::pay;
use crate::stack::{pop, push};
use mich_base::{Boxed, Link, Memory, Rows};
use mich_gas::{Costs, Kind};
use mich_instr::Block;
use mich_state::State;
use mich_term::{Chain, Datum, Table, Value};
use std::alloc::Global;

// Puts an entry behind those that are there.
fn put_last(table: &mut Table<Value>, key: Datum, value: Value) -> Result<(), Memory>
    requires { AreKeysBelow key table.old }
    ensures { IfOk result (λ _. table.new ≡ table.old ++ (key, value) ∷ []) }
{
    table.insert(key, value)?;
    Ok(())
}

// MAP's turn for a value of a list.
fn open_value(
    alloc: Global,
    m: &mut State,
    costs: &Costs,
    body: Block,
    work: OverList,
    item: Value,
) -> Result<Act, Memory>
    requires { WaitsOn (λ big. list_mapping big (codes body) (list_with work item)) costs.now m.old }
    ensures acts { ResumesOn (λ big. list_mapping big (codes body) (list_with work item)) costs.now m.old m.new result }
    ensures gas { IfOk result (λ a. Turns a m.old.meter m.new.meter) }
    ensures ledger { m.new.ledger ≡ m.old.ledger }
    ensures counts { m.new.counts ≡ m.old.counts }
    ensures issued { m.new.issued ≡ m.old.issued }
{
    if !pay(&mut m.meter, costs, Kind::Turn, 0) {
        return Ok(Act::Failed(Failed::OutOfGas));
    }
    push(&mut m.stack, item)?;
    let code = body.share()?;
    let making = Boxed::new(alloc, Making::Value(work))?;
    Ok(Act::Open(Some(Frame::Making(body, making)), code))
}

// The turn of a MAP over a list for its next value, or its end.
fn next_value(
    alloc: Global,
    m: &mut State,
    costs: &Costs,
    body: Block,
    work: OverList,
) -> Result<Act, Memory>
    requires { WaitsOn (λ big. list_mapping big (codes body) work) costs.now m.old }
    ensures acts { ResumesOn (λ big. list_mapping big (codes body) work) costs.now m.old m.new result }
    ensures gas { IfOk result (λ a. Turns a m.old.meter m.new.meter) }
    ensures ledger { m.new.ledger ≡ m.old.ledger }
    ensures counts { m.new.counts ≡ m.old.counts }
    ensures issued { m.new.issued ≡ m.old.issued }
{
    let mut work = work;
    match work.left.pop() {
        Some(item) => Ok(open_value(alloc, m, costs, body, work, item)?),
        None => {
            let made = Link::new(alloc, Chain::from_rows(work.made))?;
            push(&mut m.stack, Value::List(made))?;
            Ok(Act::On)
        }
    }
}

// MAP's turn for an entry of a map.
fn open_entry(
    alloc: Global,
    m: &mut State,
    costs: &Costs,
    body: Block,
    work: OverTable,
    entry: (Datum, Value),
) -> Result<Act, Memory>
    requires { WaitsOn (λ big. table_mapping big (codes body) (table_with work entry)) costs.now m.old }
    ensures acts { ResumesOn (λ big. table_mapping big (codes body) (table_with work entry)) costs.now m.old m.new result }
    ensures gas { IfOk result (λ a. Turns a m.old.meter m.new.meter) }
    ensures ledger { m.new.ledger ≡ m.old.ledger }
    ensures counts { m.new.counts ≡ m.old.counts }
    ensures issued { m.new.issued ≡ m.old.issued }
{
    if !pay(&mut m.meter, costs, Kind::Turn, 0) {
        return Ok(Act::Failed(Failed::OutOfGas));
    }
    let (key, value) = entry;
    let item = pair_of(alloc, &key, value)?;
    push(&mut m.stack, item)?;
    let code = body.share()?;
    let making = Boxed::new(alloc, Making::Entry(work, key))?;
    Ok(Act::Open(Some(Frame::Making(body, making)), code))
}

// The turn of a MAP over a map for its next entry, or its end.
fn next_entry(
    alloc: Global,
    m: &mut State,
    costs: &Costs,
    body: Block,
    work: OverTable,
) -> Result<Act, Memory>
    requires { WaitsOn (λ big. table_mapping big (codes body) work) costs.now m.old }
    ensures acts { ResumesOn (λ big. table_mapping big (codes body) work) costs.now m.old m.new result }
    ensures gas { IfOk result (λ a. Turns a m.old.meter m.new.meter) }
    ensures ledger { m.new.ledger ≡ m.old.ledger }
    ensures counts { m.new.counts ≡ m.old.counts }
    ensures issued { m.new.issued ≡ m.old.issued }
{
    let mut work = work;
    match work.left.pop() {
        Some(entry) => Ok(open_entry(alloc, m, costs, body, work, entry)?),
        None => {
            let made = Link::new(alloc, work.made)?;
            push(&mut m.stack, Value::Map(made))?;
            Ok(Act::On)
        }
    }
}

// A result of MAP is made.
pub(crate) fn next_made(
    alloc: Global,
    m: &mut State,
    costs: &Costs,
    body: Block,
    making: Making,
) -> Result<Act, Memory>
    requires { Waits (Frame.Making body making) costs.now m.old }
    ensures acts { Resumes (Frame.Making body making) costs.now m.old m.new result }
    ensures gas { IfOk result (λ a. Turns a m.old.meter m.new.meter) }
    ensures ledger { m.new.ledger ≡ m.old.ledger }
    ensures counts { m.new.counts ≡ m.old.counts }
    ensures issued { m.new.issued ≡ m.old.issued }
{
    let result = pop(&mut m.stack);
    match making {
        Making::Value(work) => {
            let mut work = work;
            work.made.push(result)?;
            Ok(next_value(alloc, m, costs, body, work)?)
        }
        Making::Entry(work, key) => {
            let mut work = work;
            put_last(&mut work.made, key, result)?;
            Ok(next_entry(alloc, m, costs, body, work)?)
        }
        Making::Part => {
            let part = Link::new(alloc, result)?;
            push(&mut m.stack, Value::Some(part))?;
            Ok(Act::On)
        }
    }
}

// The turn of a MAP over an option for what it holds.
fn next_part(
    alloc: Global,
    m: &mut State,
    costs: &Costs,
    body: &Block,
    part: Value,
) -> Result<Act, Memory>
    requires { WaitsOn (λ big. fr.mapping (codes body.now) (some unit) [] (seen big part ∷ [])) costs.now m.old }
    ensures acts { ResumesOn (λ big. fr.mapping (codes body.now) (some unit) [] (seen big part ∷ [])) costs.now m.old m.new result }
    ensures gas { IfOk result (λ a. Turns a m.old.meter m.new.meter) }
    ensures ledger { m.new.ledger ≡ m.old.ledger }
    ensures counts { m.new.counts ≡ m.old.counts }
    ensures issued { m.new.issued ≡ m.old.issued }
{
    if !pay(&mut m.meter, costs, Kind::Turn, 0) {
        return Ok(Act::Failed(Failed::OutOfGas));
    }
    push(&mut m.stack, part)?;
    let below = body.share()?;
    let code = body.share()?;
    let making = Boxed::new(alloc, Making::Part)?;
    Ok(Act::Open(Some(Frame::Making(below, making)), code))
}

// MAP on its collection.
fn begin_map(
    alloc: Global,
    m: &mut State,
    costs: &Costs,
    body: &Block,
    over: Value,
) -> Result<Act, Memory>
    requires shape { (big : Sight) × HasMapped (seen big over ∷ []) }
    requires waits { WaitsOn (λ big. fr.mapping (codes body.now) (seen big over) [] (items_in (seen big over))) costs.now m.old }
    ensures acts { ResumesOn (λ big. fr.mapping (codes body.now) (seen big over) [] (items_in (seen big over))) costs.now m.old m.new result }
    ensures gas { IfOk result (λ a. Turns a m.old.meter m.new.meter) }
    ensures ledger { m.new.ledger ≡ m.old.ledger }
    ensures counts { m.new.counts ≡ m.old.counts }
    ensures issued { m.new.issued ≡ m.old.issued }
{
    match over {
        Value::List(list) => {
            let body = body.share()?;
            let list = list.into_value()?;
            let left = values_of(list);
            let made = Rows::new(alloc);
            Ok(next_value(alloc, m, costs, body, OverList { left, made })?)
        }
        Value::Map(table) => {
            let body = body.share()?;
            let table = table.into_value()?;
            let left = backwards(entries_of(alloc, table)?);
            let made = Table::new(alloc);
            Ok(next_entry(alloc, m, costs, body, OverTable { left, made })?)
        }
        Value::Some(part) => Ok(next_part(alloc, m, costs, body, part.into_value()?)?),
        Value::None => {
            push(&mut m.stack, Value::None)?;
            Ok(Act::On)
        }
        _ => unreachable!(),
    }
}

pub(crate) fn act_map(
    alloc: Global,
    m: &mut State,
    costs: &Costs,
    body: &Block,
) -> Result<Act, Memory>
    requires { Comes (made.map (codes body.now)) costs.now m.old }
    ensures acts { Carries (made.map (codes body.now)) costs.now m.old m.new result }
    ensures less { IfOk result (λ a. Spends a m.old.meter m.new.meter) }
    ensures ledger { m.new.ledger ≡ m.old.ledger }
    ensures counts { m.new.counts ≡ m.old.counts }
    ensures issued { m.new.issued ≡ m.old.issued }
{
    if !pay(&mut m.meter, costs, Kind::Map, 0) {
        return Ok(Act::Failed(Failed::OutOfGas));
    }
    let over = pop(&mut m.stack);
    let act = begin_map(alloc, m, costs, body, over)?;
    Ok(act)
}
