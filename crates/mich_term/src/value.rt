// All values.
ghost use Rattle.std.specs.Prelude.{◌≡◌, IfOk, []};
ghost use Rattle.rules_data.specs.values.Tickets.{tickets};
ghost use Rattle.mich_term.specs.ValueView.{val};

use crate::chain::Chain;
use crate::datum::{Datum, copy_datum};
use crate::elements::Elements;
use crate::table::Table;
use crate::ticket::Ticket;
use mich_base::{Bytes, Link, Memory, Share, Shared, Text};
use mich_instr::Body;
use std::alloc::Global;

/// A value that scripts work on (Michelson reference, "Types").
#[derive(Debug, Drop)]
#[cycle(value)]
pub enum Value {
    Unit,
    Bool(bool),
    /// An integer, natural number, amount of mutez or timestamp.
    Number(i128),
    Text(Text),
    /// Bytes, or a key, key hash, signature, chain id or address by the bytes that spell it.
    Bytes(Bytes),
    None,
    Some(Link<Value>),
    Left(Link<Value>),
    Right(Link<Value>),
    Pair(Link<Value>, Link<Value>),
    List(Link<Chain<Value>>),
    Set(Link<Elements>),
    Map(Link<Table<Value>>),
    BigMap(Link<BigMap>),
    /// A lambda: its body, and whether it is recursive.
    Lambda(Shared<Body>, bool),
    /// The number of an operation.
    Operation(u32),
    Ticket(Link<Ticket>),
}

/// A big map: what its base has, changed by the overlay. Where there is no base the overlay has all its entries, with
/// strictly increasing keys.
#[derive(Debug, Drop)]
#[cycle(value)]
pub struct BigMap {
    /// The number of its base. None where it has none.
    pub base: Option<u64>,
    /// What was put at a key, or None where the base's entry was taken away.
    pub overlay: Table<Option<Value>>,
}

/// An equal value, its tickets too, in constant time: the one call that copies tickets. Memory where there is no room for it.
pub fn shadow(alloc: Global, value: &Value) -> Result<Value, Memory>
    ensures { IfOk result (λ v. v ≡ value.now) }
{
    match value {
        Value::Unit => Ok(Value::Unit),
        Value::Bool(b) => Ok(Value::Bool(*b)),
        Value::Number(n) => Ok(Value::Number(*n)),
        Value::Text(text) => Ok(Value::Text(text.copy(alloc)?)),
        Value::Bytes(bytes) => Ok(Value::Bytes(bytes.copy(alloc)?)),
        Value::None => Ok(Value::None),
        Value::Some(x) => Ok(Value::Some(x.share()?)),
        Value::Left(x) => Ok(Value::Left(x.share()?)),
        Value::Right(x) => Ok(Value::Right(x.share()?)),
        Value::Pair(x, y) => {
            let first = x.share()?;
            let second = y.share()?;
            Ok(Value::Pair(first, second))
        }
        Value::List(list) => {
            let list = list.share()?;
            Ok(Value::List(list))
        }
        Value::Set(set) => {
            let set = set.share()?;
            Ok(Value::Set(set))
        }
        Value::Map(table) => {
            let table = table.share()?;
            Ok(Value::Map(table))
        }
        Value::BigMap(big) => {
            let big = big.share()?;
            Ok(Value::BigMap(big))
        }
        Value::Lambda(body, recursive) => {
            let body = body.share()?;
            Ok(Value::Lambda(body, *recursive))
        }
        Value::Operation(n) => Ok(Value::Operation(*n)),
        Value::Ticket(ticket) => {
            let ticket = ticket.share()?;
            Ok(Value::Ticket(ticket))
        }
    }
}

fn shadow_all(alloc: Global, values: &Chain<Value>) -> Result<Chain<Value>, Memory>
    ensures { IfOk result (λ vs. vs ≡ values.now) }
{
    let mut copies = Chain::new(alloc);
    for value in values.as_reversed_slice() {
        copies.push(shadow(alloc, value)?)?;
    }
    Ok(copies)
}

fn shadow_table(alloc: Global, table: &Table<Value>) -> Result<Table<Value>, Memory>
    ensures { IfOk result (λ t. t ≡ table.now) }
{
    let mut copies = Vec::with_capacity(alloc, table.len())?;
    for (key, value) in table.iter() {
        let new_key = copy_datum(alloc, key)?;
        let new_value = shadow(alloc, value)?;
        copies.push((new_key, new_value))?;
    }
    Table::of_entries(alloc, copies)
}

// An equal change.
fn shadow_change(alloc: Global, change: &Option<Value>) -> Result<Option<Value>, Memory>
    ensures { IfOk result (λ c. c ≡ change.now) }
{
    match change {
        Some(value) => Ok(Some(shadow(alloc, value)?)),
        None => Ok(None),
    }
}

fn shadow_changes(
    alloc: Global,
    changes: &Table<Option<Value>>,
) -> Result<Table<Option<Value>>, Memory>
    ensures { IfOk result (λ t. t ≡ changes.now) }
{
    let mut copies = Vec::with_capacity(alloc, changes.len())?;
    for (key, change) in changes.iter() {
        let new_key = copy_datum(alloc, key)?;
        let new_change = shadow_change(alloc, change)?;
        copies.push((new_key, new_change))?;
    }
    Table::of_entries(alloc, copies)
}

fn shadow_big(alloc: Global, big: &BigMap) -> Result<BigMap, Memory>
    ensures { IfOk result (λ b. b ≡ big.now) }
{
    let overlay = shadow_changes(alloc, &big.overlay)?;
    Ok(BigMap {
        base: big.base,
        overlay,
    })
}

impl Share for Value {
    fn share(&self, alloc: Global) -> Result<Value, Memory> {
        shadow(alloc, self)
    }
}

impl Share for Chain<Value> {
    fn share(&self, alloc: Global) -> Result<Chain<Value>, Memory> {
        shadow_all(alloc, self)
    }
}

impl Share for Elements {
    fn share(&self, alloc: Global) -> Result<Elements, Memory> {
        self.copy(alloc)
    }
}

impl Share for Table<Value> {
    fn share(&self, alloc: Global) -> Result<Table<Value>, Memory> {
        shadow_table(alloc, self)
    }
}

impl Share for BigMap {
    fn share(&self, alloc: Global) -> Result<BigMap, Memory> {
        shadow_big(alloc, self)
    }
}

/// An equal value, of one that holds no ticket. Memory where there is no room for it.
pub fn dup(alloc: Global, value: &Value) -> Result<Value, Memory>
    requires { tickets (val value.now) ≡ [] }
    ensures { IfOk result (λ v. v ≡ value.now) }
{
    shadow(alloc, value)
}

/// Ends a value and tells no ticket: a shadow, a value after Memory or a failure, or a storage that is held no more. Takes
/// no memory.
pub fn abandon(value: Value) {
    drop(value);
}

const _: () = prove!(size_of::<Value>() == 32);

const _: () = prove!(size_of::<Datum>() == 32);
