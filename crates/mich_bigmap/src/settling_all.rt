// Values whose big maps are all settled.
ghost use Rattle.std.specs.Prelude.{◌≡◌, Bool, IfOk};
ghost use Rattle.std.specs.List.{AllByRecursion};
ghost use Rattle.mich_base.specs.TypeView.{kind};
ghost use Rattle.mich_term.specs.declared.value.Value.TheFolds.{every-BigMap};
ghost use Rattle.mich_term.specs.Layers.{AreFormed, AnyLayer, FormedLayer};
ghost use Rattle.mich_bigmap.specs.Layers.{HasBases, BasedLayer};
ghost use Rattle.mich_bigmap.specs.Settling.{Settles, SettlesAll, SettlesEntries, SettlesBig, Lays};
ghost use Rattle.mich_bigmap.specs.Shared.{EntriesShareBy, ShareBy, SharesBig, SharesBy};

use crate::settling::settle;
use crate::store::Store;
use crate::types::{entry, first, inner, names_big_map, second, shares};
use mich_base::{Link, Memory, Rows, Ty};
use mich_term::{BigMap, Chain, Table, Value};
use std::alloc::Global;

/// A value that stands for the same, whose big maps are settled by its type: those whose values can be duplicated have a base and an
/// empty overlay, and the others stay as they are. A part whose type names no big map isn't looked at. After Memory the store is
/// given up with its world (Octez "big_map").
#[cycle(settle_all)]
pub fn settle_all(alloc: Global, store: &mut Store, value: Value, ty: &Ty) -> Result<Value, Memory>
    requires formed { AreFormed value }
    requires based { HasBases store.old.bases.present value }
    ensures settles { IfOk result (λ v. Settles store.old.bases.present store.new.bases.present value v) }
    ensures shared { IfOk result (λ v. SharesBy (kind ty.now) value v) }
    ensures lays { Lays store.old store.new }
{
    match value {
        Value::Pair(x, y) => {
            let left = settle_half(alloc, store, x, first(ty))?;
            let right = settle_half(alloc, store, y, second(ty))?;
            Ok(Value::Pair(left, right))
        }
        other => settle_part(alloc, store, other, ty),
    }
}

#[cycle(settle_all)]
fn settle_half(
    alloc: Global,
    store: &mut Store,
    value: Link<Value>,
    ty: &Ty,
) -> Result<Link<Value>, Memory>
    requires formed { AreFormed value }
    requires based { HasBases store.old.bases.present value }
    ensures settles { IfOk result (λ v. Settles store.old.bases.present store.new.bases.present value v) }
    ensures shared { IfOk result (λ v. SharesBy (kind ty.now) value v) }
    ensures lays { Lays store.old store.new }
{
    let settled = settle_all(alloc, store, value.into_value()?, ty)?;
    Link::new(alloc, settled)
}

// A value that is no pair.
fn settle_part(alloc: Global, store: &mut Store, value: Value, ty: &Ty) -> Result<Value, Memory>
    requires formed { AreFormed value }
    requires based { HasBases store.old.bases.present value }
    ensures settles { IfOk result (λ v. Settles store.old.bases.present store.new.bases.present value v) }
    ensures shared { IfOk result (λ v. SharesBy (kind ty.now) value v) }
    ensures lays { Lays store.old store.new }
{
    if names_big_map(ty) {
        settle_parts(alloc, store, value, ty)
    } else {
        Ok(value)
    }
}

// A value whose parts are all settled anew.
#[cycle(settle_parts)]
fn settle_parts(alloc: Global, store: &mut Store, value: Value, ty: &Ty) -> Result<Value, Memory>
    requires formed { AreFormed value }
    requires based { HasBases store.old.bases.present value }
    ensures settles { IfOk result (λ v. Settles store.old.bases.present store.new.bases.present value v) }
    ensures shared { IfOk result (λ v. SharesBy (kind ty.now) value v) }
    ensures lays { Lays store.old store.new }
{
    match value {
        Value::Some(x) => Ok(Value::Some(settle_link(alloc, store, x, inner(ty))?)),
        Value::Left(x) => Ok(Value::Left(settle_link(alloc, store, x, first(ty))?)),
        Value::Right(x) => Ok(Value::Right(settle_link(alloc, store, x, second(ty))?)),
        Value::Pair(x, y) => {
            let left = settle_link(alloc, store, x, first(ty))?;
            let right = settle_link(alloc, store, y, second(ty))?;
            Ok(Value::Pair(left, right))
        }
        Value::List(xs) => Ok(Value::List(settle_list(alloc, store, xs, inner(ty))?)),
        Value::Map(entries) => Ok(Value::Map(settle_table(alloc, store, entries, entry(ty))?)),
        Value::BigMap(big) => Ok(Value::BigMap(settle_big(alloc, store, big, shares(ty))?)),
        Value::Unit => Ok(Value::Unit),
        Value::Bool(b) => Ok(Value::Bool(b)),
        Value::Number(_) => Ok(value),
        Value::Text(text) => Ok(Value::Text(text)),
        Value::Bytes(bytes) => Ok(Value::Bytes(bytes)),
        Value::None => Ok(Value::None),
        Value::Set(elements) => Ok(Value::Set(elements)),
        Value::Lambda(body, recursive) => Ok(Value::Lambda(body, recursive)),
        Value::Operation(number) => Ok(Value::Operation(number)),
        Value::Ticket(ticket) => Ok(Value::Ticket(ticket)),
    }
}

#[cycle(settle_parts)]
fn settle_link(
    alloc: Global,
    store: &mut Store,
    value: Link<Value>,
    ty: &Ty,
) -> Result<Link<Value>, Memory>
    requires formed { AreFormed value }
    requires based { HasBases store.old.bases.present value }
    ensures settles { IfOk result (λ v. Settles store.old.bases.present store.new.bases.present value v) }
    ensures shared { IfOk result (λ v. SharesBy (kind ty.now) value v) }
    ensures lays { Lays store.old store.new }
{
    let settled = settle_parts(alloc, store, value.into_value()?, ty)?;
    Link::new(alloc, settled)
}

#[cycle(settle_parts)]
fn settle_list(
    alloc: Global,
    store: &mut Store,
    values: Link<Chain<Value>>,
    ty: &Ty,
) -> Result<Link<Chain<Value>>, Memory>
    requires formed { AllByRecursion AreFormed values }
    requires based { AllByRecursion (HasBases store.old.bases.present) values }
    ensures settles { IfOk result (λ vs. SettlesAll store.old.bases.present store.new.bases.present values vs) }
    ensures shared { IfOk result (λ vs. ShareBy (kind ty.now) values vs) }
    ensures lays { Lays store.old store.new }
{
    let mut copies = Rows::new(alloc);
    for value in values.into_value()?.into_vec() {
        copies.push(settle_parts(alloc, store, value, ty)?)?;
    }
    Link::new(alloc, Chain::from_rows(copies))
}

#[cycle(settle_parts)]
fn settle_table(
    alloc: Global,
    store: &mut Store,
    table: Link<Table<Value>>,
    ty: &Ty,
) -> Result<Link<Table<Value>>, Memory>
    requires formed { AllByRecursion (λ e. AreFormed e.1) table }
    requires based { AllByRecursion (λ e. HasBases store.old.bases.present e.1) table }
    ensures settles { IfOk result (λ t. SettlesEntries store.old.bases.present store.new.bases.present table t) }
    ensures shared { IfOk result (λ t. EntriesShareBy (kind ty.now) table t) }
    ensures lays { Lays store.old store.new }
{
    let _count = table.get().len();
    let mut copies = Table::new(alloc);
    for (key, value) in table.into_value()?.into_entries() {
        let settled = settle_parts(alloc, store, value, ty)?;
        let old = copies.insert(key, settled)?;
        drop(old);
    }
    Link::new(alloc, copies)
}

// A big map that is settled, where it is one whose values can be duplicated.
#[tactic(auto, using(crate::proofs::Settled::formed_is, crate::proofs::Settled::settles_as_it_is, crate::proofs::Settled::lays_same, crate::proofs::Sharing::big_as_it_is))]
fn settle_big(
    alloc: Global,
    store: &mut Store,
    big: Link<BigMap>,
    shared: bool,
) -> Result<Link<BigMap>, Memory>
    requires formed { every-BigMap AnyLayer FormedLayer big }
    requires based { every-BigMap AnyLayer (BasedLayer store.old.bases.present) big }
    ensures settles { IfOk result (λ b. SettlesBig store.old.bases.present store.new.bases.present big b) }
    ensures shared { IfOk result (λ b. SharesBig shared big b) }
    ensures lays { Lays store.old store.new }
{
    if !shared {
        return Ok(big);
    }
    let whole = big.into_value()?;
    let settled = settle(alloc, store, whole)?;
    Link::new(alloc, settled)
}
