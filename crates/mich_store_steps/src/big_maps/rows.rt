// Rows on big maps.
ghost use Rattle.std.specs.Prelude.{◌≡◌, List, true, IfOk};
ghost use Rattle.rules_code.specs.instructions.Straight as i;
ghost use Rattle.mich_base.specs.TypeView.{kind};
ghost use Rattle.mich_bigmap.specs.Bases.{Bases};
ghost use Rattle.mich_overload.specs.View.{collection_row};
ghost use Rattle.mich_overload.specs.Steps.{is_on_big_map};
ghost use Rattle.mich_stack.specs.Views.{plain};
ghost use Rattle.mich_stack.specs.Keys.{IsKeyOnTop};
ghost use Rattle.mich_step.specs.Shown.{ShowsTickets};
ghost use Rattle.mich_term.specs.declared.value.Value.{Value};
ghost use Rattle.mich_store_steps.specs.seen.Sights.{sight};
ghost use Rattle.mich_store_steps.specs.big_maps.Given.{Exchanges, HandsOut, values_in};
ghost use Rattle.mich_store_steps.specs.big_maps.Operands.{IsBigMapSecond, IsBigMapThird, HasBigMap, HasKey};

use crate::big_maps::entries::{exchanged, found, is_there, no_entries};
use crate::big_maps::taking::{big_value, copied, or_unit, take_big, take_option, truth_value};
use mich_base::{Memory, Rows, Ty};
use mich_bigmap::Store;
use mich_overload::CollectionRow;
use mich_stack::{optional_value, push, take_key};
use mich_term::Value;
use std::alloc::Global;

// A big map without entries, of types that its contract names.
fn empty_big_map(
    alloc: Global,
    key: &Ty,
    value: &Ty,
    stack: &mut Rows<Value>,
) -> Result<Value, Memory>
    ensures { (bs : Bases) → HandsOut bs (i.empty_big_map (kind key.now) (kind value.now)) stack.old stack.new result }
{
    let _key = key;
    let empty = big_value(alloc, no_entries(alloc))?;
    push(stack, empty)?;
    Ok(Value::Unit)
}

fn mem_big_map(alloc: Global, stack: &mut Rows<Value>, store: &Store) -> Result<Value, Memory>
    requires key { IsKeyOnTop (plain stack.old) }
    requires big_map { IsBigMapSecond (values_in store.now.bases.present stack.old) }
    ensures { HandsOut store.now.bases.present i.mem_big_map stack.old stack.new result }
{
    let key = take_key(alloc, stack)?;
    let big = take_big(stack)?;
    let found = is_there(store, &big, &key);
    drop(key);
    push(stack, truth_value(found))?;
    let gone = big_value(alloc, big)?;
    Ok(gone)
}

fn get_big_map(alloc: Global, stack: &mut Rows<Value>, store: &Store) -> Result<Value, Memory>
    requires key { IsKeyOnTop (plain stack.old) }
    requires big_map { IsBigMapSecond (values_in store.now.bases.present stack.old) }
    ensures { HandsOut store.now.bases.present i.get_big_map stack.old stack.new result }
{
    let key = take_key(alloc, stack)?;
    let big = take_big(stack)?;
    let value = copied(alloc, found(store, &big, &key))?;
    drop(big);
    drop(key);
    push(stack, value)?;
    Ok(Value::Unit)
}

// Puts a value at a key of the big map, or takes the entry there away, and gives the value that was there.
fn exchange(alloc: Global, stack: &mut Rows<Value>, store: &Store) -> Result<Option<Value>, Memory>
    requires key { IsKeyOnTop (plain stack.old) }
    requires big_map { IsBigMapThird (values_in store.now.bases.present stack.old) }
    requires shows { (vs : List Value) → ShowsTickets (sight store.now.bases.present) vs }
    ensures { IfOk result (λ old. Exchanges store.now.bases.present stack.old old stack.new) }
{
    let key = take_key(alloc, stack)?;
    let new = take_option(stack)?;
    let mut big = take_big(stack)?;
    let old = exchanged(alloc, store, &mut big, key, new)?;
    let big = big_value(alloc, big)?;
    push(stack, big)?;
    Ok(old)
}

fn update_big_map(alloc: Global, stack: &mut Rows<Value>, store: &Store) -> Result<Value, Memory>
    requires key { IsKeyOnTop (plain stack.old) }
    requires big_map { IsBigMapThird (values_in store.now.bases.present stack.old) }
    requires shows { (vs : List Value) → ShowsTickets (sight store.now.bases.present) vs }
    ensures { HandsOut store.now.bases.present i.update_big_map stack.old stack.new result }
{
    let old = exchange(alloc, stack, store)?;
    Ok(or_unit(old))
}

fn get_and_update_big_map(
    alloc: Global,
    stack: &mut Rows<Value>,
    store: &Store,
) -> Result<Value, Memory>
    requires key { IsKeyOnTop (plain stack.old) }
    requires big_map { IsBigMapThird (values_in store.now.bases.present stack.old) }
    requires shows { (vs : List Value) → ShowsTickets (sight store.now.bases.present) vs }
    ensures { HandsOut store.now.bases.present i.get_and_update_big_map stack.old stack.new result }
{
    let old = exchange(alloc, stack, store)?;
    let value = optional_value(alloc, old)?;
    push(stack, value)?;
    Ok(Value::Unit)
}

/// What an instruction on big maps makes of a stack, where they lie over the bases of a store; it hands out what it discards. The
/// store is only read. Memory where there is no room for it; the stack is then given up (Michelson reference, "Operations on big
/// maps").
pub fn big_map_step(
    alloc: Global,
    row: &CollectionRow,
    stack: &mut Rows<Value>,
    store: &Store,
) -> Result<Value, Memory>
    requires on_big_map { is_on_big_map (collection_row row.now) ≡ true }
    requires key { HasKey (collection_row row.now) (plain stack.old) }
    requires big_map { HasBigMap (collection_row row.now) (values_in store.now.bases.present stack.old) }
    requires shows { (vs : List Value) → ShowsTickets (sight store.now.bases.present) vs }
    ensures { HandsOut store.now.bases.present (collection_row row.now) stack.old stack.new result }
{
    match row {
        CollectionRow::EmptyBigMap(key, value) => empty_big_map(alloc, key, value, stack),
        CollectionRow::MemBigMap => mem_big_map(alloc, stack, store),
        CollectionRow::GetBigMap => get_big_map(alloc, stack, store),
        CollectionRow::UpdateBigMap => update_big_map(alloc, stack, store),
        CollectionRow::GetAndUpdateBigMap => get_and_update_big_map(alloc, stack, store),
        _ => unreachable!(),
    }
}
