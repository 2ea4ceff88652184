// What instructions on big maps weigh.
ghost use Rattle.std.specs.Prelude.{◌≡◌, true, option_map, IfOk};
ghost use Rattle.rules_code.specs.instructions.Straight as i;
ghost use Rattle.rules_code.specs.steps.Costs.{collection_weight, weight_found};
ghost use Rattle.mich_overload.specs.View.{collection_row};
ghost use Rattle.mich_overload.specs.Steps.{is_on_big_map};
ghost use Rattle.mich_stack.specs.Views.{plain};
ghost use Rattle.mich_stack.specs.Keys.{IsKeyOnTop};
ghost use Rattle.mich_term.specs.Weights.{capped};
ghost use Rattle.mich_term.specs.ValueView.{val};
ghost use Rattle.mich_store_steps.specs.big_maps.Given.{values_in};
ghost use Rattle.mich_store_steps.specs.big_maps.Operands.{IsBigMapSecond, HasBigMap, HasKey};

use crate::big_maps::entries::found;
use mich_base::{Memory, Rows};
use mich_bigmap::Store;
use mich_overload::CollectionRow;
use mich_stack::two_on_top;
use mich_term::{Value, weight};
use std::alloc::Global;

// The weight of a value that may be there.
fn found_weight(value: Option<&Value>) -> u64
    ensures { result ≡ capped (weight_found (option_map (λ v. val v.now) value.entry)) }
{
    match value {
        Some(value) => weight(value),
        None => 0,
    }
}

// The weight of the value that GET finds in the big map on top.
fn get_weight(alloc: Global, stack: &Rows<Value>, store: &Store) -> Result<u64, Memory>
    requires key { IsKeyOnTop (plain stack.now) }
    requires big_map { IsBigMapSecond (values_in store.now.bases.present stack.now) }
    ensures { IfOk result (λ w. w ≡ capped (collection_weight i.get_big_map (values_in store.now.bases.present stack.now))) }
{
    let Some((key, big, _)) = two_on_top(stack.as_slice()) else {
        unreachable!()
    };
    let Value::BigMap(big) = big else {
        unreachable!()
    };
    let Some(key) = key.datum(alloc)? else {
        unreachable!()
    };
    Ok(found_weight(found(store, big.get(), &key)))
}

/// What an instruction on big maps weighs on a stack, up to 2^64-1, where they lie over the bases of a store: GET weighs the value
/// that it finds (this host's cost table). Memory where there is no room for the key.
pub fn big_map_weight(
    alloc: Global,
    row: &CollectionRow,
    stack: &Rows<Value>,
    store: &Store,
) -> Result<u64, Memory>
    requires on_big_map { is_on_big_map (collection_row row.now) ≡ true }
    requires key { HasKey (collection_row row.now) (plain stack.now) }
    requires big_map { HasBigMap (collection_row row.now) (values_in store.now.bases.present stack.now) }
    ensures { IfOk result (λ w. w ≡ capped (collection_weight (collection_row row.now) (values_in store.now.bases.present stack.now))) }
{
    match row {
        CollectionRow::GetBigMap => Ok(get_weight(alloc, stack, store)?),
        _ => Ok(0),
    }
}
