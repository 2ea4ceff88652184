// What instructions without bodies weigh on a stack.
ghost use Rattle.std.specs.Prelude.{◌≡◌, true, false, take, slice_get, option_map, IfOk};
ghost use Rattle.std.specs.List.{sum_by};
ghost use Rattle.rules_code.specs.instructions.Straight as i;
ghost use Rattle.rules_data.specs.values.Weight.{weight as whole};
ghost use Rattle.rules_code.specs.steps.Costs.{weight_of, weight_found, stack_weight, collection_weight, number_weight};
ghost use Rattle.mich_overload.specs.View.{straight, stack_row, collection_row, number_row};
ghost use Rattle.mich_overload.specs.Steps.{in_step, is_on_big_map};
ghost use Rattle.mich_term.specs.Weights.{capped};
ghost use Rattle.mich_stack.specs.Views.{Sight, seen, values};
ghost use Rattle.mich_step.specs.prices.Operands.{HasKey, HasOperands};

use crate::collections::value_in;
use crate::prices::texts::text_weight;
use mich_base::{Memory, Rows};
use mich_overload::{CollectionRow, NumberRow, Simple, StackRow};
use mich_stack::{read_at, split_top, two_on_top};
use mich_term::{Value, weight};
use std::alloc::Global;

// The weight of a value that may be there.
fn found_weight(value: Option<&Value>) -> u64
    ensures { (big : Sight) → result ≡ capped (weight_found (option_map (λ v. seen big v.now) value.entry)) }
{
    match value {
        Some(value) => weight(value),
        None => 0,
    }
}

// The weight of the value at a depth.
fn weight_at(stack: &Rows<Value>, depth: usize) -> u64
    ensures { (big : Sight) → result ≡ capped (weight_found (slice_get (values big stack.now) depth)) }
{
    found_weight(read_at(stack, depth))
}

// The weight of so many values on top.
fn weight_above(stack: &Rows<Value>, count: usize) -> u64
    ensures { (big : Sight) → result ≡ capped (sum_by whole (take count (values big stack.now))) }
{
    let mut total: u64 = 0;
    for depth in 0..count {
        total = total.saturating_add(weight_at(stack, depth));
    }
    total
}

fn order_weight(row: &StackRow, stack: &Rows<Value>) -> u64
    ensures { (big : Sight) → result ≡ capped (stack_weight (stack_row row.now) (values big stack.now)) }
{
    match row {
        StackRow::Drop(count) => weight_above(stack, *count as usize),
        StackRow::Dup(place) => weight_at(stack, (*place as usize).saturating_sub(1)),
        _ => 0,
    }
}

// The weight of the value that GET finds in the map on top. Memory where there is no room for its key.
fn map_weight(alloc: Global, stack: &Rows<Value>) -> Result<u64, Memory>
    requires { (big : Sight) × HasKey i.get_map (values big stack.now) }
    ensures { IfOk result (λ w. (big : Sight) → w ≡ capped (collection_weight i.get_map (values big stack.now))) }
{
    let Some((key, Value::Map(table), _)) = two_on_top(stack.as_slice()) else {
        unreachable!()
    };
    let Some(key) = key.datum(alloc)? else {
        unreachable!()
    };
    Ok(found_weight(value_in(table, &key)))
}

// What one on collections weighs.
fn collection_weight(alloc: Global, row: &CollectionRow, stack: &Rows<Value>) -> Result<u64, Memory>
    requires no_big_map { is_on_big_map (collection_row row.now) ≡ false }
    requires operands { (big : Sight) × HasKey (collection_row row.now) (values big stack.now) }
    ensures { IfOk result (λ w. (big : Sight) → w ≡ capped (collection_weight (collection_row row.now) (values big stack.now))) }
{
    match row {
        CollectionRow::GetMap => Ok(map_weight(alloc, stack)?),
        CollectionRow::GetBigMap => unreachable!(),
        _ => Ok(0),
    }
}

/// What one on numbers weighs: the bytes on top that are read as a number, nothing else.
#[inline(always)]
pub fn number_weight(row: &NumberRow, stack: &Rows<Value>) -> u64
    ensures { (big : Sight) → result ≡ capped (number_weight (number_row row.now) (values big stack.now)) }
{
    match row {
        NumberRow::BytesToNat | NumberRow::BytesToInt => match split_top(stack.as_slice()) {
            Some((Value::Bytes(bytes), _)) => bytes.as_slice().len() as u64,
            _ => 0,
        },
        _ => 0,
    }
}

/// What an instruction weighs on a stack that has the operands it is weighed by, up to 2^64-1. Memory where there is no room for a
/// key. Not for instructions that pack, hash, look up or issue, or work on big maps (this host's cost table).
pub fn weigh(alloc: Global, instr: &Simple, stack: &Rows<Value>) -> Result<u64, Memory>
    requires in_step { in_step (straight instr.now) ≡ true }
    requires operands { (big : Sight) × HasOperands (straight instr.now) (values big stack.now) }
    ensures { IfOk result (λ w. (big : Sight) → w ≡ capped (weight_of (straight instr.now) (values big stack.now))) }
{
    match instr {
        Simple::Stack(row) => Ok(order_weight(row, stack)),
        Simple::Collections(row) => Ok(collection_weight(alloc, row, stack)?),
        Simple::Numbers(row) => Ok(number_weight(row, stack)),
        Simple::Texts(row) => Ok(text_weight(row, stack)),
        Simple::Hashes(_) => unreachable!(),
        _ => Ok(0),
    }
}
