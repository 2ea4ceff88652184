// The group of collections.
ghost use Rattle.std.specs.Prelude.{◌≡◌, ◌++◌, IfOk, false};
ghost use Rattle.rules_code.specs.steps.Collections.{collection_step};
ghost use Rattle.mich_overload.specs.View.{collection_row};
ghost use Rattle.mich_overload.specs.Steps.{is_on_big_map};
ghost use Rattle.mich_stack.specs.Views.{plain};
ghost use Rattle.mich_stack.specs.Ends.{Fits, Ends, gone};
ghost use Rattle.mich_stack.specs.Given.{Gives};
ghost use Rattle.mich_step.specs.Burners.{StaysReady};
ghost use Rattle.mich_step.specs.collections.Keys.{SuitsCollections};

use crate::collections::maps::{
    empty_map, get_and_update_map, get_map, mem_map, size_list, size_map, update_map,
};
use crate::collections::sets::{empty_set, mem_set, size_set, update_set};
use mich_base::Rows;
use mich_overload::CollectionRow;
use mich_stack::{StepError, nothing};
use mich_term::{Burner, Value, discard};
use std::alloc::Global;

// What working on sets, maps and lists makes of a stack, and what it discards.
fn give_collections(
    alloc: Global,
    row: &CollectionRow,
    stack: &mut Rows<Value>,
) -> Result<Value, StepError>
    requires no_big_map { is_on_big_map (collection_row row.now) ≡ false }
    requires fits { Fits (collection_step (collection_row row.now)) stack.old }
    requires suits { SuitsCollections (collection_row row.now) (plain stack.old) }
    ensures { Gives (collection_step (collection_row row.now)) stack.old stack.new result }
{
    match row {
        CollectionRow::EmptySet(ty) => nothing(empty_set(alloc, ty, stack)),
        CollectionRow::EmptyMap(key, value) => nothing(empty_map(alloc, key, value, stack)),
        CollectionRow::SizeList => size_list(stack),
        CollectionRow::SizeSet => nothing(size_set(stack)),
        CollectionRow::SizeMap => size_map(stack),
        CollectionRow::MemSet => nothing(mem_set(alloc, stack)),
        CollectionRow::MemMap => mem_map(alloc, stack),
        CollectionRow::GetMap => nothing(get_map(alloc, stack)),
        CollectionRow::UpdateSet => nothing(update_set(alloc, stack)),
        CollectionRow::UpdateMap => update_map(alloc, stack),
        CollectionRow::GetAndUpdateMap => nothing(get_and_update_map(alloc, stack)),
        _ => unreachable!(),
    }
}

/// What working on sets, maps and lists makes of a stack (Michelson reference, "Operations on sets", "Operations on maps" and
/// "Operations on lists"). Not for big maps.
#[tactic(auto, using(mich_stack::proofs::ForCallers::given_gone, mich_stack::proofs::ForCallers::given_ends))]
pub fn collection_step<B: Burner>(
    alloc: Global,
    row: &CollectionRow,
    stack: &mut Rows<Value>,
    burner: &mut B,
) -> Result<(), StepError>
    requires no_big_map { is_on_big_map (collection_row row.now) ≡ false }
    requires fits { Fits (collection_step (collection_row row.now)) stack.old }
    requires suits { SuitsCollections (collection_row row.now) (plain stack.old) }
    requires ready { B.ready burner.old (gone (collection_step (collection_row row.now) (plain stack.old))) }
    ensures ends { Ends (collection_step (collection_row row.now)) stack.old stack.new result }
    ensures tells { IfOk result (λ _. B.told burner.new ≡ B.told burner.old ++ gone (collection_step (collection_row row.now) (plain stack.old))) }
    ensures stays_ready { IfOk result (λ _. StaysReady B.ready burner.old burner.new (gone (collection_step (collection_row row.now) (plain stack.old)))) }
{
    match give_collections(alloc, row, stack) {
        Ok(given) => {
            discard(alloc, given, burner)?;
            Ok(())
        }
        Err(error) => Err(error),
    }
}
