// Maps, and the size of lists.
ghost use Rattle.std.specs.Prelude.{◌≡◌, ◌∷◌, option_map, Option, Some, None, IfOk};
ghost use Rattle.rules_code.specs.instructions.Straight as i;
ghost use Rattle.rules_code.specs.steps.Step.{optional};
ghost use Rattle.rules_code.specs.steps.Collections.{collection_step};
ghost use Rattle.mich_base.specs.TypeView.{kind};
ghost use Rattle.mich_stack.specs.Views.{Sight, seen, values, plain};
ghost use Rattle.mich_stack.specs.Ends.{Fits, Keeps};
ghost use Rattle.mich_stack.specs.Given.{Gives};
ghost use Rattle.mich_stack.specs.Keys.{IsKeyOnTop};
ghost use Rattle.mich_step.specs.collections.Shapes.{IsOptionOnTop, IsMapOnTop, IsExchange};

use crate::collections::tables::{copy_at, has_key, list_size, map_size, map_with};
use crate::collections::taking::{list_value, map_value, take_list, take_map, truth_value};
use mich_base::{Link, Memory, Rows, Ty};
use mich_stack::{StepError, optional_value, pop, push, take_key};
use mich_term::{Table, Value};
use std::alloc::Global;

// A map of no entries, of types that its contract names.
pub(crate) fn empty_map(
    alloc: Global,
    key: &Ty,
    value: &Ty,
    stack: &mut Rows<Value>,
) -> Result<(), StepError>
    ensures { Keeps (collection_step (i.empty_map (kind key.now) (kind value.now))) stack.old stack.new result }
{
    let _key = key;
    let _value = value;
    push(stack, Value::Map(Link::new(alloc, Table::new(alloc))?))?;
    Ok(())
}

pub(crate) fn size_list(stack: &mut Rows<Value>) -> Result<Value, StepError>
    requires { Fits (collection_step i.size_list) stack.old }
    ensures { Gives (collection_step i.size_list) stack.old stack.new result }
{
    let list = take_list(stack);
    let size = list_size(&list);
    push(stack, size)?;
    Ok(list_value(list))
}

pub(crate) fn size_map(stack: &mut Rows<Value>) -> Result<Value, StepError>
    requires { Fits (collection_step i.size_map) stack.old }
    ensures { Gives (collection_step i.size_map) stack.old stack.new result }
{
    let table = take_map(stack);
    let size = map_size(&table);
    push(stack, size)?;
    Ok(map_value(table))
}

pub(crate) fn mem_map(alloc: Global, stack: &mut Rows<Value>) -> Result<Value, StepError>
    requires fits { Fits (collection_step i.mem_map) stack.old }
    requires suits { IsKeyOnTop (plain stack.old) }
    ensures { Gives (collection_step i.mem_map) stack.old stack.new result }
{
    let key = take_key(alloc, stack)?;
    let table = take_map(stack);
    let found = truth_value(has_key(&table, &key));
    drop(key);
    push(stack, found)?;
    Ok(map_value(table))
}

pub(crate) fn get_map(alloc: Global, stack: &mut Rows<Value>) -> Result<(), StepError>
    requires fits { Fits (collection_step i.get_map) stack.old }
    requires suits { IsKeyOnTop (plain stack.old) }
    ensures { Keeps (collection_step i.get_map) stack.old stack.new result }
{
    let key = take_key(alloc, stack)?;
    let table = take_map(stack);
    let value = copy_at(alloc, &table, &key)?;
    drop(table);
    drop(key);
    let found = optional_value(alloc, value)?;
    push(stack, found)?;
    Ok(())
}

// Takes the optional value on top.
fn take_option(stack: &mut Rows<Value>) -> Result<Option<Value>, Memory>
    requires { (big : Sight) × IsOptionOnTop (values big stack.old) }
    ensures { IfOk result (λ value. (big : Sight) → values big stack.old ≡ optional (option_map (seen big) value) ∷ values big stack.new) }
{
    match pop(stack) {
        Some(Value::Some(value)) => Ok(Some(value.into_value()?)),
        Some(Value::None) => Ok(None),
        _ => unreachable!(),
    }
}

// Puts a value at a key of the map, or takes the entry there away, and gives the value that was there.
fn exchange(alloc: Global, stack: &mut Rows<Value>) -> Result<Option<Value>, Memory>
    requires fits { (big : Sight) × IsMapOnTop (values big stack.old) }
    requires suits { IsKeyOnTop (plain stack.old) }
    ensures { IfOk result (λ old. (big : Sight) → IsExchange (values big stack.old) (option_map (seen big) old) (values big stack.new)) }
{
    let key = take_key(alloc, stack)?;
    let new = take_option(stack)?;
    let table = take_map(stack);
    let (table, old) = map_with(alloc, table, key, new)?;
    push(stack, map_value(table))?;
    Ok(old)
}

#[tactic(auto, using(crate::proofs::collections_lemmas::Updates::update_fits))]
pub(crate) fn update_map(alloc: Global, stack: &mut Rows<Value>) -> Result<Value, StepError>
    requires fits { Fits (collection_step i.update_map) stack.old }
    requires suits { IsKeyOnTop (plain stack.old) }
    ensures { Gives (collection_step i.update_map) stack.old stack.new result }
{
    match exchange(alloc, stack)? {
        Some(old) => Ok(old),
        None => Ok(Value::Unit),
    }
}

#[tactic(auto, using(crate::proofs::collections_lemmas::Updates::both_fits))]
pub(crate) fn get_and_update_map(alloc: Global, stack: &mut Rows<Value>) -> Result<(), StepError>
    requires fits { Fits (collection_step i.get_and_update_map) stack.old }
    requires suits { IsKeyOnTop (plain stack.old) }
    ensures { Keeps (collection_step i.get_and_update_map) stack.old stack.new result }
{
    let old = exchange(alloc, stack)?;
    let old = optional_value(alloc, old)?;
    push(stack, old)?;
    Ok(())
}
