// Sets.
ghost use Rattle.std.specs.Prelude.{◌≡◌, pos, Ok, IfOk};
ghost use Rattle.rules_data.specs.numbers.Limits.{int_or_limit};
ghost use Rattle.rules_code.specs.instructions.Straight as i;
ghost use Rattle.rules_code.specs.steps.Collections.{collection_step, set_with};
ghost use Rattle.rules_code.specs.steps.Sets.{element_count, has_element};
ghost use Rattle.mich_base.specs.TypeView.{kind};
ghost use Rattle.mich_term.specs.View.{datum, datums};
ghost use Rattle.rules_data.specs.values.Val.{number};
ghost use Rattle.mich_stack.specs.Views.{Sight, seen, plain};
ghost use Rattle.mich_stack.specs.Ends.{Fits, Keeps};
ghost use Rattle.mich_stack.specs.Keys.{IsKeyOnTop};

use crate::collections::counting::count_value;
use crate::collections::taking::{take_set, truth_value};
use mich_base::{Link, Memory, Rows, Ty};
use mich_stack::{StepError, pop, push, take_key};
use mich_term::{Datum, Elements, Value};
use std::alloc::Global;

// A set of no elements, of a type that its contract names.
pub(crate) fn empty_set(alloc: Global, ty: &Ty, stack: &mut Rows<Value>) -> Result<(), StepError>
    ensures { Keeps (collection_step (i.empty_set (kind ty.now))) stack.old stack.new result }
{
    let _element = ty;
    push(stack, Value::Set(Link::new(alloc, Elements::new(alloc))?))?;
    Ok(())
}

// How many elements a set has.
#[tactic(auto, using(crate::proofs::collections_lemmas::Members::count_is))]
fn set_size(set: &Link<Elements>) -> Value
    ensures fits { int_or_limit (pos (element_count (datums set.now))) ≡ Ok (pos (element_count (datums set.now))) }
    ensures value { (big : Sight) → seen big result ≡ number (pos (element_count (datums set.now))) }
{
    count_value(set.get().len())
}

// Whether a set has an element.
#[tactic(auto, using(crate::proofs::collections_lemmas::Members::has_is))]
fn has(set: &Link<Elements>, element: &Datum) -> bool
    ensures { result ≡ has_element (datum element.now) (datums set.now) }
{
    set.get().contains(element)
}

pub(crate) fn size_set(stack: &mut Rows<Value>) -> Result<(), StepError>
    requires { Fits (collection_step i.size_set) stack.old }
    ensures { Keeps (collection_step i.size_set) stack.old stack.new result }
{
    let set = take_set(stack);
    let size = set_size(&set);
    drop(set);
    push(stack, size)?;
    Ok(())
}

pub(crate) fn mem_set(alloc: Global, stack: &mut Rows<Value>) -> Result<(), StepError>
    requires fits { Fits (collection_step i.mem_set) stack.old }
    requires suits { IsKeyOnTop (plain stack.old) }
    ensures { Keeps (collection_step i.mem_set) stack.old stack.new result }
{
    let element = take_key(alloc, stack)?;
    let set = take_set(stack);
    let found = truth_value(has(&set, &element));
    drop(set);
    drop(element);
    push(stack, found)?;
    Ok(())
}

// A set with an element, or without it.
#[tactic(auto, using(crate::proofs::collections_lemmas::Members::put_is, crate::proofs::collections_lemmas::Members::taken_is))]
fn set_with(
    alloc: Global,
    set: Link<Elements>,
    element: Datum,
    present: bool,
) -> Result<Link<Elements>, Memory>
    ensures { IfOk result (λ s. datums s ≡ set_with present (datum element) (datums set)) }
{
    let mut set = set.into_value()?;
    if present {
        set.insert(element)?;
    } else {
        set.remove(&element);
    }
    Link::new(alloc, set)
}

pub(crate) fn update_set(alloc: Global, stack: &mut Rows<Value>) -> Result<(), StepError>
    requires fits { Fits (collection_step i.update_set) stack.old }
    requires suits { IsKeyOnTop (plain stack.old) }
    ensures { Keeps (collection_step i.update_set) stack.old stack.new result }
{
    let element = take_key(alloc, stack)?;
    let Some(Value::Bool(present)) = pop(stack) else {
        unreachable!()
    };
    let set = take_set(stack);
    let set = set_with(alloc, set, element, present)?;
    push(stack, Value::Set(set))?;
    Ok(())
}
