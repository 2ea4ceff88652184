// Stacks of values, whose last element is on top.
ghost use Rattle.std.specs.Prelude.{◌≡◌, ◌∷◌, ◌++◌, [], reverse, IfOk, MatchOption};
ghost use Rattle.rules_data.specs.values.Val.{bytes, truth};
ghost use Rattle.mich_forms.specs.Spelled.{address_bytes};
ghost use Rattle.mich_stack.specs.Views.{Sight, seen};
ghost use Rattle.mich_frames.specs.Shapes.{HasTop, HasTruth, HasOption, HasUnion, HasList};
ghost use Rattle.mich_interpreter.specs.View.{tops};
ghost use Rattle.mich_interpreter.specs.Parts.{HasAddress, is_true_top, is_left_top, is_none_top, is_cons_top, opened};

use crate::items::split_list;
use mich_base::{Link, Memory, Rows};
use mich_forms::Address;
use mich_term::Value;
use std::alloc::Global;
use std::mem;

// Puts a value on top. Memory where there is no room for it.
#[inline(always)]
pub(crate) fn push(stack: &mut Rows<Value>, value: Value) -> Result<(), Memory>
    ensures { IfOk result (λ _. (big : Sight) → tops big stack.new ≡ seen big value ∷ tops big stack.old) }
{
    stack.push(value)
}

// Takes the value on top.
pub(crate) fn pop(stack: &mut Rows<Value>) -> Value
    requires { (big : Sight) × HasTop (tops big stack.old) }
    ensures { (big : Sight) → tops big stack.old ≡ seen big result ∷ tops big stack.new }
{
    match stack.pop() {
        Some(value) => value,
        None => unreachable!(),
    }
}

// Takes the truth value on top.
#[inline(always)]
pub(crate) fn pop_truth(stack: &mut Rows<Value>) -> bool
    requires { (big : Sight) × HasTruth (tops big stack.old) }
    ensures { (big : Sight) → tops big stack.old ≡ truth result ∷ tops big stack.new }
{
    match stack.pop() {
        Some(Value::Bool(b)) => b,
        _ => unreachable!(),
    }
}

// The truth value on top.
#[inline(always)]
pub(crate) fn is_true(stack: &Rows<Value>) -> bool
    requires { (big : Sight) × HasTruth (tops big stack.now) }
    ensures { (big : Sight) → is_true_top (tops big stack.now) ≡ result }
{
    match stack.as_slice().last() {
        Some(Value::Bool(b)) => *b,
        _ => unreachable!(),
    }
}

// Whether a union on top is a left value.
pub(crate) fn is_left(stack: &Rows<Value>) -> bool
    requires { (big : Sight) × HasUnion (tops big stack.now) }
    ensures { (big : Sight) → is_left_top (tops big stack.now) ≡ result }
{
    matches!(stack.as_slice().last(), Some(Value::Left(_)))
}

// Whether an option on top has no value.
pub(crate) fn is_none(stack: &Rows<Value>) -> bool
    requires { (big : Sight) × HasOption (tops big stack.now) }
    ensures { (big : Sight) → is_none_top (tops big stack.now) ≡ result }
{
    matches!(stack.as_slice().last(), Some(Value::None))
}

// Puts what a union on top holds in its place.
pub(crate) fn open_union(stack: &mut Rows<Value>) -> Result<(), Memory>
    requires { (big : Sight) × HasUnion (tops big stack.old) }
    ensures { IfOk result (λ _. (big : Sight) → tops big stack.new ≡ opened (tops big stack.old)) }
{
    match stack.pop() {
        Some(Value::Left(value)) => push(stack, value.into_value()?),
        Some(Value::Right(value)) => push(stack, value.into_value()?),
        _ => unreachable!(),
    }
}

// Puts what an option on top holds, if anything, in its place.
pub(crate) fn open_option(stack: &mut Rows<Value>) -> Result<(), Memory>
    requires { (big : Sight) × HasOption (tops big stack.old) }
    ensures { IfOk result (λ _. (big : Sight) → tops big stack.new ≡ opened (tops big stack.old)) }
{
    match stack.pop() {
        Some(Value::None) => Ok(()),
        Some(Value::Some(value)) => push(stack, value.into_value()?),
        _ => unreachable!(),
    }
}

// Whether a list on top has an element.
pub(crate) fn is_cons(stack: &Rows<Value>) -> bool
    requires { (big : Sight) × HasList (tops big stack.now) }
    ensures { (big : Sight) → is_cons_top (tops big stack.now) ≡ result }
{
    match stack.as_slice().last() {
        Some(Value::List(list)) => !list.get().is_empty(),
        _ => unreachable!(),
    }
}

// Puts the first element of a list on top, if there is one, above the others.
pub(crate) fn open_list(alloc: Global, stack: &mut Rows<Value>) -> Result<(), Memory>
    requires { (big : Sight) × HasList (tops big stack.old) }
    ensures { IfOk result (λ _. (big : Sight) → tops big stack.new ≡ opened (tops big stack.old)) }
{
    match stack.pop() {
        Some(Value::List(list)) => match split_list(list.into_value()?) {
            Some((first, rest)) => {
                push(stack, Value::List(Link::new(alloc, rest)?))?;
                push(stack, first)
            }
            None => Ok(()),
        },
        _ => unreachable!(),
    }
}

// Puts values on top, the last of them uppermost. Memory where there is no room for them.
pub(crate) fn put_all(stack: &mut Rows<Value>, above: Rows<Value>) -> Result<(), Memory>
    ensures { IfOk result (λ _. (big : Sight) → tops big stack.new ≡ tops big above ++ tops big stack.old) }
{
    stack.append(above)
}

// Puts values below those that there are. Memory where there is no room for them.
pub(crate) fn put_below(stack: &mut Rows<Value>, below: Rows<Value>) -> Result<(), Memory>
    ensures { IfOk result (λ _. (big : Sight) → tops big stack.new ≡ tops big stack.old ++ tops big below) }
{
    let above = mem::replace(stack, below);
    put_all(stack, above)
}

// Takes the address on top.
pub(crate) fn pop_address(stack: &mut Rows<Value>) -> Address
    requires { (big : Sight) × HasAddress (tops big stack.old) }
    ensures { (big : Sight) → tops big stack.old ≡ bytes (address_bytes result) ∷ tops big stack.new }
{
    let Some(Value::Bytes(spelled)) = stack.pop() else {
        unreachable!();
    };
    match Address::read(spelled.as_slice()) {
        Some(address) => address,
        None => unreachable!(),
    }
}
