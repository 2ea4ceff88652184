// What no clause says: that the calls answer with ample memory.

use mich_base::{Memory, Rows};
use mich_stack::{content_value, insert_at, optional_value, push, put, take_key};
use mich_term::{Datum, Value};
use std::alloc::Global;
use std::test::Fail;

// A stack of two numbers, of which the second is on top.
fn numbers(alloc: Global, first: i128, second: i128) -> Result<Rows<Value>, Memory> {
    let mut stack = Rows::new(alloc);
    push(&mut stack, Value::Number(first))?;
    push(&mut stack, Value::Number(second))?;
    Ok(stack)
}

// Puts a value below the one on top, where there is one.
fn insert_below(alloc: Global, stack: &mut Rows<Value>, value: Value) -> Result<(), Memory> {
    if stack.len() < 1 {
        return Ok(());
    }
    insert_at(alloc, stack, 1, value)
}

// A number as the key on top of a stack.
fn number_key(alloc: Global, number: i128) -> Result<Datum, Memory> {
    let mut stack = Rows::new(alloc);
    push(&mut stack, Value::Number(number))?;
    take_key(alloc, &mut stack)
}

#[test]
fn a_value_is_put_in_place_of_others(rt: HostRuntime) -> Result<(), Fail> {
    let mut stack = numbers(rt.alloc(), 1, 2)?;
    push(&mut stack, Value::Number(3))?;
    put(&mut stack, 2, Value::Number(7))?;
    assert!(rt; matches!(stack.as_slice(), [Value::Number(1), Value::Number(7)]));
    Ok(())
}

#[test]
fn a_value_is_put_below_the_top(rt: HostRuntime) -> Result<(), Fail> {
    let mut stack = numbers(rt.alloc(), 1, 2)?;
    insert_below(rt.alloc(), &mut stack, Value::Number(7))?;
    assert!(rt;
        matches!(
            stack.as_slice(),
            [Value::Number(1), Value::Number(7), Value::Number(2)]
        )
    );
    Ok(())
}

#[test]
fn a_key_and_its_value_are_read(rt: HostRuntime) -> Result<(), Fail> {
    let key = number_key(rt.alloc(), 7)?;
    assert!(rt; matches!(key, Datum::Number(7)));
    assert!(rt; matches!(content_value(rt.alloc(), &key)?, Value::Number(7)));
    let found = optional_value(rt.alloc(), Some(Value::Number(5)))?;
    assert!(rt; matches!(found, Value::Some(_)));
    Ok(())
}
