// What no clause says: that the calls answer with ample memory.

use crate::instructions::support::Recorder;
use mich_base::{Memory, Rows};
use mich_forms::{ChainId, KeyHash, Place};
use mich_overload::{EnvironmentRow, LogicRow, NumberRow, PairRow, StackRow, UnionRow};
use mich_stack::{StepError, two_on_top};
use mich_step::{
    Env, environment_step, logic_step, number_step, pair_step, stack_step, union_step,
};
use mich_term::Value;
use std::alloc::Global;
use std::test::Fail;

// A stack of two numbers, of which the second is on top.
fn numbers(alloc: Global, first: i128, second: i128) -> Result<Rows<Value>, Memory> {
    let mut stack = Rows::new(alloc);
    stack.push(Value::Number(first))?;
    stack.push(Value::Number(second))?;
    Ok(stack)
}

// SUB, where two numbers stand.
fn subtract(alloc: Global, stack: &mut Rows<Value>) -> Result<(), StepError> {
    let Some((Value::Number(_), Value::Number(_), _)) = two_on_top(stack.as_slice()) else {
        return Ok(());
    };
    number_step(alloc, &NumberRow::Sub, stack)
}

// COMPARE, where two numbers stand.
fn compare(stack: &mut Rows<Value>) -> Result<(), StepError> {
    let Some((Value::Number(_), Value::Number(_), _)) = two_on_top(stack.as_slice()) else {
        return Ok(());
    };
    logic_step(&LogicRow::Compare, stack)
}

// SWAP, where two numbers stand.
fn swap(alloc: Global, stack: &mut Rows<Value>) -> Result<(), StepError> {
    let Some((Value::Number(_), Value::Number(_), _)) = two_on_top(stack.as_slice()) else {
        return Ok(());
    };
    let mut recorder = Recorder {
        tickets: Rows::new(alloc),
    };
    stack_step(alloc, &StackRow::Swap, stack, &mut recorder)
}

// PAIR, where two numbers stand.
fn pair(alloc: Global, stack: &mut Rows<Value>) -> Result<(), StepError> {
    let Some((Value::Number(_), Value::Number(_), _)) = two_on_top(stack.as_slice()) else {
        return Ok(());
    };
    let mut recorder = Recorder {
        tickets: Rows::new(alloc),
    };
    pair_step(alloc, &PairRow::Pair(2), stack, &mut recorder)
}

// SOME, where two numbers stand.
fn some(alloc: Global, stack: &mut Rows<Value>) -> Result<(), StepError> {
    let Some((Value::Number(_), Value::Number(_), _)) = two_on_top(stack.as_slice()) else {
        return Ok(());
    };
    union_step(alloc, &UnionRow::Some, stack)
}

#[test]
fn the_first_number_is_the_one_on_top(rt: HostRuntime) -> Result<(), Fail> {
    let mut stack = numbers(rt.alloc(), 3, 10)?;
    subtract(rt.alloc(), &mut stack)?;
    assert!(rt; matches!(stack.as_slice(), [Value::Number(7)]));
    Ok(())
}

#[test]
fn two_numbers_are_compared(rt: HostRuntime) -> Result<(), Fail> {
    let mut stack = numbers(rt.alloc(), 3, 10)?;
    compare(&mut stack)?;
    assert!(rt; matches!(stack.as_slice(), [Value::Number(1)]));
    Ok(())
}

#[test]
fn two_values_are_swapped(rt: HostRuntime) -> Result<(), Fail> {
    let mut stack = numbers(rt.alloc(), 3, 10)?;
    swap(rt.alloc(), &mut stack)?;
    assert!(rt; matches!(stack.as_slice(), [Value::Number(10), Value::Number(3)]));
    Ok(())
}

#[test]
fn an_option_is_made(rt: HostRuntime) -> Result<(), Fail> {
    let mut stack = numbers(rt.alloc(), 3, 10)?;
    some(rt.alloc(), &mut stack)?;
    assert!(rt; matches!(stack.as_slice(), [Value::Number(3), Value::Some(_)]));
    Ok(())
}

#[test]
fn a_pair_is_made(rt: HostRuntime) -> Result<(), Fail> {
    let mut stack = numbers(rt.alloc(), 3, 10)?;
    pair(rt.alloc(), &mut stack)?;
    assert!(rt; matches!(stack.as_slice(), [Value::Pair(_, _)]));
    Ok(())
}

const ACCOUNT: KeyHash = KeyHash {
    tag: 0,
    hash: [1; 20],
};

// A run with 6 mutez.
fn env() -> Env {
    Env {
        chain: ChainId { body: [2; 4] },
        level: 3,
        now: 4,
        source: ACCOUNT,
        sender: Place::Implicit(ACCOUNT),
        me: [5; 20],
        amount: 6,
        balance: 7,
    }
}

#[test]
fn the_amount_is_read(rt: HostRuntime) -> Result<(), Fail> {
    let mut stack = numbers(rt.alloc(), 1, 2)?;
    environment_step(rt.alloc(), &env(), &EnvironmentRow::Amount, &mut stack)?;
    assert!(rt; matches!(stack.as_slice(), [_, _, Value::Number(6)]));
    Ok(())
}
