// What no clause says: that a long list is made and taken apart at its head in little time. The order of values, their weights and
// copies, maps, sets and discarded tickets are tried by whole files.
use mich_base::Memory;
use mich_term::{Chain, Value};
use std::alloc::Global;
use std::test::Fail;

// A list of so many numbers, each of them put before the others.
fn long_list(alloc: Global, count: usize) -> Result<Chain<Value>, Memory> {
    let mut list = Chain::new(alloc);
    for n in 0..count {
        list.push(Value::Number(n as i128))?;
    }
    Ok(list)
}

// Whether the elements of a list, taken one by one from its head on, are numbers that go down to 0.
fn goes_down(mut list: Chain<Value>) -> bool {
    let mut after = list.len() as i128;
    while let Some(value) = list.pop() {
        match value {
            Value::Number(n) if n < after => after = n,
            _ => return false,
        }
    }
    after == 0
}

#[test]
fn a_long_list_is_made_and_taken_apart_at_its_head(rt: HostRuntime) -> Result<(), Fail> {
    let list = long_list(rt.alloc(), 200_000)?;
    assert!(rt; goes_down(list));
    Ok(())
}
