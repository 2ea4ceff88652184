// What the calls give with ample memory, by texts.
use crate::support::{node, ty};
use mich_base::{Memory, Node, Shared, Ty, size_within};
use mich_check::CheckError;
use mich_check::cache::{Bodies, Uses};
use mich_instr::Body;
use std::alloc::Global;
use std::test::Fail;

// What is looked up: the argument, the result, whether it is recursive, and the body.
type Row = (&'static str, &'static str, bool, &'static str);

const NONE_MORE: Row = ("int", "int", false, "{ PUSH int 0 ; ADD }");

const ONE_MORE: Row = ("int", "int", false, "{ PUSH int 1 ; ADD }");

// Looks a body up, and where it is typed once more.
fn look_up(
    alloc: Global,
    bodies: &mut Bodies,
    arg: &Ty,
    ret: &Ty,
    recursive: bool,
    body: &Shared<Node>,
) -> Result<Option<u32>, Fail> {
    match body.get() {
        Node::Seq(_) => {
            if !size_within(body.get(), 10_000) {
                return Err(Fail::from("too large"));
            }
            match bodies.checked(alloc, arg, ret, recursive, body) {
                Ok(code) => {
                    drop(code);
                    let plain = Body::plain(alloc, body.share()?)?;
                    bodies.code(alloc, arg, ret, recursive, &plain)?;
                    Ok(None)
                }
                Err(CheckError::IllTyped(location)) => Ok(Some(location)),
                Err(CheckError::Memory) => Err(Fail::from(Memory)),
            }
        }
        _ => Err(Fail::from("no sequence")),
    }
}

fn shared(alloc: Global, text: &str) -> Result<Shared<Node>, Fail> {
    Ok(Shared::new(alloc, node(alloc, text)?)?)
}

// The location of the fault, if there is one.
fn fault(alloc: Global, bodies: &mut Bodies, row: Row) -> Result<Option<u32>, Fail> {
    let (arg, ret, recursive, body) = row;
    let arg = ty(alloc, arg)?;
    let ret = ty(alloc, ret)?;
    let body = shared(alloc, body)?;
    look_up(alloc, bodies, &arg, &ret, recursive, &body)
}

// Fails with the first body that isn't typed.
fn look_all_up(alloc: Global, bodies: &mut Bodies, rows: &[Row]) -> Result<(), Fail> {
    for row in rows {
        if fault(alloc, bodies, *row)?.is_some() {
            return Err(Fail::new(row.3));
        }
    }
    Ok(())
}

// What was used once these were looked up, where each of them is typed.
fn uses_after(alloc: Global, rows: &[Row]) -> Result<Uses, Fail> {
    let mut bodies = Bodies::new(alloc)?;
    look_all_up(alloc, &mut bodies, rows)?;
    Ok(bodies.uses())
}

#[test]
fn no_body_was_used(rt: HostRuntime) -> Result<(), Fail> {
    assert!(rt; uses_after(rt.alloc(), &[])? == Uses { hits: 0, misses: 0 });
    Ok(())
}

#[test]
fn a_body_is_found_again(rt: HostRuntime) -> Result<(), Fail> {
    let uses = uses_after(rt.alloc(), &[ONE_MORE, ONE_MORE])?;
    assert!(rt; uses == Uses { hits: 3, misses: 1 });
    Ok(())
}

// Each of these differs from that before it in one part.
static DIFFERENT: [Row; 5] = [
    ("nat", "int", false, "{ FAILWITH }"),
    ("int", "int", false, "{ FAILWITH }"),
    ("int", "nat", false, "{ FAILWITH }"),
    ("int", "nat", true, "{ FAILWITH }"),
    ("int", "nat", true, "{ { FAILWITH } }"),
];

#[test]
fn another_body_is_typed(rt: HostRuntime) -> Result<(), Fail> {
    let uses = uses_after(rt.alloc(), &DIFFERENT)?;
    assert!(rt; uses == Uses { hits: 5, misses: 5 });
    Ok(())
}

const UNTYPED: Row = ("int", "int", false, "{ CAR }");

// What was used once this was looked up twice, where it has its fault at 1.
fn uses_after_fault(alloc: Global, row: Row) -> Result<Uses, Fail> {
    let mut bodies = Bodies::new(alloc)?;
    fail_twice(alloc, &mut bodies, row)?;
    Ok(bodies.uses())
}

fn fail_twice(alloc: Global, bodies: &mut Bodies, row: Row) -> Result<(), Fail> {
    for _ in 0..2 {
        if fault(alloc, bodies, row)? != Some(1) {
            return Err(Fail::new(row.3));
        }
    }
    Ok(())
}

#[test]
fn a_body_with_a_fault_is_not_kept(rt: HostRuntime) -> Result<(), Fail> {
    let uses = uses_after_fault(rt.alloc(), UNTYPED)?;
    assert!(rt; uses == Uses { hits: 0, misses: 2 });
    Ok(())
}

fn number_body(alloc: Global, number: u32) -> Result<Shared<Node>, Fail> {
    let text = format!(in alloc; "{{ PUSH int {number} ; ADD }}")?;
    shared(alloc, text.as_str())
}

// Looks 257 bodies up, each with another number in it.
fn fill(alloc: Global, bodies: &mut Bodies) -> Result<(), Fail> {
    for number in 0..257 {
        let body = number_body(alloc, number)?;
        look_up(alloc, bodies, &Ty::Int, &Ty::Int, false, &body)?;
    }
    Ok(())
}

// How often a body was typed once these were, and then the second and the first of them again.
fn fill_and_look(alloc: Global, bodies: &mut Bodies) -> Result<(u64, u64, u64), Fail> {
    fill(alloc, bodies)?;
    let filled = bodies.uses().misses;
    fault(alloc, bodies, ONE_MORE)?;
    let second = bodies.uses().misses;
    fault(alloc, bodies, NONE_MORE)?;
    Ok((filled, second, bodies.uses().misses))
}

fn misses(alloc: Global) -> Result<(u64, u64, u64), Fail> {
    let mut bodies = Bodies::new(alloc)?;
    fill_and_look(alloc, &mut bodies)
}

// The first of them makes room for the last.
#[test]
fn the_body_that_was_used_first_goes(rt: HostRuntime) -> Result<(), Fail> {
    assert!(rt; misses(rt.alloc())? == (257, 257, 258));
    Ok(())
}
