// What the calls give with ample memory. The types are those of the Michelson reference and of a token contract.
use crate::support::node;
use mich_base::{Memory, Node, Ty, size_within};
use mich_forms::Entrypoint;
use mich_types::{
    Parameter, TypeError, big_value, comparable, duplicable, entrypoint, packable, passable,
    pushable, read_parameter, read_type, storable, type_node,
};
use std::alloc::Global;
use std::test::Fail;

fn read(alloc: Global, node: &Node) -> Result<Ty, TypeError> {
    if size_within(node, 1_000_000) {
        read_type(alloc, node)
    } else {
        Err(TypeError::Memory)
    }
}

fn parameter(alloc: Global, node: &Node) -> Result<Parameter, TypeError> {
    if size_within(node, 1_000_000) {
        read_parameter(alloc, node)
    } else {
        Err(TypeError::Memory)
    }
}

// What is to be made of a node: a type or a parameter, or its fault.
enum Wanted {
    Good,
    TooLarge,
    BadType(u32),
    Repeated(u32),
}

fn is_wanted<T>(answer: &Result<T, TypeError>, wanted: &Wanted) -> bool {
    match wanted {
        Wanted::Good => answer.is_ok(),
        Wanted::TooLarge => matches!(answer, Err(TypeError::TypeTooLarge)),
        Wanted::BadType(at) =>
            matches!(answer, Err(TypeError::BadType(location)) if location == at),
        Wanted::Repeated(at) => {
            matches!(answer, Err(TypeError::RepeatedEntrypoint(location)) if location == at)
        }
    }
}

fn is_read(alloc: Global, text: &str, wanted: &Wanted) -> Result<bool, Fail> {
    let node = node(alloc, text)?;
    Ok(is_wanted(&read(alloc, &node), wanted))
}

type Row = (&'static str, Wanted);

// No types, and where each is none: an attribute is tried before what stands behind.
static NO_TYPES: [Row; 6] = [
    ("map (list int) foo", Wanted::BadType(1)),
    ("big_map int operation", Wanted::BadType(2)),
    ("or int (set (list int))", Wanted::BadType(3)),
    ("pair int", Wanted::BadType(0)),
    ("PAIR int int", Wanted::BadType(0)),
    ("map int foo", Wanted::BadType(2)),
];

// Fails with the first text of which something else is made.
fn are_read(alloc: Global, rows: &[Row]) -> Result<(), Fail> {
    for (text, wanted) in rows {
        if !is_read(alloc, text, wanted)? {
            return Err(Fail::new(*text));
        }
    }
    Ok(())
}

#[test]
fn other_nodes_are_no_types(rt: HostRuntime) -> Result<(), Fail> {
    are_read(rt.alloc(), &NO_TYPES)
}

// A text with a piece so many times between a beginning and an end.
fn repeated(
    alloc: Global,
    begin: &str,
    piece: &str,
    count: u32,
    end: &str,
) -> Result<String, Memory> {
    let mut text = String::new(alloc);
    text.push_str(begin)?;
    for _ in 0..count {
        text.push_str(piece)?;
    }
    text.push_str(end)?;
    Ok(text)
}

// A text with so many numbers between a beginning and an end.
type Wide = (&'static str, u32, &'static str, Wanted);

// A pair of 1,000 numbers counts as 1,999 nodes, and a type has 2,000 at most. What is no type comes before the limit.
static WIDE: [Wide; 4] = [
    ("option (pair", 1000, ")", Wanted::Good),
    ("option (option (pair", 1000, "))", Wanted::TooLarge),
    ("pair", 1001, "", Wanted::TooLarge),
    ("pair", 9_999, " foo", Wanted::BadType(10_000)),
];

fn is_wide_read(alloc: Global, row: &Wide) -> Result<bool, Fail> {
    let (begin, count, end, wanted) = row;
    let text = repeated(alloc, begin, " int", *count, end)?;
    is_read(alloc, text.as_str(), wanted)
}

// Fails with the first count of which something else is made.
fn are_wide_read(alloc: Global, rows: &[Wide]) -> Result<(), Fail> {
    for row in rows {
        if !is_wide_read(alloc, row)? {
            return Err(Fail::new(row.1));
        }
    }
    Ok(())
}

#[test]
fn types_of_2000_nodes_at_most(rt: HostRuntime) -> Result<(), Fail> {
    are_wide_read(rt.alloc(), &WIDE)
}

// Whether a type of 1,000 levels is read.
fn is_deep_read(alloc: Global) -> Result<bool, Fail> {
    let front = repeated(alloc, "", "(option ", 999, "unit")?;
    let text = repeated(alloc, front.as_str(), ")", 999, "")?;
    is_read(alloc, text.as_str(), &Wanted::Good)
}

#[test]
fn a_deep_type(rt: HostRuntime) -> Result<(), Fail> {
    assert!(rt; is_deep_read(rt.alloc())?);
    Ok(())
}

// The type of a node as a node.
fn printed(alloc: Global, node: &Node) -> Result<Node, TypeError> {
    let ty = read(alloc, node)?;
    Ok(type_node(alloc, &ty)?)
}

fn printed_text(alloc: Global, text: &str) -> Result<Node, Fail> {
    let node = node(alloc, text)?;
    Ok(printed(alloc, &node)?)
}

fn is_printed(alloc: Global, long: &str, short: &str) -> Result<bool, Fail> {
    let found = printed_text(alloc, long)?;
    Ok(found == node(alloc, short)?)
}

#[test]
fn types_are_printed_in_two_parts(rt: HostRuntime) -> Result<(), Fail> {
    let long = "pair %a int (nat :b) string";
    assert!(rt; is_printed(rt.alloc(), long, "pair int (pair nat string)")?);
    Ok(())
}

#[test]
fn attributes_are_those_of_the_reference(rt: HostRuntime) {
    assert!(rt; comparable(&Ty::Int) && !comparable(&Ty::Operation));
    assert!(rt; passable(&Ty::Int) && storable(&Ty::Int) && pushable(&Ty::Int));
    assert!(rt; packable(&Ty::Int) && big_value(&Ty::Int) && duplicable(&Ty::Operation));
}

const TOKEN: &str =
    "parameter (or (pair %transfer (address %from) (address %to) (nat %value)) (pair %mint (address %to) (nat %value)))";

// Whether there is an entrypoint of this name with this path.
fn has(p: &Parameter, name: &str, path: &[bool]) -> bool {
    let Some(name) = Entrypoint::read(name.as_bytes()) else {
        return false;
    };
    match entrypoint(p, &name) {
        Some(found) => found.path.as_slice() == path,
        None => false,
    }
}

fn token(alloc: Global) -> Result<Parameter, Fail> {
    let node = node(alloc, TOKEN)?;
    Ok(parameter(alloc, &node)?)
}

fn has_all(p: &Parameter) -> bool {
    p.entries.len() == 3
        && has(p, "transfer", &[false])
        && has(p, "mint", &[true])
        && has(p, "default", &[])
        && !has(p, "burn", &[])
}

fn is_token_read(alloc: Global) -> Result<bool, Fail> {
    let p = token(alloc)?;
    Ok(has_all(&p))
}

#[test]
fn a_token_has_its_entrypoints(rt: HostRuntime) -> Result<(), Fail> {
    assert!(rt; is_token_read(rt.alloc())?);
    Ok(())
}

fn is_parameter_read(alloc: Global, text: &str, wanted: &Wanted) -> Result<bool, Fail> {
    let node = node(alloc, text)?;
    Ok(is_wanted(&parameter(alloc, &node), wanted))
}

// Names are limited, those of branches and that of the whole, and distinct.
static NO_PARAMETERS: [Row; 3] = [
    (
        "parameter (or int (nat %a2345678901234567890123456789012))",
        Wanted::BadType(3),
    ),
    (
        "parameter (int %a2345678901234567890123456789012)",
        Wanted::BadType(1),
    ),
    ("parameter %a (or (int %a) nat)", Wanted::Repeated(2)),
];

// Fails with the first text of which something else is made.
fn are_parameters_read(alloc: Global, rows: &[Row]) -> Result<(), Fail> {
    for (text, wanted) in rows {
        if !is_parameter_read(alloc, text, wanted)? {
            return Err(Fail::new(*text));
        }
    }
    Ok(())
}

#[test]
fn names_are_limited_and_distinct(rt: HostRuntime) -> Result<(), Fail> {
    are_parameters_read(rt.alloc(), &NO_PARAMETERS)
}
