// What the calls give with ample memory, by texts. Locations are counted in pre-order from the body, which is 0.
use crate::support::{node, ty};
use mich_base::{Node, Ty, size_within};
use mich_check::{CheckError, Checked, check_body, check_literal};
use mich_data::Pending;
use mich_instr::{Block, erase};
use std::alloc::Global;
use std::test::Fail;

// The location of the fault, if there is one.
fn fault<T: Drop>(answer: Result<T, CheckError>) -> Result<Option<u32>, Fail> {
    match answer {
        Ok(_) => Ok(None),
        Err(CheckError::IllTyped(location)) => Ok(Some(location)),
        Err(CheckError::Memory) => Err(Fail::from("no memory")),
    }
}

// The typed code of a node. One that may not be asked for, as it is no sequence or too large, counts as a lack of memory, which fails a test.
fn checked(alloc: Global, arg: &Ty, ret: &Ty, node: &Node) -> Result<Block, CheckError> {
    match node {
        Node::Seq(_) => {
            if size_within(node, 10_000) {
                check_body(alloc, arg, ret, false, node)
            } else {
                Err(CheckError::Memory)
            }
        }
        _ => Err(CheckError::Memory),
    }
}

// The typed code of a body from one type to another.
fn code_of(
    alloc: Global,
    arg: &str,
    ret: &str,
    body: &str,
) -> Result<Result<Block, CheckError>, Fail> {
    let arg = ty(alloc, arg)?;
    let ret = ty(alloc, ret)?;
    let body = node(alloc, body)?;
    Ok(checked(alloc, &arg, &ret, &body))
}

// The argument and the result of a body, the body, and the location of its fault, if there is one.
type Row = (&'static str, &'static str, &'static str, Option<u32>);

fn is_typed(
    alloc: Global,
    arg: &str,
    ret: &str,
    body: &str,
    at: Option<u32>,
) -> Result<bool, Fail> {
    let answer = code_of(alloc, arg, ret, body)?;
    Ok(fault(answer)? == at)
}

// Fails with the first body whose fault isn't where its row says.
fn all_are_typed(alloc: Global, rows: &[Row]) -> Result<(), Fail> {
    for (arg, ret, body, at) in rows {
        if !is_typed(alloc, arg, ret, body, *at)? {
            return Err(Fail::new(*body));
        }
    }
    Ok(())
}

static RESULTS: [Row; 4] = [
    ("unit", "unit", "{ }", None),
    ("unit", "int", "{ }", Some(0)),
    ("unit", "int", "{ FAILWITH }", None),
    ("unit", "int", "{ FAILWITH ; FAILWITH }", Some(1)),
];

#[test]
fn a_body_ends_with_its_result(rt: HostRuntime) -> Result<(), Fail> {
    all_are_typed(rt.alloc(), &RESULTS)
}

static BRANCHES: [Row; 4] = [
    ("bool", "unit", "{ IF { } { NEVER } }", Some(4)),
    ("bool", "unit", "{ IF_NONE { } { } }", Some(1)),
    ("option unit", "unit", "{ IF_NONE { UNIT } { } }", None),
    ("option unit", "unit", "{ IF_NONE { } { } }", Some(1)),
];

#[test]
fn branches_end_alike_or_fail(rt: HostRuntime) -> Result<(), Fail> {
    all_are_typed(rt.alloc(), &BRANCHES)
}

// The value of a type that a text spells. Too large a node counts as a lack of memory.
fn literal_of(alloc: Global, of: &str, text: &str) -> Result<Result<Checked, CheckError>, Fail> {
    let ty = ty(alloc, of)?;
    let node = node(alloc, text)?;
    if !size_within(&node, 10_000) {
        return Ok(Err(CheckError::Memory));
    }
    Ok(check_literal(alloc, &ty, &node))
}

// The location of the fault of a literal of a type, if there is one.
fn literal_fault(alloc: Global, of: &str, text: &str) -> Result<Option<u32>, Fail> {
    let answer = literal_of(alloc, of, text)?;
    fault(answer)
}

// Whether it is a contract of unit that stands at the whole.
fn is_whole_unit(claim: &Pending) -> bool {
    matches!(
        claim,
        Pending::Claim {
            location: 0,
            ty: Ty::Unit,
            ..
        }
    )
}

// Whether the contracts that a literal names are so many, each one of unit at the whole.
fn is_claiming(alloc: Global, of: &str, text: &str, count: usize) -> Result<bool, Fail> {
    let checked = literal_of(alloc, of, text)??;
    Ok(checked.claims.len() == count && checked.claims.iter().all(is_whole_unit))
}

#[test]
fn bodies_of_literals_are_tried(rt: HostRuntime) -> Result<(), Fail> {
    assert!(rt; literal_fault(rt.alloc(), "lambda int int", "{ ADD }")? == Some(1));
    assert!(rt; literal_fault(rt.alloc(), "lambda int int", "{ NEG }")?.is_none());
    Ok(())
}

const ADDRESS: &str = "0x00000000000000000000000000000000000000000000";

#[test]
fn literals_claim_their_contracts(rt: HostRuntime) -> Result<(), Fail> {
    assert!(rt; is_claiming(rt.alloc(), "contract unit", ADDRESS, 1)?);
    assert!(rt; is_claiming(rt.alloc(), "address", ADDRESS, 0)?);
    Ok(())
}

fn erased(alloc: Global, arg: &str, ret: &str, body: &str) -> Result<Node, Fail> {
    let code = code_of(alloc, arg, ret, body)??;
    Ok(erase(alloc, code.get())?)
}

// Whether the typed code of a body is erased to this text.
fn is_erased(alloc: Global, arg: &str, ret: &str, body: &str, plain: &str) -> Result<bool, Fail> {
    let erased = erased(alloc, arg, ret, body)?;
    Ok(erased == node(alloc, plain)?)
}

// The argument and the result of a body, the body, and what it is erased to.
type PlainRow = (&'static str, &'static str, &'static str, &'static str);

static PLAIN: [PlainRow; 13] = [
    (
        "unit",
        "unit",
        "{ DUP @a ; DROP @b %c :d }",
        "{ DUP ; DROP }",
    ),
    ("unit", "unit", "{ DUP 1 ; DROP 1 }", "{ DUP 1 ; DROP 1 }"),
    (
        "unit",
        "int",
        "{ DROP ; PUSH @x (int %y) 5 }",
        "{ DROP ; PUSH int 5 }",
    ),
    (
        "unit",
        "lambda int int",
        "{ DROP ; LAMBDA @f (int %a) (int :b) { NEG @c } }",
        "{ DROP ; LAMBDA int int { NEG @c } }",
    ),
    (
        "unit",
        "lambda int int",
        "{ DROP ; PUSH (lambda int int) { NEG @c } }",
        "{ DROP ; PUSH (lambda int int) { NEG @c } }",
    ),
    (
        "unit",
        "unit",
        "{ EMIT %t @u (unit %v) ; DROP ; UNIT }",
        "{ EMIT %t unit ; DROP ; UNIT }",
    ),
    (
        "unit",
        "unit",
        "{ EMIT % %t ; DROP ; UNIT }",
        "{ EMIT ; DROP ; UNIT }",
    ),
    (
        "address",
        "option (contract unit)",
        "{ CONTRACT @c %d %e (unit %f) }",
        "{ CONTRACT %d unit }",
    ),
    (
        "unit",
        "unit",
        "{ DIP @d 1 { } ; DIP { } }",
        "{ DIP 1 { } ; DIP { } }",
    ),
    (
        "bool",
        "unit",
        "{ IF @i { UNIT @a } { { UNIT @b } } }",
        "{ IF { UNIT } { { UNIT } } }",
    ),
    (
        "unit",
        "option (pair int nat bool)",
        "{ DROP ; NONE (pair %p (int %a) nat (bool %c)) }",
        "{ DROP ; NONE (pair int nat bool) }",
    ),
    (
        "pair int int",
        "int",
        "{ LAMBDA_REC (pair int (int %r)) int { UNPAIR @u ; DIP 2 { DROP @v } ; ADD } ; SWAP ; EXEC @e }",
        "{ LAMBDA_REC (pair int int) int { UNPAIR @u ; DIP 2 { DROP @v } ; ADD } ; SWAP ; EXEC }",
    ),
    (
        "unit",
        "operation",
        "{ PUSH mutez 0 ; NONE key_hash ; CREATE_CONTRACT @c { parameter (unit %p) ; storage unit ; code { CDR @x ; NIL operation ; PAIR } } ; DIP { DROP } }",
        "{ PUSH mutez 0 ; NONE key_hash ; CREATE_CONTRACT { parameter (unit %p) ; storage unit ; code { CDR @x ; NIL operation ; PAIR } } ; DIP { DROP } }",
    ),
];

// Fails with the first body that is erased to another text.
fn all_are_erased_to(alloc: Global, rows: &[PlainRow]) -> Result<(), Fail> {
    for (arg, ret, body, plain) in rows {
        if !is_erased(alloc, arg, ret, body, plain)? {
            return Err(Fail::new(*body));
        }
    }
    Ok(())
}

#[test]
fn annotations_without_effect_are_erased(rt: HostRuntime) -> Result<(), Fail> {
    all_are_erased_to(rt.alloc(), &PLAIN)
}
