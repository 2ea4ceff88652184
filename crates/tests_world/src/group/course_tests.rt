// That the body of a lambda is typed once, however often it is called.
ghost use Rattle.std.specs.Prelude.{IfOk};
ghost use Rattle.rules_files.specs.course.Course.{Course as PlainCourse};
ghost use Rattle.mich_group.specs.course.Following.{Follows};

use crate::group::statements::statement;
use mich_group::course::{Course, begin};
use mich_machine::Bodies;
use std::alloc::Global;
use std::test::Fail;

const CHAIN: &str = "Chain 0x7a06a770 1 0";

const ACCOUNT: &str = "Account 0x000000000000000000000000000000000000000001 1000";

// A contract whose code makes a lambda, and calls it until 300 comes out.
const ORIGINATION: &str =
    "Group 0x000000000000000000000000000000000000000001 { Originate 0 1 0 { parameter unit ; storage int ; \
    code { DROP ; LAMBDA int int { PUSH int 1 ; ADD } ; PUSH int 0 ; DUP ; PUSH int 300 ; COMPARE ; GT ; \
    LOOP { DIP { DUP } ; EXEC ; DUP ; PUSH int 300 ; COMPARE ; GT } ; DIP { DROP } ; NIL operation ; PAIR } } 0 }";

const CALL: &str = "Group 0x000000000000000000000000000000000000000001 \
    { Call 0 10000 0 0x01000000000000000100000000000000000000000000 \"default\" Unit }";

fn begun(alloc: Global, text: &str) -> Result<Course, Fail>
    ensures { IfOk result (λ c. (p : PlainCourse) × Follows c p) }
{
    let first = statement(alloc, text)?;
    match begin(alloc, &first) {
        Ok(course) => Ok(course),
        Err(_) => Err(Fail::from("not begun")),
    }
}

fn go_on(alloc: Global, course: &mut Course, bodies: &mut Bodies, text: &str) -> Result<(), Fail>
    requires { (p : PlainCourse) × Follows course.old p }
    ensures { IfOk result (λ _. (p : PlainCourse) × Follows course.new p) }
{
    if course.groups > 1_000 {
        return Err(Fail::from("too many groups"));
    }
    let next = statement(alloc, text)?;
    match course.take(alloc, &next, bodies) {
        Ok(_) => Ok(()),
        Err(_) => Err(Fail::from("refused")),
    }
}

// How many groups the course of the account, the origination and the call has.
fn called(alloc: Global, bodies: &mut Bodies) -> Result<u64, Fail> {
    let mut course = begun(alloc, CHAIN)?;
    go_on(alloc, &mut course, bodies, ACCOUNT)?;
    go_on(alloc, &mut course, bodies, ORIGINATION)?;
    go_on(alloc, &mut course, bodies, CALL)?;
    Ok(course.groups)
}

// How many groups there are, how often a body was found, and how often one was typed.
fn counted(alloc: Global) -> Result<(u64, u64, u64), Fail> {
    let mut bodies = Bodies::new(alloc)?;
    let groups = called(alloc, &mut bodies)?;
    let uses = bodies.uses();
    Ok((groups, uses.hits, uses.misses))
}

#[test]
fn a_lambda_has_its_code_with_it(rt: HostRuntime) -> Result<(), Fail> {
    let counts = counted(rt.alloc())?;
    assert!(rt; counts == (2, 0, 0));
    Ok(())
}
