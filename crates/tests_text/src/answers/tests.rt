// Each call with ample memory.
use mich_answers::{
    Answer, Next, NodeCommand, ScriptCommand, answer_node, answer_script, as_text, misplaced,
    read_next, refusal_line,
};
use mich_base::Memory;
use std::alloc::Global;
use std::test::Fail;

// Whether a command answers a file with this status and line.
fn is_answered(
    alloc: Global,
    command: NodeCommand,
    file: &str,
    status: u8,
    line: &str,
) -> Result<bool, Memory> {
    let bytes = file.as_bytes();
    if bytes.len() > 1_000 {
        return Ok(false);
    }
    let answer = answer_node(alloc, command, bytes)?;
    Ok(answer.status == status && is_only_line(&answer, line))
}

fn is_only_line(answer: &Answer, line: &str) -> bool {
    match answer.lines.only() {
        Some(text) => text.as_slice() == line.as_bytes(),
        None => false,
    }
}

#[test]
fn a_node_is_encoded(rt: HostRuntime) -> Result<(), Fail> {
    assert!(rt; is_answered(rt.alloc(), NodeCommand::Encode, "Unit", 0, "0x030b\n")?);
    Ok(())
}

#[test]
fn a_node_is_decoded(rt: HostRuntime) -> Result<(), Fail> {
    assert!(rt; is_answered(rt.alloc(), NodeCommand::Decode, "0x030b", 0, "Unit\n")?);
    Ok(())
}

#[test]
fn a_literal_is_packed(rt: HostRuntime) -> Result<(), Fail> {
    assert!(rt;
        is_answered(
            rt.alloc(),
            NodeCommand::Pack,
            "Pack unit Unit",
            0,
            "0x05030b\n"
        )?
    );
    Ok(())
}

#[test]
fn scripts_are_answered(rt: HostRuntime) -> Result<(), Fail> {
    let script = "parameter unit; storage unit; code { CDR ; NIL operation ; PAIR }";
    let answer = answer_script(rt.alloc(), ScriptCommand::Check, script.as_bytes())?;
    assert!(rt; answer.status == 0 && is_only_line(&answer, "WellTyped\n"));
    Ok(())
}

#[test]
fn a_statement_is_read(rt: HostRuntime) -> Result<(), Fail> {
    assert!(rt; matches!(read_next(rt.alloc(), b"Foo;", 0)?, Next::Statement(_)));
    Ok(())
}

#[test]
fn the_end_is_read(rt: HostRuntime) -> Result<(), Fail> {
    assert!(rt; matches!(read_next(rt.alloc(), b"Foo;", 4)?, Next::End));
    Ok(())
}

#[test]
fn a_refusal_has_its_line(rt: HostRuntime) -> Result<(), Fail> {
    let line = as_text(refusal_line(rt.alloc(), "BadStatement", 7)?)?;
    assert!(rt; line.as_slice() == b"Refused BadStatement 7\n".as_slice());
    Ok(())
}

#[test]
fn a_statement_is_misplaced(rt: HostRuntime) -> Result<(), Fail> {
    let answer = misplaced(rt.alloc(), 7)?;
    assert!(rt; answer.status == 2);
    Ok(())
}
