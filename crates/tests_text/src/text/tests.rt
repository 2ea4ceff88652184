//! Texts with what they are, worked out by hand from the grammar.
use mich_base::Memory;
use mich_text::{TextError, TextKind, print, read_statement};
use std::alloc::Global;
use std::test::Fail;

// A text, its first fault and the place of it.
type Fault = (&'static str, TextKind, u64);

static BYTES_AND_STRINGS: [Fault; 24] = [
    ("?", TextKind::BadChar, 0),
    ("/", TextKind::BadChar, 0),
    ("/ *", TextKind::BadChar, 0),
    ("1.5", TextKind::BadChar, 1),
    ("+1", TextKind::BadChar, 0),
    ("[1]", TextKind::BadChar, 0),
    ("Foo,Bar", TextKind::BadChar, 3),
    ("Foo \u{e9}", TextKind::BadChar, 4),
    ("\"a\\q\"", TextKind::BadString, 2),
    ("\"\\x\"", TextKind::BadString, 1),
    ("\"a\u{1}\"", TextKind::BadString, 2),
    ("\"a\n\"", TextKind::BadString, 2),
    ("0x123", TextKind::BadBytes, 0),
    ("0xg", TextKind::BadBytes, 0),
    ("0x1g", TextKind::BadBytes, 0),
    ("0x12_", TextKind::BadBytes, 0),
    ("12a", TextKind::BadNumber, 0),
    ("0X1", TextKind::BadNumber, 0),
    ("00x1", TextKind::BadNumber, 0),
    ("--1", TextKind::BadNumber, 0),
    ("-a", TextKind::BadNumber, 0),
    ("-", TextKind::BadNumber, 0),
    (
        "170141183460469231731687303715884105728",
        TextKind::BadNumber,
        0,
    ),
    (
        "-170141183460469231731687303715884105729",
        TextKind::BadNumber,
        0,
    ),
];

static PLACES: [Fault; 24] = [
    ("{ 1 ", TextKind::Unclosed, 4),
    ("\"ab", TextKind::Unclosed, 3),
    ("\"ab\\", TextKind::Unclosed, 4),
    ("/* a /* b */", TextKind::Unclosed, 12),
    ("Foo /* ", TextKind::Unclosed, 7),
    ("Foo (", TextKind::Unclosed, 5),
    ("{ Foo ; ", TextKind::Unclosed, 8),
    ("(1)", TextKind::Unexpected, 1),
    ("((Foo))", TextKind::Unexpected, 1),
    ("()", TextKind::Unexpected, 1),
    ("(@a Foo)", TextKind::Unexpected, 1),
    ("@a Foo", TextKind::Unexpected, 0),
    ("1 @a", TextKind::Unexpected, 2),
    ("{} @a", TextKind::Unexpected, 3),
    (";", TextKind::Unexpected, 0),
    ("{1;;}", TextKind::Unexpected, 3),
    ("{ Foo )", TextKind::Unexpected, 6),
    ("(Foo ; )", TextKind::Unexpected, 5),
    ("(Foo) Bar", TextKind::Unexpected, 6),
    ("{1 2}", TextKind::Unexpected, 3),
    ("1 \"a\\q\"", TextKind::Unexpected, 2),
    ("1 \"ab", TextKind::Unexpected, 2),
    ("{ 1 \"a\u{1}\" }", TextKind::Unexpected, 4),
    ("1 12a", TextKind::BadNumber, 2),
];

// A text, the place behind its first statement, and that statement on one line.
type Line = (&'static str, u64, &'static str);

static READ: [Line; 18] = [
    ("Foo ;", 5, "Foo"),
    (" (Foo)", 6, "Foo"),
    ("0x ;1", 4, "0x"),
    ("-0", 2, "0"),
    ("007;)", 4, "7"),
    ("0xAbCd", 6, "0xabcd"),
    ("\"\\n\\\\\\\"\\t\\b\\r\"", 14, "\"\\n\\\\\\\"\\t\\b\\r\""),
    ("pair int %x nat", 15, "pair %x int nat"),
    (
        "Pair 1(Pair 2\"a\"){}{1;Foo 2;}",
        29,
        "Pair 1 (Pair 2 \"a\") {} { 1 ; Foo 2 }",
    ),
    ("Foo (Bar)", 9, "Foo Bar"),
    ("Foo (Bar @)", 11, "Foo (Bar @)"),
    ("{ (Foo 1) ; }", 13, "{ Foo 1 }"),
    ("Foo %a@b:c # d", 14, "Foo %a@b :c"),
    ("/*/ 1 */ 2", 10, "2"),
    ("/* /* */ */ 3", 13, "3"),
    ("{ { } ; {} }", 12, "{ {} ; {} }"),
    (
        "170141183460469231731687303715884105727",
        39,
        "170141183460469231731687303715884105727",
    ),
    (
        "-170141183460469231731687303715884105728",
        40,
        "-170141183460469231731687303715884105728",
    ),
];

fn fault_of(alloc: Global, text: &[u8]) -> Option<(TextKind, u64)> {
    match read_statement(alloc, text, 0) {
        Err(TextError::Fault(kind, place)) => Some((kind, place)),
        _ => None,
    }
}

// Fails with the first text that has another fault.
fn are_faulty(alloc: Global, rows: &[Fault]) -> Result<(), Fail> {
    for (text, kind, place) in rows {
        if fault_of(alloc, text.as_bytes()) != Some((*kind, *place)) {
            return Err(Fail::new(*text));
        }
    }
    Ok(())
}

// Whether the first statement of a text ends there, and is printed so.
fn is_read(alloc: Global, text: &str, end: u64, line: &str) -> Result<bool, Fail> {
    let placed = read_statement(alloc, text.as_bytes(), 0)?.ok_or("no statement")?;
    let printed = print(alloc, &placed.node)?;
    Ok(placed.end == end && printed.as_slice() == line.as_bytes())
}

// Fails with the first text of which this is not so.
fn are_read(alloc: Global, rows: &[Line]) -> Result<(), Fail> {
    for (text, end, line) in rows {
        if !is_read(alloc, text, *end, line)? {
            return Err(Fail::new(*text));
        }
    }
    Ok(())
}

// As many copies of a byte behind some others.
fn repeated(alloc: Global, front: &str, byte: u8, count: usize) -> Result<Vec<u8>, Memory> {
    let mut text = front.as_bytes().to_vec(alloc)?;
    for _ in 0..count {
        text.push(byte)?;
    }
    Ok(text)
}

#[test]
fn faults_of_tokens(rt: HostRuntime) -> Result<(), Fail> {
    are_faulty(rt.alloc(), &BYTES_AND_STRINGS)
}

#[test]
fn faults_of_places(rt: HostRuntime) -> Result<(), Fail> {
    are_faulty(rt.alloc(), &PLACES)
}

#[test]
fn statements_are_printed(rt: HostRuntime) -> Result<(), Fail> {
    are_read(rt.alloc(), &READ)
}

#[test]
fn only_white_space_and_comments(rt: HostRuntime) {
    assert!(rt;
        matches!(
            read_statement(rt.alloc(), b" \r\n\t# a; /* \n/* */", 0),
            Ok(None)
        )
    );
}

// The fault of as many copies of a byte behind some others.
fn fault_of_many(
    alloc: Global,
    front: &str,
    byte: u8,
    count: usize,
) -> Result<Option<(TextKind, u64)>, Memory> {
    let text = repeated(alloc, front, byte, count)?;
    Ok(fault_of(alloc, text.as_slice()))
}

#[test]
fn levels(rt: HostRuntime) -> Result<(), Fail> {
    assert!(rt; fault_of_many(rt.alloc(), "", b'{', 1000)? == Some((TextKind::Unclosed, 1000)));
    assert!(rt; fault_of_many(rt.alloc(), "", b'{', 1001)? == Some((TextKind::TooDeep, 1000)));
    Ok(())
}

#[test]
fn lengths_of_names(rt: HostRuntime) -> Result<(), Fail> {
    assert!(rt; fault_of_many(rt.alloc(), "", b'a', 255)?.is_none());
    assert!(rt; fault_of_many(rt.alloc(), "", b'a', 256)? == Some((TextKind::TooLong, 0)));
    Ok(())
}

#[test]
fn lengths_of_annotations(rt: HostRuntime) -> Result<(), Fail> {
    assert!(rt; fault_of_many(rt.alloc(), "Foo %", b'a', 256)? == Some((TextKind::TooLong, 4)));
    Ok(())
}
