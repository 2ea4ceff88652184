//! Statements at the limit of their length, by public calls. The rows are worked out by hand from the rules on TooLong.
use TextKind::{BadBytes, BadChar, BadNumber, BadString, TooDeep, TooLong, Unexpected};
use mich_base::Memory;
use mich_text::pieces::{Next, Reader};
use mich_text::{Placed, TextError, TextKind, read_alone, read_part, read_statement};
use std::alloc::Global;
use std::test::Fail;

// How many bytes a statement may have: where it begins at 0, the place of the first byte past its limit.
const LIMIT: usize = 16_777_216;

// The same of a file.
const FILE_LIMIT: usize = 1_073_741_824;

// How many bytes of a text no tail reaches, so that they needn't be written again.
const KEPT: usize = LIMIT - 2_097_155;

// What is read: the places of a statement, that there is none, or a fault with its place.
#[derive(Clone, Copy, Debug, PartialEq, Eq)]
enum Answer {
    Placed(usize, usize),
    End,
    Fault(TextKind, usize),
    Memory,
}

// What stands behind `Foo` and spaces, from which place on, and the fault of that text with its place.
static CUT_TOKENS: [(&str, usize, TextKind, usize); 24] = [
    ("12a", LIMIT - 2, BadNumber, LIMIT - 2),
    ("12a", LIMIT - 1, TooLong, LIMIT),
    ("-a", LIMIT - 1, BadNumber, LIMIT - 1),
    ("-a", LIMIT, TooLong, LIMIT),
    ("- ", LIMIT - 1, BadNumber, LIMIT - 1),
    (
        "170141183460469231731687303715884105728",
        LIMIT - 38,
        BadNumber,
        LIMIT - 38,
    ),
    (
        "170141183460469231731687303715884105728",
        LIMIT - 37,
        TooLong,
        LIMIT,
    ),
    ("0x1g", LIMIT - 3, BadBytes, LIMIT - 3),
    ("0x1g", LIMIT - 2, TooLong, LIMIT),
    ("0x123 ", LIMIT - 5, BadBytes, LIMIT - 5),
    ("0x123 ", LIMIT - 4, TooLong, LIMIT),
    ("0x12 ", LIMIT - 3, TooLong, LIMIT),
    ("0x", LIMIT - 1, TooLong, LIMIT),
    ("\"a\\q\"", LIMIT - 3, BadString, LIMIT - 1),
    ("\"a\\q\"", LIMIT - 2, TooLong, LIMIT),
    ("\"a\u{1}\"", LIMIT - 3, BadString, LIMIT - 1),
    ("\"a\u{1}\"", LIMIT - 2, TooLong, LIMIT),
    ("\"abc", LIMIT - 2, TooLong, LIMIT),
    ("?1", LIMIT - 1, BadChar, LIMIT - 1),
    ("?1", LIMIT, TooLong, LIMIT),
    ("/ ", LIMIT - 1, BadChar, LIMIT - 1),
    ("/* c */", LIMIT - 3, TooLong, LIMIT),
    ("/**/", LIMIT - 3, TooLong, LIMIT),
    ("# c", LIMIT - 2, TooLong, LIMIT),
];

// The same behind another front and spaces: tokens that can't stand where they stand, and signs.
static CUT_PLACES: [(&str, &str, usize, TextKind, usize); 13] = [
    ("1", "abc", LIMIT - 1, Unexpected, LIMIT - 1),
    ("1", "abc", LIMIT, TooLong, LIMIT),
    ("1", "12a", LIMIT - 1, Unexpected, LIMIT - 1),
    ("1", "12a", LIMIT - 2, BadNumber, LIMIT - 2),
    ("1", "0x123", LIMIT - 4, Unexpected, LIMIT - 4),
    ("1", "0x1g", LIMIT - 3, BadBytes, LIMIT - 3),
    ("1", "\"a\\q\"", LIMIT - 3, Unexpected, LIMIT - 3),
    ("{ 1", "0x1", LIMIT - 2, Unexpected, LIMIT - 2),
    ("{ 1 ;", "0x1", LIMIT - 2, TooLong, LIMIT),
    ("Foo", "} ", LIMIT - 1, Unexpected, LIMIT - 1),
    ("{", "}", LIMIT, TooLong, LIMIT),
    ("Foo", " ;", LIMIT, TooLong, LIMIT),
    ("Foo", "Bar", LIMIT - 2, TooLong, LIMIT),
];

// A token's front behind `Foo` and spaces, the byte that goes on behind it, the token's place, and that of TooLong.
static LONG_TOKENS: [(&str, u8, usize, usize); 8] = [
    ("", b'a', LIMIT - 255, LIMIT - 255),
    ("", b'a', LIMIT - 254, LIMIT),
    ("@", b'a', LIMIT - 256, LIMIT - 256),
    ("@", b'a', LIMIT - 255, LIMIT),
    ("0x", b'0', LIMIT - 2_097_155, LIMIT - 2_097_155),
    ("0x", b'0', LIMIT - 2_097_154, LIMIT),
    ("\"", b'a', LIMIT - 1_048_577, LIMIT - 1_048_577),
    ("\"", b'a', LIMIT - 1_048_576, LIMIT),
];

// A front, what stands behind it and spaces, from which place on, what is read, and whether it is a node alone.
static STATEMENTS: [(&str, &str, usize, Answer, bool); 6] = [
    ("Foo", "", LIMIT, Answer::Placed(0, LIMIT), true),
    ("Foo", ";", LIMIT, Answer::Placed(0, LIMIT + 1), false),
    ("Foo", " ", LIMIT, Answer::Fault(TooLong, LIMIT), false),
    (
        "# c\nFoo",
        "",
        LIMIT + 4,
        Answer::Placed(4, LIMIT + 4),
        true,
    ),
    (
        "# c\nFoo",
        ";",
        LIMIT + 4,
        Answer::Placed(4, LIMIT + 5),
        false,
    ),
    (
        "# c\nFoo",
        " ",
        LIMIT + 4,
        Answer::Fault(TooLong, LIMIT + 4),
        false,
    ),
];

// A text, how many bytes of its file stand before it, and what is read.
static FILE_ENDS: [(&str, usize, Answer); 9] = [
    ("Foo ;", FILE_LIMIT - 4, Answer::Fault(TooLong, FILE_LIMIT)),
    (
        "Foo ; ",
        FILE_LIMIT - 5,
        Answer::Placed(FILE_LIMIT - 5, FILE_LIMIT),
    ),
    ("Foo", FILE_LIMIT - 2, Answer::Fault(TooLong, FILE_LIMIT)),
    (
        "Foo",
        FILE_LIMIT - 3,
        Answer::Placed(FILE_LIMIT - 3, FILE_LIMIT),
    ),
    ("{ }", FILE_LIMIT - 2, Answer::Fault(TooLong, FILE_LIMIT)),
    (
        "1 12a",
        FILE_LIMIT - 3,
        Answer::Fault(Unexpected, FILE_LIMIT - 1),
    ),
    (
        "1 12a",
        FILE_LIMIT - 4,
        Answer::Fault(BadNumber, FILE_LIMIT - 2),
    ),
    ("# c", FILE_LIMIT - 2, Answer::Fault(TooLong, FILE_LIMIT)),
    ("# c", FILE_LIMIT - 3, Answer::End),
];

fn as_answer(read: Result<Option<Placed>, TextError>) -> Answer {
    match read {
        Ok(Some(placed)) => Answer::Placed(placed.start as usize, placed.end as usize),
        Ok(None) => Answer::End,
        Err(TextError::Fault(kind, place)) => Answer::Fault(kind, place as usize),
        Err(TextError::Memory) => Answer::Memory,
    }
}

fn answer_of(alloc: Global, text: &[u8]) -> Answer {
    as_answer(read_statement(alloc, text, 0))
}

// The same of a text before which so many bytes of its file stand.
fn answer_of_part(alloc: Global, text: &str, before: usize) -> Answer {
    if before > FILE_LIMIT {
        return Answer::Memory;
    }
    as_answer(read_part(alloc, text.as_bytes(), before as u64))
}

fn overwrite(text: &mut Vec<u8>, bytes: &[u8]) {
    for (slot, byte) in text.iter_mut().zip(bytes) {
        *slot = *byte;
    }
}

// Makes a text of a front, spaces up to a place, and a tail, where it was such a text or empty.
fn write(text: &mut Vec<u8>, front: &str, place: usize, tail: &str) -> Result<(), Memory> {
    text.truncate(KEPT);
    text.resize(place, b' ')?;
    text.extend_from_slice(tail.as_bytes())?;
    overwrite(text, b"       ");
    overwrite(text, front.as_bytes());
    Ok(())
}

#[test]
fn tokens_cut_by_the_limit(rt: HostRuntime) -> Result<(), Fail> {
    let mut text = Vec::new(rt.alloc());
    for (tail, from, kind, at) in CUT_TOKENS {
        write(&mut text, "Foo", from, tail)?;
        assert_eq!(rt;
            answer_of(rt.alloc(), text.as_slice()),
            Answer::Fault(kind, at),
            "{tail} {from}"
        );
    }
    Ok(())
}

#[test]
fn places_cut_by_the_limit(rt: HostRuntime) -> Result<(), Fail> {
    let mut text = Vec::new(rt.alloc());
    for (front, tail, from, kind, at) in CUT_PLACES {
        write(&mut text, front, from, tail)?;
        assert_eq!(rt;
            answer_of(rt.alloc(), text.as_slice()),
            Answer::Fault(kind, at),
            "{front} {tail} {from}"
        );
    }
    Ok(())
}

#[test]
fn long_tokens_cut_by_the_limit(rt: HostRuntime) -> Result<(), Fail> {
    let mut text = Vec::new(rt.alloc());
    for (front, byte, from, at) in LONG_TOKENS {
        write(&mut text, "Foo", from, front)?;
        text.resize(LIMIT + 2, byte)?;
        assert_eq!(rt;
            answer_of(rt.alloc(), text.as_slice()),
            Answer::Fault(TooLong, at),
            "{front} {from}"
        );
    }
    Ok(())
}

#[test]
fn a_node_too_deep_cut_by_the_limit(rt: HostRuntime) -> Result<(), Fail> {
    let mut text = Vec::new(rt.alloc());
    text.resize(1000, b'{')?;
    text.resize(LIMIT - 2, b' ')?;
    text.extend_from_slice(b"0x1")?;
    assert_eq!(rt;
        answer_of(rt.alloc(), text.as_slice()),
        Answer::Fault(TooDeep, LIMIT - 2)
    );
    Ok(())
}

#[test]
fn statements_up_to_the_limit(rt: HostRuntime) -> Result<(), Fail> {
    let mut text = Vec::new(rt.alloc());
    for (front, tail, from, read, alone) in STATEMENTS {
        write(&mut text, front, from, tail)?;
        assert_eq!(rt;
            answer_of(rt.alloc(), text.as_slice()),
            read,
            "{front} {tail}"
        );
        let node = read_alone(rt.alloc(), text.as_slice())?;
        assert_eq!(rt; node.is_some(), alone, "{front} {tail}");
    }
    Ok(())
}

#[test]
fn texts_at_the_limit_of_a_file(rt: HostRuntime) {
    for (text, before, read) in FILE_ENDS {
        assert_eq!(rt;
            answer_of_part(rt.alloc(), text, before),
            read,
            "{text} {before}"
        );
    }
}

#[test]
fn a_token_cut_by_the_limit_in_pieces(rt: HostRuntime) -> Result<(), Fail> {
    let mut text = Vec::new(rt.alloc());
    write(&mut text, "Foo", LIMIT - 2, "12")?;
    let mut reader = Reader::new(rt.alloc());
    reader.feed(text.as_slice())?;
    assert!(rt; matches!(reader.next(false), Ok(Next::More)));
    reader.feed(b"a")?;
    assert!(rt;
        matches!(
            reader.next(false),
            Err(TextError::Fault(BadNumber, 16_777_214))
        )
    );
    Ok(())
}
