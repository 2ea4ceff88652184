//! Reading one statement, within the limits of a statement and of a file.
ghost use Rattle.std.specs.Prelude.{◌≡◌, ℕ, ◌+◌, ◌-◌, ◌^◌, ◌<◌, ◌≤◌, List, length, take, true, false, MatchBool, Ok, Some, Err};
ghost use Rattle.rules_text.specs.text.Text.{IsLimit, IsStatementLimit, IsFileLimit};
ghost use Rattle.rules_text.specs.declared.text.TextKind.{TextKind};
ghost use Rattle.mich_text.specs.Plain.{IsFaultWithoutLimits};
ghost use Rattle.mich_text.specs.Shown.{IsOpenBytes};
ghost use Rattle.mich_text.specs.Limited.{IsOnly};
ghost use Rattle.mich_text.specs.Results.{IsRead, IsWithinText, IsLimitedRead, FrontTells, FrontTellsFault, IsText, IsWithinBytes, last_bytes};
ghost use Rattle.mich_text.specs.Parts.{IsAloneRead, IsPart};

use super::fault::{Flaw, LexError, TextError};
use super::lexical::{after_gap, hex_len};
use super::plain::{Found, statement_at, statement_within};
use mich_base::{FILE_LIMIT, Memory, Node, STATEMENT_LIMIT};
use rules_text::text::TextKind;
use std::alloc::Global;

/// A statement with its places, in bytes from 0: that of its first byte, and the one behind its `;`, or the length of the
/// input where it has none.
#[derive(Debug, Drop)]
pub struct Placed {
    pub start: u64,
    pub end: u64,
    pub node: Node,
}

/// How many bytes are left at the first one past the limit of the statement that begins here, or 0 where it has none.
fn statement_limit(text: &[u8]) -> usize
    ensures only { IsOnly (IsStatementLimit text.now) result }
    ensures within { result ≤ length text.now }
{
    match after_gap(text) {
        Some(first) => first.len().saturating_sub(STATEMENT_LIMIT),
        None => 0,
    }
}

/// The same of the file, of which so many bytes stand before the text.
fn file_limit(text: &[u8], before: usize) -> usize
    ensures only { IsOnly (IsFileLimit before text.now) result }
    ensures within { result ≤ length text.now }
{
    if before <= FILE_LIMIT {
        text.len().saturating_sub(FILE_LIMIT - before)
    } else {
        0
    }
}

/// Whether a flaw is one of bytes whose digits go on to the end: one more of them may mend it.
fn is_open_bytes(here: &[u8], kind: TextKind) -> bool
    requires { 2 ≤ length here.now }
    ensures { MatchBool result (IsOpenBytes here.now kind) (IsOpenBytes here.now kind → ⊥) }
{
    let (_, digits) = here.split_at(2);
    matches!(kind, TextKind::BadBytes) && hex_len(digits) == digits.len()
}

/// Where the text goes on past a limit, and so many bytes follow the first one past it.
fn too_long(behind: usize) -> LexError
    requires { behind + 1 < 2 ^ 64 }
    ensures { result ≡ LexError.Flaw (record { kind = TextKind.TooLong; left = 1 + behind }) }
{
    LexError::Flaw(Flaw {
        kind: TextKind::TooLong,
        left: behind + 1,
    })
}

/// What the text is, where it has at a place bytes whose digits go on to the limit, and no pair for the last of them.
/// They are read without it, and so only their place can be wrong.
fn open_bytes(alloc: Global, front: &[u8], left: usize, behind: usize) -> LexError
    requires long { 1 < left }
    requires within { left ≤ length front.now }
    requires fits { length front.now + behind < 2 ^ 64 }
    ensures { IsFaultWithoutLimits front.now TextKind.BadBytes left → IsOpenBytes (last_bytes left front.now) TextKind.BadBytes → FrontTellsFault front.now behind result }
{
    match statement_within(alloc, &front[..front.len() - 1]) {
        Ok(_) => too_long(behind),
        Err(LexError::Memory) => LexError::Memory,
        Err(LexError::Flaw(flaw)) => {
            if flaw.left + 1 == left {
                LexError::Flaw(Flaw {
                    kind: flaw.kind,
                    left: left + behind,
                })
            } else {
                too_long(behind)
            }
        }
    }
}

/// What the text is, where its front has a fault.
fn fault_of(alloc: Global, front: &[u8], flaw: Flaw, behind: usize) -> LexError
    requires within { flaw.left ≤ length front.now }
    requires fits { length front.now + behind < 2 ^ 64 }
    requires room { behind + 1 < 2 ^ 64 }
    ensures { IsFaultWithoutLimits front.now flaw.kind flaw.left → FrontTellsFault front.now behind result }
{
    if flaw.left <= 1 {
        return too_long(behind);
    }
    if is_open_bytes(&front[front.len() - flaw.left..], flaw.kind) {
        return open_bytes(alloc, front, flaw.left, behind);
    }
    LexError::Flaw(Flaw {
        kind: flaw.kind,
        left: flaw.left + behind,
    })
}

/// What the text is, where its front has a statement: it has its `;`, which may stand at a statement's limit and not at the
/// file's, or it goes on past the limit.
fn statement_of(found: Found, behind: usize, ends_file: bool) -> Result<Option<Found>, LexError>
    requires start { found.start + behind < 2 ^ 64 }
    requires end { found.end + behind < 2 ^ 64 }
    requires room { behind + 1 < 2 ^ 64 }
    ensures { (front : List ℕ) → IsRead front (Ok (Some found)) → FrontTells front behind ends_file result }
{
    if !found.closed {
        return Err(too_long(behind));
    }
    if ends_file && found.end == 0 {
        return Err(too_long(behind));
    }
    Ok(Some(Found {
        start: found.start + behind,
        end: found.end + behind,
        ..found
    }))
}

/// The statement at the front of a text with a byte past a limit, behind the first of which so many bytes follow.
pub(crate) fn statement_up_to(
    alloc: Global,
    text: &[u8],
    behind: usize,
    ends_file: bool,
) -> Result<Option<Found>, LexError>
    requires { behind < length text.now }
    ensures { FrontTells (take (length text.now - behind) text.now) behind ends_file result }
{
    let front = &text[..text.len() - behind];
    match statement_within(alloc, front) {
        Ok(None) => Err(too_long(behind)),
        Ok(Some(found)) => statement_of(found, behind, ends_file),
        Err(LexError::Memory) => Err(LexError::Memory),
        Err(LexError::Flaw(flaw)) => Err(fault_of(alloc, front, flaw, behind)),
    }
}

/// The statement at the front of a text, before which so many bytes of its file stand.
fn statement_in(alloc: Global, text: &[u8], before: usize) -> Result<Option<Found>, LexError>
    ensures { IsLimitedRead before text.now result }
{
    let file = file_limit(text, before);
    let left = statement_limit(text).max(file);
    if left == 0 {
        statement_at(alloc, text)
    } else {
        statement_up_to(alloc, text, left - 1, file == left)
    }
}

/// The same, with its places in the text.
fn statement_within_file(
    alloc: Global,
    text: &[u8],
    before: usize,
) -> Result<Option<Found>, LexError>
    ensures read { IsLimitedRead before text.now result }
    ensures within { IsWithinText (length text.now) result }
{
    statement_in(alloc, text, before)
}

// The places of a statement, from the bytes that are left there in a file of this size.
fn with_places(size: u64, found: Found) -> Placed
    requires start { found.start ≤ size }
    requires end { found.end ≤ size }
    ensures start { result.start + found.start ≡ size }
    ensures end { result.end + found.end ≡ size }
    ensures node { result.node ≡ found.node }
{
    Placed {
        start: size - found.start as u64,
        end: size - found.end as u64,
        node: found.node,
    }
}

// The statement at the front of a text, before which so many bytes of its file stand.
fn part(alloc: Global, text: &[u8], before: u64) -> Result<Option<Placed>, TextError>
    requires { before + length text.now < 2 ^ 64 }
    ensures { IsPart before text.now result }
{
    let size = before + text.len() as u64;
    match statement_within_file(alloc, text, before as usize) {
        Ok(None) => Ok(None),
        Ok(Some(found)) => Ok(Some(with_places(size, found))),
        Err(LexError::Memory) => Err(TextError::Memory),
        Err(LexError::Flaw(flaw)) => Err(TextError::Fault(flaw.kind, size - flaw.left as u64)),
    }
}

/// Reads the statement at the front of a text, before which so many bytes of its file stand, as `read_statement` does. Places are
/// counted from the file's beginning.
#[tactic(auto, using(crate::proofs::grammar::Sizes::part_fits))]
pub fn read_part(alloc: Global, text: &[u8], before: u64) -> Result<Option<Placed>, TextError>
    requires { before + length text.now < 2 ^ 64 }
    ensures text { IsPart before text.now result }
    ensures nodes { IsWithinBytes result }
{
    part(alloc, text, before)
}

/// Reads the statement that begins at a place, or none where only white space and comments follow it. The fault of the
/// text with its place, or Memory, where no statement is there (Octez "Micheline"). A statement has at most 16,777,216
/// bytes up to its `;`, and a file 1,073,741,824; the first byte past a limit is TooLong. It has at most as many nodes as bytes.
#[tactic(auto, using(crate::proofs::limits::Places::part_is_text))]
pub fn read_statement(alloc: Global, bytes: &[u8], place: u64) -> Result<Option<Placed>, TextError>
    requires { place ≤ length bytes.now }
    ensures text { IsText bytes.now place result }
    ensures nodes { IsWithinBytes result }
{
    read_part(alloc, &bytes[place as usize..], place)
}

/// A text with a flaw is no statement.
fn none_alone(error: LexError) -> Result<Option<Node>, Memory>
    ensures { (text : List ℕ) → ((limit : ℕ) → IsLimit 0 text limit → ⊥) → IsRead text (Err error) → IsAloneRead text result }
{
    match error {
        LexError::Flaw(_) => Ok(None),
        LexError::Memory => Err(Memory),
    }
}

/// What a text without a byte past a limit is alone, where this is read of it.
fn alone(read: Result<Option<Found>, LexError>) -> Result<Option<Node>, Memory>
    ensures { (text : List ℕ) → ((limit : ℕ) → IsLimit 0 text limit → ⊥) → IsRead text read → IsAloneRead text result }
{
    match read {
        Ok(Some(found)) => {
            if found.closed {
                Ok(None)
            } else {
                Ok(Some(found.node))
            }
        }
        Ok(None) => Ok(None),
        Err(error) => none_alone(error),
    }
}

/// The node of a text that is one statement without its `;`, with white space and comments round it, or none where the text is
/// anything else or is longer than a statement may be. Memory where there is no room for the node (Octez "Micheline").
pub fn read_alone(alloc: Global, text: &[u8]) -> Result<Option<Node>, Memory>
    ensures { IsAloneRead text.now result }
{
    let statement = statement_limit(text);
    if statement > 0 {
        return Ok(None);
    }
    let file = file_limit(text, 0);
    if file > 0 {
        return Ok(None);
    }
    alone(statement_at(alloc, text))
}
