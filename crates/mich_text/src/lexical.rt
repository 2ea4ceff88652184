//! From bytes to tokens.
ghost use Rattle.std.specs.Prelude.{◌≡◌, ℕ, ◌+◌, ◌<◌, ◌≤◌, ◌↔◌, ◌∷◌, ◌*◌, ◌^◌, option_map, if◌then◌else◌, ◌-◌, length, take, drop, IsTrue, MatchOption, IfOk, None, Some};
ghost use Rattle.std.specs.List.{prefix_len, AllPass};
ghost use Rattle.rules_text.specs.text.Lexical.{digits_at, number_at, is_minus, token_at, signed, shape_of, begins_bytes, opens, closes, bytes_at, is_word, is_noted, is_white, begins_word, after_gap, after_line, after_block, name_at, annotation_at, string_at, spelt, spelt_escape, escaped};
ghost use Rattle.std.specs.Char.{is_ascii_hexdigit, is_ascii_digit};
ghost use Rattle.std.specs.Str.Parse.{digits_value};
ghost use Rattle.rules_text.specs.nodes.Limits.{name_limit, byte_limit};
ghost use Rattle.mich_text.specs.Gives.{Gives, flaw_view};
ghost use Rattle.mich_text.specs.Views.{token_view};
ghost use Rattle.mich_text.specs.Units.{spelt_by, IsBehind, after_block_by, IsInBlock};

use super::fault::{Flaw, LexError};
use super::token::Token;
use hex::FromHexError;
use mich_base::{BYTE_LIMIT, Bytes, NAME_LIMIT, Text};
use rules_text::text::{Shape, TextKind};
use std::alloc::Global;

fn is_word(c: u8) -> bool
    ensures { result ≡ is_word c }
{
    c.is_ascii_alphanumeric() || c == b'_'
}

fn is_noted(c: u8) -> bool
    ensures { result ≡ is_noted c }
{
    is_word(c) || matches!(c, b'.' | b'%' | b'@')
}

fn is_white(c: u8) -> bool
    ensures { result ≡ is_white c }
{
    matches!(c, b' ' | b'\t' | b'\n' | b'\r')
}

// How many bytes of a word the text begins with.
#[tactic(auto, using(crate::proofs::tokens::Strings::prefix_laws))]
fn word_len(text: &[u8]) -> usize
    ensures is { result ≡ prefix_len is_word text.now }
    ensures within { result ≤ length text.now }
{
    text.iter().take_while(|c| is_word(**c)).count()
}

#[tactic(auto, using(crate::proofs::tokens::Strings::prefix_laws))]
fn noted_len(text: &[u8]) -> usize
    ensures is { result ≡ prefix_len is_noted text.now }
    ensures within { result ≤ length text.now }
{
    text.iter().take_while(|c| is_noted(**c)).count()
}

// A flaw at the front of the text.
fn flaw(kind: TextKind, text: &[u8]) -> LexError
    ensures { result ≡ LexError.Flaw (record { kind = kind; left = length text.now }) }
{
    LexError::Flaw(Flaw {
        kind,
        left: text.len(),
    })
}

#[tactic(auto, unfolding(rules_text::specs::text::Lexical::name_at), using(crate::proofs::tokens::Strings::test_laws))]
fn name_at(alloc: Global, text: &[u8]) -> Result<(Text, &[u8]), LexError>
    ensures { Gives (λ x. (x.0, x.1.now)) result (name_at text.now) }
{
    let n = word_len(text);
    if n > NAME_LIMIT {
        return Err(flaw(TextKind::TooLong, text));
    }
    let (name, rest) = text.split_at(n);
    Ok((Text::from_slice(alloc, name)?, rest))
}

#[tactic(auto, unfolding(rules_text::specs::text::Lexical::annotation_at), using(crate::proofs::tokens::Strings::test_laws))]
fn annotation_at(alloc: Global, text: &[u8]) -> Result<(Text, &[u8]), LexError>
    requires { 0 < length text.now }
    ensures { Gives (λ x. (x.0, x.1.now)) result (annotation_at text.now) }
{
    let n = noted_len(&text[1..]);
    if n > NAME_LIMIT {
        return Err(flaw(TextKind::TooLong, text));
    }
    let (annotation, rest) = text.split_at(n + 1);
    Ok((Text::from_slice(alloc, annotation)?, rest))
}

// The byte that a backslash and this one spell.
fn escaped(c: u8) -> Option<u8>
    ensures { result ≡ escaped c }
{
    match c {
        b'n' => Some(b'\n'),
        b'\\' => Some(b'\\'),
        b'"' => Some(b'"'),
        b't' => Some(b'\t'),
        b'b' => Some(8),
        b'r' => Some(b'\r'),
        _ => None,
    }
}

// How a string goes on.
enum Unit<'a> {
    // It spells this byte, and goes on behind.
    Byte(u8, &'a [u8]),
    // It was closed.
    Closed(&'a [u8]),
    Bad(Flaw),
}

fn unit_at(text: &[u8]) -> Unit
    ensures step { spelt text.now ≡ spelt_by result }
    ensures shorter { IsBehind result (length text.now) }
{
    let Some((&c, after)) = text.split_first() else {
        return Unit::Bad(Flaw {
            kind: TextKind::Unclosed,
            left: 0,
        });
    };
    match c {
        b'"' => Unit::Closed(after),
        b'\\' => escape_at(text, after),
        b' '..=b'~' => Unit::Byte(c, after),
        _ => Unit::Bad(Flaw {
            kind: TextKind::BadString,
            left: text.len(),
        }),
    }
}

// `after` is what follows the backslash that the text begins with.
fn escape_at<'a>(text: &'a [u8], after: &'a [u8]) -> Unit<'a>
    requires { text.now ≡ 92 ∷ after.now }
    ensures step { spelt_escape after.now ≡ spelt_by result }
    ensures shorter { IsBehind result (length after.now) }
{
    let Some((&c, behind)) = after.split_first() else {
        return Unit::Bad(Flaw {
            kind: TextKind::Unclosed,
            left: 0,
        });
    };
    match escaped(c) {
        Some(byte) => Unit::Byte(byte, behind),
        None => Unit::Bad(Flaw {
            kind: TextKind::BadString,
            left: text.len(),
        }),
    }
}

// The string whose opening quote the text begins with.
fn string_at(alloc: Global, text: &[u8]) -> Result<(Text, &[u8]), LexError>
    requires { 0 < length text.now }
    ensures { Gives (λ x. (x.0, x.1.now)) result (string_at text.now) }
{
    let mut spelt = Vec::new(alloc);
    let mut rest = &text[1..];
    'units: loop {
        match unit_at(rest) {
            Unit::Bad(flaw) => return Err(LexError::Flaw(flaw)),
            Unit::Closed(after) => return Ok((Text::from_vec(spelt)?, after)),
            Unit::Byte(byte, behind) => {
                if spelt.len() == BYTE_LIMIT {
                    return Err(flaw(TextKind::TooLong, text));
                }
                spelt.push(byte)?;
                rest = behind;
            }
        }
    }
}

// ---- white space and comments

// The bytes behind white space and comments, or none where the input ends in a block comment.
pub(crate) fn after_gap(text: &[u8]) -> Option<&[u8]>
    ensures { option_map (λ rest. rest.now) result ≡ after_gap text.now }
{
    let mut rest = text;
    'gaps: loop {
        match rest {
            [b'/', b'*', behind @ ..] => rest = after_block(behind)?,
            [b'#', behind @ ..] => rest = after_line(behind),
            [c, behind @ ..] if is_white(*c) => rest = behind,
            _ => return Some(rest),
        }
    }
}

// From the end of the line on.
fn after_line(text: &[u8]) -> &[u8]
    ensures goes_on { after_line text.now ≡ after_gap result.now }
    ensures shorter { length result.now ≤ length text.now }
{
    let mut rest = text;
    'line: while let [c, behind @ ..] = rest {
        if *c == b'\n' {
            break;
        }
        rest = behind;
    }
    rest
}

fn opens(c: u8, d: u8) -> bool
    ensures { result ≡ opens c d }
{
    c == b'/' && d == b'*'
}

fn closes(c: u8, d: u8) -> bool
    ensures { result ≡ closes c d }
{
    c == b'*' && d == b'/'
}

// How a block comment goes on.
enum Block<'a> {
    // With as many levels open.
    Inside(usize, &'a [u8]),
    Outside(&'a [u8]),
    Unclosed,
}

fn block_at(levels: usize, text: &[u8]) -> Block
    requires { (0 < levels) × (levels + length text.now < 2 ^ 64) }
    ensures step { after_block levels text.now ≡ after_block_by result }
    ensures shorter { IsInBlock result levels (length text.now) }
{
    let Some((&c, after)) = text.split_first() else {
        return Block::Unclosed;
    };
    let Some((&d, behind)) = after.split_first() else {
        return Block::Unclosed;
    };
    if opens(c, d) {
        return Block::Inside(levels + 1, behind);
    }
    if closes(c, d) {
        return if levels == 1 {
            Block::Outside(behind)
        } else {
            Block::Inside(levels - 1, behind)
        };
    }
    Block::Inside(levels, after)
}

// Behind a block comment, of which one level is open.
fn after_block(text: &[u8]) -> Option<&[u8]>
    ensures goes_on { MatchOption result (after_block 1 text.now ≡ None) (λ rest. (after_block 1 text.now ≡ after_gap rest.now) × (length rest.now ≤ length text.now)) }
{
    let mut levels = 1usize;
    let mut rest = text;
    'block: loop {
        match block_at(levels, rest) {
            Block::Inside(open, behind) => {
                levels = open;
                rest = behind;
            }
            Block::Outside(behind) => return Some(behind),
            Block::Unclosed => return None,
        }
    }
}

// ---- bytes

fn begins_word(text: &[u8]) -> bool
    ensures { result ≡ begins_word text.now }
{
    match text {
        [c, ..] => is_word(*c),
        [] => false,
    }
}

#[tactic(auto, using(crate::proofs::tokens::Strings::prefix_laws))]
pub(crate) fn hex_len(text: &[u8]) -> usize
    ensures is { result ≡ prefix_len is_ascii_hexdigit text.now }
    ensures within { result ≤ length text.now }
{
    text.iter().take_while(|c| c.is_ascii_hexdigit()).count()
}

#[tactic(auto, unfolding(rules_text::specs::text::Lexical::bytes_at), using(crate::proofs::tokens::Strings::test_laws))]
fn bytes_at(alloc: Global, text: &[u8]) -> Result<(Bytes, &[u8]), LexError>
    requires { 2 ≤ length text.now }
    ensures { Gives (λ x. (x.0, x.1.now)) result (bytes_at text.now) }
{
    let (_, behind) = text.split_at(2);
    let (digits, rest) = behind.split_at(hex_len(behind));
    if digits.len() / 2 > BYTE_LIMIT {
        return Err(flaw(TextKind::TooLong, text));
    }
    if begins_word(rest) {
        return Err(flaw(TextKind::BadBytes, text));
    }
    match hex::decode(alloc, digits) {
        Ok(bytes) => Ok((Bytes::from_vec(bytes)?, rest)),
        Err(FromHexError::OutOfMemory) => Err(LexError::Memory),
        Err(_) => Err(flaw(TextKind::BadBytes, text)),
    }
}

// ---- numbers

#[tactic(auto, using(crate::proofs::tokens::Strings::prefix_laws))]
fn digit_len(text: &[u8]) -> usize
    ensures is { result ≡ prefix_len is_ascii_digit text.now }
    ensures within { result ≤ length text.now }
{
    text.iter().take_while(|c| c.is_ascii_digit()).count()
}

fn begins_minus(text: &[u8]) -> bool
    ensures { result ≡ is_minus text.now }
{
    matches!(text, [b'-', ..])
}

// The digits that the text begins with, and the rest.
fn digits_of(text: &[u8]) -> (&[u8], &[u8])
    ensures digits { result.0.now ≡ take (prefix_len is_ascii_digit text.now) text.now }
    ensures rest { result.1.now ≡ drop (prefix_len is_ascii_digit text.now) text.now }
    ensures all { AllPass is_ascii_digit result.0.now }
{
    text.split_at(digit_len(text))
}

// The value of decimal digits, or none where it is too large.
fn decimal(digits: &[u8]) -> Option<u128>
    requires { AllPass is_ascii_digit digits.now }
    ensures { MatchOption result (2 ^ 128 ≤ digits_value 10 digits.now) (λ n. n ≡ digits_value 10 digits.now) }
{
    let mut value = 0u128;
    for c in digits {
        value = value.checked_mul(10)?.checked_add(u128::from(*c - b'0'))?;
    }
    Some(value)
}

fn signed(negative: bool, value: u128) -> i128
    requires { value ≤ (if negative then 2 ^ 127 else 2 ^ 127 - 1) }
    ensures { result ≡ signed negative value }
{
    if !negative {
        value as i128
    } else if value == 1 << 127 {
        i128::MIN
    } else {
        -(value as i128)
    }
}

#[tactic(auto, unfolding(rules_text::specs::text::Lexical::number_at), using(crate::proofs::tokens::Strings::test_laws))]
fn number_at(text: &[u8]) -> Result<(i128, &[u8]), LexError>
    ensures { Gives (λ x. (x.0, x.1.now)) result (number_at text.now) }
{
    let negative = begins_minus(text);
    let (digits, rest) = digits_of(if negative { &text[1..] } else { text });
    let limit = if negative {
        1u128 << 127
    } else {
        (1u128 << 127) - 1
    };
    if digits.is_empty() || begins_word(rest) {
        return Err(flaw(TextKind::BadNumber, text));
    }
    match decimal(digits) {
        Some(value) if value <= limit => Ok((signed(negative, value), rest)),
        _ => Err(flaw(TextKind::BadNumber, text)),
    }
}

// ---- tokens

// What the token is that begins with this byte.
pub(crate) fn shape_of(c: u8) -> Option<Shape>
    ensures { result ≡ shape_of c }
{
    match c {
        b'0'..=b'9' | b'-' => Some(Shape::Digits),
        b'"' => Some(Shape::Quoted),
        b'A'..=b'Z' | b'a'..=b'z' | b'_' => Some(Shape::Word),
        b'@' | b':' | b'%' => Some(Shape::Note),
        b'{' => Some(Shape::OpenBrace),
        b'}' => Some(Shape::CloseBrace),
        b'(' => Some(Shape::OpenParen),
        b')' => Some(Shape::CloseParen),
        b';' => Some(Shape::Semicolon),
        _ => None,
    }
}

fn begins_bytes(text: &[u8]) -> bool
    ensures { result ≡ begins_bytes text.now }
{
    matches!(text, [b'0', b'x', ..])
}

// The token at the front of the text.
#[tactic(auto, unfolding(rules_text::specs::text::Lexical::token_at))]
pub(crate) fn token_at(alloc: Global, text: &[u8]) -> Result<(Token, &[u8]), LexError>
    requires { 0 < length text.now }
    ensures { Gives (λ x. (token_view x.0, x.1.now)) result (token_at text.now) }
{
    let rest = &text[1..];
    match shape_of(text[0]) {
        None => Err(flaw(TextKind::BadChar, text)),
        Some(Shape::Digits) => digits_at(alloc, text),
        Some(Shape::Quoted) => {
            let (string, rest) = string_at(alloc, text)?;
            Ok((Token::Text(string), rest))
        }
        Some(Shape::Word) => {
            let (name, rest) = name_at(alloc, text)?;
            Ok((Token::Name(name), rest))
        }
        Some(Shape::Note) => {
            let (annotation, rest) = annotation_at(alloc, text)?;
            Ok((Token::Annotation(annotation), rest))
        }
        Some(Shape::OpenBrace) => Ok((Token::OpenBrace, rest)),
        Some(Shape::CloseBrace) => Ok((Token::CloseBrace, rest)),
        Some(Shape::OpenParen) => Ok((Token::OpenParen, rest)),
        Some(Shape::CloseParen) => Ok((Token::CloseParen, rest)),
        Some(Shape::Semicolon) => Ok((Token::Semicolon, rest)),
    }
}

// The number, or the bytes, at the front of the text.
fn digits_at(alloc: Global, text: &[u8]) -> Result<(Token, &[u8]), LexError>
    ensures { Gives (λ x. (token_view x.0, x.1.now)) result (digits_at text.now) }
{
    if begins_bytes(text) {
        let (bytes, rest) = bytes_at(alloc, text)?;
        Ok((Token::Bytes(bytes), rest))
    } else {
        let (number, rest) = number_at(text)?;
        Ok((Token::Number(number), rest))
    }
}
