// Bytes, fields, strings and annotations.
ghost use Rattle.std.specs.Prelude.{◌≡◌, ◌≤◌, ◌<◌, ◌∷◌, length, take, IfSome, option_map};
ghost use Rattle.std.specs.Int.{w32, from_be_bytes};
ghost use Rattle.std.specs.List.{prefix_len, list_all};
ghost use Rattle.rules_text.specs.binary.Reading.{byte_at, field_at, narrow_field_at, is_text, string_at, bytes_at, is_noted, is_annotation, pieces, annotations_of, annotations_at, any_annotations_at, short_annotations_at};
ghost use Rattle.mich_binary.specs.Results.{Gives, spot};
ghost use Rattle.mich_binary.specs.Pieces.{is_no_space, pieces_of};

use crate::cursor::Cursor;
use crate::errors::DecodeError;
use mich_base::{BYTE_LIMIT, Bytes, NAME_LIMIT, Text, Texts};
use rules_text::binary::DecodeKind;
use std::alloc::Global;

#[tactic(auto, unfolding(rules_text::specs::binary::Reading::byte_at))]
pub fn byte_at(cursor: Cursor<'_>) -> Result<(u8, Cursor<'_>), DecodeError>
    ensures { Gives (λ x. (x.0, spot x.1)) result (byte_at (spot cursor.entry)) }
{
    match cursor.left {
        [] => Err(DecodeError::Fault(DecodeKind::BadLength, cursor.place)),
        [byte, left @ ..] => {
            let place = cursor.place + 1;
            Ok((*byte, Cursor { place, left }))
        }
    }
}

// The length in the first four bytes.
fn length_of(bytes: &[u8]) -> u32
    requires { 4 ≤ length bytes.now }
    ensures { result ≡ from_be_bytes w32 (take 4 bytes.now) }
{
    let (front, _) = bytes.split_at(4);
    u32::from_be_bytes([front[0], front[1], front[2], front[3]])
}

// A field: its content, and where reading goes on.
#[tactic(auto, unfolding(rules_text::specs::binary::Reading::field_at))]
pub fn field_at(cursor: Cursor<'_>) -> Result<(Cursor<'_>, Cursor<'_>), DecodeError>
    ensures { Gives (λ x. (spot x.0, spot x.1)) result (field_at (spot cursor.entry)) }
{
    let left = cursor.left;
    if left.len() < 4 {
        return Err(DecodeError::Fault(DecodeKind::BadLength, cursor.place));
    }
    let length = length_of(left) as usize;
    if left.len() < 4 + length {
        return Err(DecodeError::Fault(DecodeKind::BadLength, cursor.place));
    }
    let (_, behind) = left.split_at(4);
    let (content, _) = behind.split_at(length);
    let (_, rest) = left.split_at(4 + length);
    let place = cursor.place + 4;
    let field = Cursor {
        place,
        left: content,
    };
    let after = Cursor {
        place: cursor.place + (4 + length) as u64,
        left: rest,
    };
    Ok((field, after))
}

// A field that is no longer than strings and bytes may be.
#[tactic(auto, unfolding(rules_text::specs::binary::Reading::narrow_field_at))]
pub fn narrow_field_at(cursor: Cursor<'_>) -> Result<(Cursor<'_>, Cursor<'_>), DecodeError>
    ensures { Gives (λ x. (spot x.0, spot x.1)) result (narrow_field_at (spot cursor.entry)) }
{
    let (field, after) = field_at(cursor)?;
    if field.left.len() > BYTE_LIMIT {
        return Err(DecodeError::Fault(DecodeKind::TooWide, cursor.place));
    }
    Ok((field, after))
}

fn is_text(byte: u8) -> bool
    ensures { result ≡ is_text byte }
{
    matches!(byte, 32..=126 | 8..=10 | 13)
}

// How many bytes from the front on a string may hold.
#[tactic(auto, using(crate::proofs::Prefixes::prefix_laws))]
fn text_len(bytes: &[u8]) -> usize
    ensures is { result ≡ prefix_len is_text bytes.now }
    ensures within { result ≤ length bytes.now }
{
    bytes.iter().take_while(|byte| is_text(**byte)).count()
}

#[tactic(auto, unfolding(rules_text::specs::binary::Reading::string_at))]
pub fn string_at(alloc: Global, cursor: Cursor<'_>) -> Result<(Text, Cursor<'_>), DecodeError>
    ensures { Gives (λ x. (x.0, spot x.1)) result (string_at (spot cursor.entry)) }
{
    let (field, after) = narrow_field_at(cursor)?;
    let good = text_len(field.left);
    if good < field.left.len() {
        let place = field.place + good as u64;
        return Err(DecodeError::Fault(DecodeKind::BadString, place));
    }
    Ok((Text::from_slice(alloc, field.left)?, after))
}

#[tactic(auto, unfolding(rules_text::specs::binary::Reading::bytes_at))]
pub fn bytes_at(alloc: Global, cursor: Cursor<'_>) -> Result<(Bytes, Cursor<'_>), DecodeError>
    ensures { Gives (λ x. (x.0, spot x.1)) result (bytes_at (spot cursor.entry)) }
{
    let (field, after) = narrow_field_at(cursor)?;
    Ok((Bytes::from_slice(alloc, field.left)?, after))
}

fn is_noted(byte: u8) -> bool
    ensures { result ≡ is_noted byte }
{
    byte.is_ascii_alphanumeric() || matches!(byte, b'_' | b'.' | b'%' | b'@')
}

fn are_noted(bytes: &[u8]) -> bool
    ensures { result ≡ list_all is_noted bytes.now }
{
    bytes.iter().all(|byte| is_noted(*byte))
}

fn is_annotation(bytes: &[u8]) -> bool
    ensures { result ≡ is_annotation bytes.now }
{
    match bytes {
        [] => false,
        [sign, rest @ ..] => {
            matches!(sign, b'@' | b':' | b'%') && are_noted(rest) && rest.len() <= NAME_LIMIT
        }
    }
}

// How many bytes stand before the first space.
#[tactic(auto, using(crate::proofs::Prefixes::prefix_laws))]
fn piece_len(bytes: &[u8]) -> usize
    ensures is { result ≡ prefix_len is_no_space bytes.now }
    ensures within { result ≤ length bytes.now }
{
    bytes.iter().take_while(|byte| **byte != b' ').count()
}

// The piece before the first space, and what stands behind that.
fn cut(bytes: &[u8]) -> (&[u8], Option<&[u8]>)
    ensures pieces { pieces bytes.now ≡ result.0.now ∷ pieces_of (option_map (λ b. b.now) result.1) }
    ensures shorter { IfSome result.1 (λ b. length b.now < length bytes.now) }
{
    let end = piece_len(bytes);
    let (piece, behind) = bytes.split_at(end);
    match behind.split_first() {
        None => (piece, None),
        Some((_, rest)) => (piece, Some(rest)),
    }
}

// The annotations in a field, at least one.
fn annotations_of(alloc: Global, field: Cursor<'_>) -> Result<Texts, DecodeError>
    ensures { Gives (λ x. x) result (annotations_of (spot field.entry)) }
{
    let mut texts = Texts::new(alloc);
    let mut left = Some(field.left);
    while let Some(bytes) = left {
        let (piece, rest) = cut(bytes);
        if !is_annotation(piece) {
            return Err(DecodeError::Fault(DecodeKind::BadString, field.place));
        }
        texts.push(Text::from_slice(alloc, piece)?)?;
        left = rest;
    }
    Ok(texts)
}

#[tactic(auto, unfolding(rules_text::specs::binary::Reading::annotations_at))]
fn annotations_at(alloc: Global, cursor: Cursor<'_>) -> Result<(Texts, Cursor<'_>), DecodeError>
    ensures { Gives (λ x. (x.0, spot x.1)) result (annotations_at (spot cursor.entry)) }
{
    let (field, after) = field_at(cursor)?;
    Ok((annotations_of(alloc, field)?, after))
}

// Annotations, or none.
#[tactic(auto, unfolding(rules_text::specs::binary::Reading::any_annotations_at))]
pub fn any_annotations_at(
    alloc: Global,
    cursor: Cursor<'_>,
) -> Result<(Texts, Cursor<'_>), DecodeError>
    ensures { Gives (λ x. (x.0, spot x.1)) result (any_annotations_at (spot cursor.entry)) }
{
    let (field, after) = field_at(cursor)?;
    match field.left {
        [] => Ok((Texts::new(alloc), after)),
        [_, ..] => Ok((annotations_of(alloc, field)?, after)),
    }
}

/// The annotations of a short application: behind its arguments where its tag says so, else none.
pub fn short_annotations_at(
    alloc: Global,
    annotated: bool,
    cursor: Cursor<'_>,
) -> Result<(Texts, Cursor<'_>), DecodeError>
    ensures { Gives (λ x. (x.0, spot x.1)) result (short_annotations_at annotated (spot cursor.entry)) }
{
    if annotated {
        annotations_at(alloc, cursor)
    } else {
        Ok((Texts::new(alloc), cursor))
    }
}
