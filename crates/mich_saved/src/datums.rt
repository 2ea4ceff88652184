// Values of comparable types.
ghost use Rattle.std.specs.Prelude.{◌≡◌, true};
ghost use Rattle.rules_data.specs.types.Attributes.{comparable};
ghost use Rattle.rules_files.specs.snapshots.Reading.{both_at, bytes_at, number_value_at, option_at, or_at, text_at, truth_at, value_at};
ghost use Rattle.mich_base.specs.TypeView.{kind};
ghost use Rattle.mich_term.specs.View.{datum};
ghost use Rattle.mich_saved.specs.Results.{Gives, spot};

use crate::cursor::Cursor;
use crate::errors::LoadError;
use crate::fields::{field_at, mark_at, signed_sixteen_at};
use mich_base::{Bytes, Link, Text, Ty};
use mich_term::Datum;
use std::alloc::Global;

fn number_at(cursor: Cursor<'_>) -> Result<(Datum, Cursor<'_>), LoadError>
    ensures { Gives (λ x. (datum x.0, spot x.1)) result (number_value_at (spot cursor.entry)) }
{
    let (number, after) = signed_sixteen_at(cursor)?;
    Ok((Datum::Number(number), after))
}

fn text_at(alloc: Global, cursor: Cursor<'_>) -> Result<(Datum, Cursor<'_>), LoadError>
    ensures { Gives (λ x. (datum x.0, spot x.1)) result (text_at (spot cursor.entry)) }
{
    let (bytes, after) = field_at(cursor)?;
    Ok((Datum::Text(Text::from_slice(alloc, bytes)?), after))
}

fn bytes_at(alloc: Global, cursor: Cursor<'_>) -> Result<(Datum, Cursor<'_>), LoadError>
    ensures { Gives (λ x. (datum x.0, spot x.1)) result (bytes_at (spot cursor.entry)) }
{
    let (bytes, after) = field_at(cursor)?;
    Ok((Datum::Bytes(Bytes::from_slice(alloc, bytes)?), after))
}

fn truth_at(cursor: Cursor<'_>) -> Result<(Datum, Cursor<'_>), LoadError>
    ensures { Gives (λ x. (datum x.0, spot x.1)) result (truth_at (spot cursor.entry)) }
{
    let (truth, after) = mark_at(cursor)?;
    Ok((Datum::Bool(truth), after))
}

/// A value of a comparable type; it recurses no deeper than the type.
#[cycle(datum)]
pub fn datum_at<'a>(
    alloc: Global,
    ty: &Ty,
    cursor: Cursor<'a>,
) -> Result<(Datum, Cursor<'a>), LoadError>
    requires { comparable (kind ty.now) ≡ true }
    ensures { Gives (λ x. (datum x.0, spot x.1)) result (value_at (kind ty.now) (spot cursor.entry)) }
{
    match ty {
        Ty::Unit => Ok((Datum::Unit, cursor)),
        Ty::Bool => truth_at(cursor),
        Ty::Int | Ty::Nat | Ty::Mutez | Ty::Timestamp => number_at(cursor),
        Ty::String => text_at(alloc, cursor),
        Ty::Bytes | Ty::Key | Ty::KeyHash | Ty::Signature | Ty::ChainId | Ty::Address => {
            bytes_at(alloc, cursor)
        }
        Ty::Option(part) => option_at(alloc, part.get(), cursor),
        Ty::Or(left, right) => or_at(alloc, left.get(), right.get(), cursor),
        Ty::Pair(first, second) => pair_at(alloc, first.get(), second.get(), cursor),
        _ => Err(LoadError::BadForm(cursor.place)),
    }
}

#[cycle(datum)]
fn option_at<'a>(
    alloc: Global,
    part: &Ty,
    cursor: Cursor<'a>,
) -> Result<(Datum, Cursor<'a>), LoadError>
    requires { comparable (kind part.now) ≡ true }
    ensures { Gives (λ x. (datum x.0, spot x.1)) result (option_at (value_at (kind part.now)) (spot cursor.entry)) }
{
    let (some, after) = mark_at(cursor)?;
    if !some {
        return Ok((Datum::None, after));
    }
    let (value, after) = datum_at(alloc, part, after)?;
    Ok((Datum::Some(Link::new(alloc, value)?), after))
}

#[cycle(datum)]
fn or_at<'a>(
    alloc: Global,
    left: &Ty,
    right: &Ty,
    cursor: Cursor<'a>,
) -> Result<(Datum, Cursor<'a>), LoadError>
    requires left { comparable (kind left.now) ≡ true }
    requires right { comparable (kind right.now) ≡ true }
    ensures { Gives (λ x. (datum x.0, spot x.1)) result (or_at (value_at (kind left.now)) (value_at (kind right.now)) (spot cursor.entry)) }
{
    let (is_right, after) = mark_at(cursor)?;
    if is_right {
        let (value, after) = datum_at(alloc, right, after)?;
        Ok((Datum::Right(Link::new(alloc, value)?), after))
    } else {
        let (value, after) = datum_at(alloc, left, after)?;
        Ok((Datum::Left(Link::new(alloc, value)?), after))
    }
}

#[cycle(datum)]
fn pair_at<'a>(
    alloc: Global,
    first: &Ty,
    second: &Ty,
    cursor: Cursor<'a>,
) -> Result<(Datum, Cursor<'a>), LoadError>
    requires first { comparable (kind first.now) ≡ true }
    requires second { comparable (kind second.now) ≡ true }
    ensures { Gives (λ x. (datum x.0, spot x.1)) result
        (both_at (value_at (kind first.now)) (value_at (kind second.now)) (spot cursor.entry)) }
{
    let (head, after) = datum_at(alloc, first, cursor)?;
    let (last, after) = datum_at(alloc, second, after)?;
    let head = Link::new(alloc, head)?;
    Ok((Datum::Pair(head, Link::new(alloc, last)?), after))
}
