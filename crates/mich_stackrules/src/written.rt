// Instructions as they are written, before the stack chooses their rules.
ghost use Rattle.std.specs.Prelude.{◌≡◌};
ghost use Rattle.mich_base.specs.TypeView.{kind};
ghost use Rattle.mich_overload.specs.View.{straight};
ghost use Rattle.mich_outline.specs.Attributes.{asked};
ghost use Rattle.mich_stackrules.specs.View.{asked_of_type, least, most, of_count, of_type};

use mich_base::{COUNT_LIMIT, PART_LIMIT, Text, Ty};
use mich_outline::Attribute;
use mich_overload::{CollectionRow, HashRow, Op, PairRow, Simple, StackRow, UnionRow};

// One rule, or several of which the types on the stack choose.
#[derive(Debug, Drop)]
pub(crate) enum Written {
    Row(Simple),
    Overloaded(Op),
    Emit(Text),
    View(Text, Ty),
    Ticket,
}

// The instructions with one type.
#[derive(Clone, Copy)]
pub(crate) enum OfType {
    Cast,
    Left,
    Right,
    None,
    Nil,
    EmptySet,
    Unpack,
}

// What the type of an instruction must be.
pub(crate) fn attribute_for(row: OfType) -> Attribute
    ensures { asked result ≡ asked_of_type row }
{
    match row {
        OfType::Cast | OfType::Left | OfType::Right | OfType::None | OfType::Nil => Attribute::Any,
        OfType::EmptySet => Attribute::Comparable,
        OfType::Unpack => Attribute::Pushable,
    }
}

pub(crate) fn with_type(row: OfType, ty: Ty) -> Simple
    ensures { straight result ≡ of_type row (kind ty) }
{
    match row {
        OfType::Cast => Simple::Stack(StackRow::Cast(ty)),
        OfType::Left => Simple::Unions(UnionRow::Left(ty)),
        OfType::Right => Simple::Unions(UnionRow::Right(ty)),
        OfType::None => Simple::Unions(UnionRow::None(ty)),
        OfType::Nil => Simple::Unions(UnionRow::Nil(ty)),
        OfType::EmptySet => Simple::Collections(CollectionRow::EmptySet(ty)),
        OfType::Unpack => Simple::Hashes(HashRow::Unpack(ty)),
    }
}

/// The instructions without bodies that have a count.
#[derive(Clone, Copy, Debug)]
pub enum OfCount {
    Drop,
    Dup,
    Dig,
    Dug,
    Pair,
    Unpair,
    GetPart,
    UpdatePart,
}

// The least that a count may be.
pub(crate) fn least(row: OfCount) -> u32
    ensures { result ≡ least row }
{
    match row {
        OfCount::Pair | OfCount::Unpair => 2,
        OfCount::Dup => 1,
        _ => 0,
    }
}

// The most that a count may be.
pub(crate) fn most(row: OfCount) -> u32
    ensures { result ≡ most row }
{
    match row {
        OfCount::GetPart | OfCount::UpdatePart => PART_LIMIT,
        _ => COUNT_LIMIT,
    }
}

pub(crate) fn with_count(row: OfCount, count: u32) -> Simple
    ensures { straight result ≡ of_count row count }
{
    match row {
        OfCount::Drop => Simple::Stack(StackRow::Drop(count)),
        OfCount::Dup => Simple::Stack(StackRow::Dup(count)),
        OfCount::Dig => Simple::Stack(StackRow::Dig(count)),
        OfCount::Dug => Simple::Stack(StackRow::Dug(count)),
        OfCount::Pair => Simple::Pairs(PairRow::Pair(count)),
        OfCount::Unpair => Simple::Pairs(PairRow::Unpair(count)),
        OfCount::GetPart => Simple::Pairs(PairRow::GetPart(count)),
        OfCount::UpdatePart => Simple::Pairs(PairRow::UpdatePart(count)),
    }
}
