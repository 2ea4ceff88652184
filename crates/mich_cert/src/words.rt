// The words that lines of the table are made of, and whether types are as they say.
ghost use Rattle.std.specs.Prelude.{◌≡◌, option_map};
ghost use Rattle.rules_code.specs.instructions.Same.{same_kinds};
ghost use Rattle.mich_base.specs.TypeView.{kind};
ghost use Rattle.mich_cert.specs.Words.{agrees, alone, if_known, if_met, is_plain, line, meet, meets, met, met_known, with_a, with_b, with_c};
ghost use Rattle.mich_cert.specs.View.{kinds, known_kinds, left_of, met_of};

use crate::same::same_kind;
use mich_base::Ty;
use mich_types::{comparable, duplicable, packable, pushable};

// A word of a line: a type that the line leaves open, which is one type each time, and may have to have an attribute; or what
// makes a type, of as many types as follow.
#[derive(Clone, Copy, Debug)]
pub(crate) enum Word {
    A,
    B,
    C,
    ComparableA,
    PushableA,
    PackableA,
    DuplicableB,
    Unit,
    Never,
    Bool,
    Int,
    Nat,
    String,
    Bytes,
    Mutez,
    Timestamp,
    Key,
    KeyHash,
    ChainId,
    Address,
    Operation,
    Option,
    List,
    Set,
    Contract,
    Ticket,
    Or,
    Pair,
    Map,
    BigMap,
    Lambda,
}

// What is known of the types that a line leaves open.
#[derive(Clone, Copy, Debug)]
pub(crate) struct Known<'a> {
    pub(crate) a: Option<&'a Ty>,
    pub(crate) b: Option<&'a Ty>,
    pub(crate) c: Option<&'a Ty>,
}

// Whether a type is that one, where that is known.
fn agrees(known: Option<&Ty>, ty: &Ty) -> bool
    ensures { result ≡ agrees (option_map (λ t. kind t.now) known.entry) (kind ty.now) }
{
    match known {
        Some(other) => same_kind(other, ty),
        None => true,
    }
}

fn known_a<'a>(ty: &'a Ty, known: Known<'a>) -> Option<Known<'a>>
    ensures { option_map known_kinds result ≡ with_a (kind ty.now) (known_kinds known.entry) }
{
    if agrees(known.a, ty) {
        Some(Known {
            a: Some(ty),
            ..known
        })
    } else {
        None
    }
}

fn known_b<'a>(ty: &'a Ty, known: Known<'a>) -> Option<Known<'a>>
    ensures { option_map known_kinds result ≡ with_b (kind ty.now) (known_kinds known.entry) }
{
    if agrees(known.b, ty) {
        Some(Known {
            b: Some(ty),
            ..known
        })
    } else {
        None
    }
}

fn known_c<'a>(ty: &'a Ty, known: Known<'a>) -> Option<Known<'a>>
    ensures { option_map known_kinds result ≡ with_c (kind ty.now) (known_kinds known.entry) }
{
    if agrees(known.c, ty) {
        Some(Known {
            c: Some(ty),
            ..known
        })
    } else {
        None
    }
}

// The words behind those of a type, and what is known then.
#[derive(Clone, Copy)]
pub(crate) struct Met<'w, 'a> {
    pub(crate) words: &'w [Word],
    pub(crate) known: Known<'a>,
}

// What is left of a stack behind words, and what is known then.
#[derive(Clone, Copy)]
pub(crate) struct Left<'a> {
    pub(crate) known: Known<'a>,
    pub(crate) below: &'a [Ty],
}

// The words behind those of a type where the type has what they ask.
fn plain_word<'w, 'a>(words: &'w [Word], fits: bool, known: Known<'a>) -> Option<Met<'w, 'a>>
    ensures { option_map met_of result ≡ if_met fits (met words.now (known_kinds known.entry)) }
{
    if fits {
        Some(Met { words, known })
    } else {
        None
    }
}

fn open_word<'w, 'a>(words: &'w [Word], fits: bool, known: Option<Known<'a>>) -> Option<Met<'w, 'a>>
    ensures { option_map met_of result ≡ met_known words.now (if_known fits (option_map known_kinds known.entry)) }
{
    if !fits {
        return None;
    }
    let known = known?;
    Some(Met { words, known })
}

// Whether a type is the one without parts of a word.
fn is_plain(word: Word, ty: &Ty) -> bool
    ensures { result ≡ is_plain word (kind ty.now) }
{
    match word {
        Word::Unit => matches!(ty, Ty::Unit),
        Word::Never => matches!(ty, Ty::Never),
        Word::Bool => matches!(ty, Ty::Bool),
        Word::Int => matches!(ty, Ty::Int),
        Word::Nat => matches!(ty, Ty::Nat),
        Word::String => matches!(ty, Ty::String),
        Word::Bytes => matches!(ty, Ty::Bytes),
        Word::Mutez => matches!(ty, Ty::Mutez),
        Word::Timestamp => matches!(ty, Ty::Timestamp),
        Word::Key => matches!(ty, Ty::Key),
        Word::KeyHash => matches!(ty, Ty::KeyHash),
        Word::ChainId => matches!(ty, Ty::ChainId),
        Word::Address => matches!(ty, Ty::Address),
        Word::Operation => matches!(ty, Ty::Operation),
        _ => false,
    }
}

// Whether a type is as one word says.
fn alone<'w, 'a>(word: Word, rest: &'w [Word], ty: &'a Ty, known: Known<'a>) -> Option<Met<'w, 'a>>
    ensures { option_map met_of result ≡ alone word rest.now (kind ty.now) (known_kinds known.entry) }
{
    match word {
        Word::A => open_word(rest, true, known_a(ty, known)),
        Word::B => open_word(rest, true, known_b(ty, known)),
        Word::C => open_word(rest, true, known_c(ty, known)),
        Word::ComparableA => open_word(rest, comparable(ty), known_a(ty, known)),
        Word::PushableA => open_word(rest, pushable(ty), known_a(ty, known)),
        Word::PackableA => open_word(rest, packable(ty), known_a(ty, known)),
        Word::DuplicableB => open_word(rest, duplicable(ty), known_b(ty, known)),
        _ => plain_word(rest, is_plain(word, ty), known),
    }
}

// Whether a type begins as the words say.
fn meet<'w, 'a>(words: &'w [Word], ty: &'a Ty, known: Known<'a>) -> Option<Met<'w, 'a>>
    ensures { option_map met_of result ≡ meet words.now (kind ty.now) (known_kinds known.entry) }
{
    let [word, rest @ ..] = words else {
        return None;
    };
    match word {
        Word::Option => match ty {
            Ty::Option(part) => meet(rest, part.get(), known),
            _ => None,
        },
        Word::List => match ty {
            Ty::List(part) => meet(rest, part.get(), known),
            _ => None,
        },
        Word::Set => match ty {
            Ty::Set(part) => meet(rest, part.get(), known),
            _ => None,
        },
        Word::Contract => match ty {
            Ty::Contract(part) => meet(rest, part.get(), known),
            _ => None,
        },
        Word::Ticket => match ty {
            Ty::Ticket(part) => meet(rest, part.get(), known),
            _ => None,
        },
        Word::Or => match ty {
            Ty::Or(first, second) => {
                let behind = meet(rest, first.get(), known)?;
                meet(behind.words, second.get(), behind.known)
            }
            _ => None,
        },
        Word::Pair => match ty {
            Ty::Pair(first, second) => {
                let behind = meet(rest, first.get(), known)?;
                meet(behind.words, second.get(), behind.known)
            }
            _ => None,
        },
        Word::Map => match ty {
            Ty::Map(first, second) => {
                let behind = meet(rest, first.get(), known)?;
                meet(behind.words, second.get(), behind.known)
            }
            _ => None,
        },
        Word::BigMap => match ty {
            Ty::BigMap(first, second) => {
                let behind = meet(rest, first.get(), known)?;
                meet(behind.words, second.get(), behind.known)
            }
            _ => None,
        },
        Word::Lambda => match ty {
            Ty::Lambda(first, second) => {
                let behind = meet(rest, first.get(), known)?;
                meet(behind.words, second.get(), behind.known)
            }
            _ => None,
        },
        _ => alone(*word, rest, ty, known),
    }
}

// What is left of a stack that begins as the words say.
pub(crate) fn meets<'a>(words: &[Word], types: &'a [Ty], known: Known<'a>) -> Option<Left<'a>>
    ensures { option_map left_of result ≡ meets words.now (kinds types.now) (known_kinds known.entry) }
{
    if words.is_empty() {
        return Some(Left {
            known,
            below: types,
        });
    }
    let [ty, below @ ..] = types else {
        return None;
    };
    let behind = meet(words, ty, known)?;
    meets(behind.words, below, behind.known)
}

// Whether two stacks are one.
#[tactic(auto, using(crate::proofs::SameTypes::types_at, crate::proofs::SameTypes::types_end))]
pub(crate) fn same_types(one: &[Ty], other: &[Ty]) -> bool
    ensures { result ≡ same_kinds (kinds one.now) (kinds other.now) }
{
    let mut rest = other;
    for ty in one {
        let [same, below @ ..] = rest else {
            return false;
        };
        if !same_kind(ty, same) {
            return false;
        }
        rest = below;
    }
    rest.is_empty()
}

// Whether two stacks are as a line says: the first begins with the one row of words and the second with the other, where each
// open type is one type in both, and below the two are the same.
pub(crate) fn line(
    words: &[Word],
    others: &[Word],
    known: Known<'_>,
    before: &[Ty],
    after: &[Ty],
) -> bool
    ensures { result ≡ line words.now others.now (known_kinds known.entry) (kinds before.now) (kinds after.now) }
{
    let Some(left) = meets(words, before, known) else {
        return false;
    };
    match meets(others, after, left.known) {
        Some(other) => same_types(left.below, other.below),
        None => false,
    }
}
