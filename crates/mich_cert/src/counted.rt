// Instructions with a count.
ghost use Rattle.std.specs.Prelude.{◌≡◌, MatchOption};
ghost use Rattle.rules_data.specs.types.Kind.{pair as kind_of_pair};
ghost use Rattle.mich_base.specs.TypeView.{kind};
ghost use Rattle.mich_cert.specs.Counted.{IsNoPair, digs, dips, drops, dups, gets, is_comb, is_copied, is_part, is_updated, is_with, pairs, updates};
ghost use Rattle.mich_cert.specs.View.{kinds};

use crate::same::same_kind;
use crate::words::same_types;
use mich_base::Ty;
use mich_types::duplicable;

// DROP.
#[tactic(auto, using(crate::proofs::Counts::drops_more, crate::proofs::Counts::drops_none))]
pub(crate) fn drops(n: u32, before: &[Ty], after: &[Ty]) -> bool
    ensures { result ≡ drops n (kinds before.now) (kinds after.now) }
{
    if n == 0 {
        return same_types(before, after);
    }
    match before {
        [_, below @ ..] => drops(n - 1, below, after),
        [] => false,
    }
}

// Whether a type can be copied and is the one below so many.
#[tactic(auto, using(crate::proofs::Counts::copied_more))]
fn is_copied(n: u32, types: &[Ty], ty: &Ty) -> bool
    ensures { result ≡ is_copied n (kinds types.now) (kind ty.now) }
{
    let [top, below @ ..] = types else {
        return false;
    };
    if n == 0 {
        duplicable(top) && same_kind(top, ty)
    } else {
        is_copied(n - 1, below, ty)
    }
}

// DUP of the type below so many.
pub(crate) fn dups(n: u32, before: &[Ty], after: &[Ty]) -> bool
    ensures { result ≡ dups n (kinds before.now) (kinds after.now) }
{
    match after {
        [top, below @ ..] => is_copied(n, before, top) && same_types(before, below),
        [] => false,
    }
}

// Whether a stack is another with a type put below so many.
#[tactic(auto, using(crate::proofs::Counts::with_more, crate::proofs::Counts::with_short))]
fn is_with(n: u32, ty: &Ty, one: &[Ty], other: &[Ty]) -> bool
    ensures { result ≡ is_with n (kind ty.now) (kinds one.now) (kinds other.now) }
{
    let [top, below @ ..] = one else {
        return false;
    };
    if n == 0 {
        return same_kind(top, ty) && same_types(below, other);
    }
    match other {
        [same, rest @ ..] => same_kind(top, same) && is_with(n - 1, ty, below, rest),
        [] => false,
    }
}

// DIG. DUG is the same from the stack after it to the one before.
pub(crate) fn digs(n: u32, before: &[Ty], after: &[Ty]) -> bool
    ensures { result ≡ digs n (kinds before.now) (kinds after.now) }
{
    match after {
        [top, below @ ..] => is_with(n, top, before, below),
        [] => false,
    }
}

// The two parts of a pair.
fn two_parts(ty: &Ty) -> Option<(&Ty, &Ty)>
    ensures { MatchOption result (IsNoPair (kind ty.now)) (λ p. kind ty.now ≡ kind_of_pair (kind p.0.now) (kind p.1.now)) }
{
    match ty {
        Ty::Pair(first, second) => Some((first.get(), second.get())),
        _ => None,
    }
}

// Whether a type is the comb of the first type and the next n, and a stack what is below these.
#[tactic(auto, using(crate::proofs::Counts::comb_step, crate::proofs::Counts::comb_of_other))]
fn is_comb(n: u32, parts: &[Ty], comb: &Ty, rest: &[Ty]) -> bool
    ensures { result ≡ is_comb n (kinds parts.now) (kind comb.now) (kinds rest.now) }
{
    let [part, below @ ..] = parts else {
        return false;
    };
    if n == 0 {
        return same_kind(part, comb) && same_types(below, rest);
    }
    let Some((first, second)) = two_parts(comb) else {
        return false;
    };
    same_kind(part, first) && is_comb(n - 1, below, second, rest)
}

// PAIR of the first type and the next n. UNPAIR is the same from the stack after it to the one before.
pub(crate) fn pairs(n: u32, before: &[Ty], after: &[Ty]) -> bool
    ensures { result ≡ pairs n (kinds before.now) (kinds after.now) }
{
    match after {
        [comb, rest @ ..] => is_comb(n, before, comb, rest),
        [] => false,
    }
}

// Whether a type is the part of a comb with a number.
#[tactic(auto, using(crate::proofs::Counts::first_step, crate::proofs::Counts::part_step, crate::proofs::Counts::part_of_other))]
fn is_part(n: u32, comb: &Ty, part: &Ty) -> bool
    ensures { result ≡ is_part n (kind comb.now) (kind part.now) }
{
    if n == 0 {
        return same_kind(comb, part);
    }
    let Some((first, second)) = two_parts(comb) else {
        return false;
    };
    if n == 1 {
        return same_kind(first, part);
    }
    is_part(n - 2, second, part)
}

// GET with a number.
pub(crate) fn gets(n: u32, before: &[Ty], after: &[Ty]) -> bool
    ensures { result ≡ gets n (kinds before.now) (kinds after.now) }
{
    let [comb, below @ ..] = before else {
        return false;
    };
    match after {
        [part, rest @ ..] => is_part(n, comb, part) && same_types(below, rest),
        [] => false,
    }
}

// Whether a comb is another, with a type as the part with a number.
#[tactic(auto, using(crate::proofs::Counts::first_updated, crate::proofs::Counts::updated_step, crate::proofs::Counts::updated_of_other, crate::proofs::Counts::updated_to_other))]
fn is_updated(n: u32, part: &Ty, comb: &Ty, other: &Ty) -> bool
    ensures { result ≡ is_updated n (kind part.now) (kind comb.now) (kind other.now) }
{
    if n == 0 {
        return same_kind(part, other);
    }
    let Some((first, second)) = two_parts(comb) else {
        return false;
    };
    let Some((new, rest)) = two_parts(other) else {
        return false;
    };
    if n == 1 {
        return same_kind(part, new) && same_kind(second, rest);
    }
    same_kind(first, new) && is_updated(n - 2, part, second, rest)
}

// UPDATE with a number.
pub(crate) fn updates(n: u32, before: &[Ty], after: &[Ty]) -> bool
    ensures { result ≡ updates n (kinds before.now) (kinds after.now) }
{
    let [part, comb, below @ ..] = before else {
        return false;
    };
    match after {
        [new, rest @ ..] => is_updated(n, part, comb, new) && same_types(below, rest),
        [] => false,
    }
}

// Whether DIP's body goes from what is below so many to what is below as many.
#[tactic(auto, using(crate::proofs::Counts::dips_more, crate::proofs::Counts::dips_none, crate::proofs::Counts::dips_short))]
pub(crate) fn dips(n: u32, before: &[Ty], begins: &[Ty], ends: &[Ty], after: &[Ty]) -> bool
    ensures { result ≡ dips n (kinds before.now) (kinds begins.now) (kinds ends.now) (kinds after.now) }
{
    if n == 0 {
        return same_types(before, begins) && same_types(ends, after);
    }
    let [top, below @ ..] = before else {
        return false;
    };
    match after {
        [same, rest @ ..] => same_kind(top, same) && dips(n - 1, below, begins, ends, rest),
        [] => false,
    }
}
