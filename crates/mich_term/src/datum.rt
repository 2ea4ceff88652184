// Comparable values.
ghost use Rattle.std.specs.Prelude.{◌≡◌, IfOk, Some, refl};
ghost use Rattle.std.specs.Ordering.{is_eq};
ghost use Rattle.std.specs.Cmp.{partial_order_from_agreeing_total, partial_equiv_from_equiv, eq_by_cmp_equiv};
ghost use Rattle.std.proofs.lemmas.Cmp.{on_total};
ghost use Rattle.rules_data.specs.values.Order.{order, form as form_place};
ghost use Rattle.laws_data.proofs.values_lemmas.ForCallers.{order_lawful};
ghost use Rattle.mich_term.specs.View.{datum};

use mich_base::{Bytes, Link, Memory, Share, Text};
use std::alloc::Global;
use std::cmp::Ordering;

/// A value of a comparable type: the key of a map, an element of a set, the content of a ticket. Equality and order are
/// those of `compare`.
#[derive(Debug, Drop)]
pub enum Datum {
    Unit,
    Bool(bool),
    /// An integer, natural number, amount of mutez or timestamp.
    Number(i128),
    Text(Text),
    /// Bytes, or a key, key hash, signature, chain id or address by the bytes that spell it.
    Bytes(Bytes),
    None,
    Some(Link<Datum>),
    Left(Link<Datum>),
    Right(Link<Datum>),
    Pair(Link<Datum>, Link<Datum>),
}

/// The order of two comparable values of one type; takes no memory (Michelson reference, "COMPARE").
pub fn compare(a: &Datum, b: &Datum) -> Ordering
    ensures { result ≡ order (datum a.now) (datum b.now) }
{
    match a {
        Datum::Unit => match b {
            Datum::Unit => Ordering::Equal,
            _ => form(a).cmp(&form(b)),
        },
        Datum::Bool(x) => match b {
            Datum::Bool(y) => x.cmp(y),
            _ => form(a).cmp(&form(b)),
        },
        Datum::Number(x) => match b {
            Datum::Number(y) => x.cmp(y),
            _ => form(a).cmp(&form(b)),
        },
        Datum::Text(x) => match b {
            Datum::Text(y) => x.cmp(y),
            _ => form(a).cmp(&form(b)),
        },
        Datum::Bytes(x) => match b {
            Datum::Bytes(y) => x.cmp(y),
            _ => form(a).cmp(&form(b)),
        },
        Datum::None => match b {
            Datum::None => Ordering::Equal,
            _ => form(a).cmp(&form(b)),
        },
        Datum::Some(x) => match b {
            Datum::Some(y) => compare(x.get(), y.get()),
            _ => form(a).cmp(&form(b)),
        },
        Datum::Left(x) => match b {
            Datum::Left(y) => compare(x.get(), y.get()),
            _ => form(a).cmp(&form(b)),
        },
        Datum::Right(x) => match b {
            Datum::Right(y) => compare(x.get(), y.get()),
            _ => form(a).cmp(&form(b)),
        },
        Datum::Pair(x, p) => match b {
            Datum::Pair(y, q) => compare(x.get(), y.get()).then(compare(p.get(), q.get())),
            _ => form(a).cmp(&form(b)),
        },
    }
}

// The place of a value's form among the forms.
fn form(value: &Datum) -> u8
    ensures { result ≡ form_place (datum value.now) }
{
    match value {
        Datum::Unit => 0,
        Datum::Bool(_) => 1,
        Datum::Number(_) => 2,
        Datum::Text(_) => 3,
        Datum::Bytes(_) => 4,
        Datum::None => 5,
        Datum::Some(_) => 6,
        Datum::Left(_) => 7,
        Datum::Right(_) => 8,
        Datum::Pair(_, _) => 9,
    }
}

impl PartialEq for Datum {
    ghost eq = { λ a b. is_eq (order (datum a) (datum b)) };

    ghost laws = { partial_equiv_from_equiv (eq_by_cmp_equiv (on_total datum order_lawful)) };

    fn eq(&self, other: &Datum) -> bool {
        compare(self, other) == Ordering::Equal
    }
}

impl Eq for Datum {
    ghost laws = { eq_by_cmp_equiv (on_total datum order_lawful) };
}

impl PartialOrd for Datum {
    ghost partial_cmp = { λ a b. Some (order (datum a) (datum b)) };

    ghost laws = { partial_order_from_agreeing_total (λ a b. order (datum a) (datum b)) (on_total datum order_lawful) (λ _ _. refl) (λ _ _. refl) };

    fn partial_cmp(&self, other: &Datum) -> Option<Ordering> {
        Some(compare(self, other))
    }
}

impl Ord for Datum {
    ghost cmp = { λ a b. order (datum a) (datum b) };

    ghost total = { on_total datum order_lawful };

    ghost matches_partial_cmp = { λ _ _. refl };

    ghost matches_eq = { λ _ _. refl };

    fn cmp(&self, other: &Datum) -> Ordering {
        compare(self, other)
    }
}

/// An equal value, in constant time. Memory where there is no room for it.
pub fn copy_datum(alloc: Global, value: &Datum) -> Result<Datum, Memory>
    ensures { IfOk result (λ d. d ≡ value.now) }
{
    match value {
        Datum::Unit => Ok(Datum::Unit),
        Datum::Bool(b) => Ok(Datum::Bool(*b)),
        Datum::Number(n) => Ok(Datum::Number(*n)),
        Datum::Text(text) => Ok(Datum::Text(text.copy(alloc)?)),
        Datum::Bytes(bytes) => Ok(Datum::Bytes(bytes.copy(alloc)?)),
        Datum::None => Ok(Datum::None),
        Datum::Some(x) => Ok(Datum::Some(x.share()?)),
        Datum::Left(x) => Ok(Datum::Left(x.share()?)),
        Datum::Right(x) => Ok(Datum::Right(x.share()?)),
        Datum::Pair(x, y) => {
            let first = x.share()?;
            let second = y.share()?;
            Ok(Datum::Pair(first, second))
        }
    }
}

impl Share for Datum {
    fn share(&self, alloc: Global) -> Result<Datum, Memory> {
        copy_datum(alloc, self)
    }
}
