// Equality of comparable values and identities.
ghost use Rattle.std.specs.Prelude.{◌≡◌, ◌↔◌, IsTrue};
ghost use Rattle.mich_base.specs.TypeView.{kind};
ghost use Rattle.mich_forms.specs.Spelled.{place_bytes};
ghost use Rattle.mich_term.specs.TicketView.{identity};
ghost use Rattle.mich_term.specs.View.{datum};

use crate::datum::Datum;
use crate::ticket::TicketId;
use mich_base::{Ty, same_type};
use mich_forms::Place;

/// Whether two comparable values are equal; takes no memory.
pub fn same_datum(a: &Datum, b: &Datum) -> bool
    ensures { IsTrue result ↔ (datum a.now ≡ datum b.now) }
{
    match a {
        Datum::Unit => matches!(b, Datum::Unit),
        Datum::None => matches!(b, Datum::None),
        Datum::Bool(x) => match b {
            Datum::Bool(y) => *x == *y,
            _ => false,
        },
        Datum::Number(x) => match b {
            Datum::Number(y) => *x == *y,
            _ => false,
        },
        Datum::Text(x) => match b {
            Datum::Text(y) => x.as_slice() == y.as_slice(),
            _ => false,
        },
        Datum::Bytes(x) => match b {
            Datum::Bytes(y) => x.as_slice() == y.as_slice(),
            _ => false,
        },
        Datum::Some(x) => match b {
            Datum::Some(y) => same_datum(x.get(), y.get()),
            _ => false,
        },
        Datum::Left(x) => match b {
            Datum::Left(y) => same_datum(x.get(), y.get()),
            _ => false,
        },
        Datum::Right(x) => match b {
            Datum::Right(y) => same_datum(x.get(), y.get()),
            _ => false,
        },
        Datum::Pair(x, p) => match b {
            Datum::Pair(y, q) => same_datum(x.get(), y.get()) && same_datum(p.get(), q.get()),
            _ => false,
        },
    }
}

// Whether two places are equal.
fn same_place(a: &Place, b: &Place) -> bool
    ensures { IsTrue result ↔ (place_bytes a.now ≡ place_bytes b.now) }
{
    a == b
}

// Whether two types are equal.
#[tactic(auto, using(mich_base::proofs::ForCallers::kind_faithful))]
fn same_kind(a: &Ty, b: &Ty) -> bool
    ensures { IsTrue result ↔ (kind a.now ≡ kind b.now) }
{
    same_type(a, b)
}

/// Whether two identities of tickets are equal; takes no memory (Octez "Tickets", "JOIN_TICKETS").
pub fn same_id(a: &TicketId, b: &TicketId) -> bool
    ensures { IsTrue result ↔ (identity a.now ≡ identity b.now) }
{
    same_place(&a.issuer, &b.issuer)
        && same_kind(&a.ty, &b.ty)
        && same_datum(&a.content, &b.content)
}
