// Equality and order of the identities of tickets.
ghost use Rattle.std.specs.Prelude.{◌≡◌, Some, refl};
ghost use Rattle.std.specs.Ordering.{is_eq};
ghost use Rattle.std.specs.Cmp.{partial_order_from_agreeing_total, partial_equiv_from_equiv, eq_by_cmp_equiv};
ghost use Rattle.std.proofs.lemmas.Cmp.{on_total};
ghost use Rattle.mich_base.specs.TypeView.{kind};
ghost use Rattle.mich_term.specs.IdentityOrder.{kind_place, kind_order, identity_order, identity_lawful};
ghost use Rattle.mich_term.specs.TicketView.{identity};

use crate::ticket::TicketId;
use mich_base::Ty;
use std::cmp::Ordering;

// The place of a type's form among the forms.
fn place(ty: &Ty) -> u8
    ensures { result ≡ kind_place (kind ty.now) }
{
    match ty {
        Ty::Unit => 0,
        Ty::Never => 1,
        Ty::Bool => 2,
        Ty::Int => 3,
        Ty::Nat => 4,
        Ty::String => 5,
        Ty::Bytes => 6,
        Ty::Mutez => 7,
        Ty::Timestamp => 8,
        Ty::Key => 9,
        Ty::KeyHash => 10,
        Ty::Signature => 11,
        Ty::ChainId => 12,
        Ty::Address => 13,
        Ty::Operation => 14,
        Ty::Option(_) => 15,
        Ty::Or(_, _) => 16,
        Ty::Pair(_, _) => 17,
        Ty::List(_) => 18,
        Ty::Set(_) => 19,
        Ty::Map(_, _) => 20,
        Ty::BigMap(_, _) => 21,
        Ty::Lambda(_, _) => 22,
        Ty::Contract(_) => 23,
        Ty::Ticket(_) => 24,
    }
}

// The order of two types: by the places of their forms, then by their parts.
fn compare_types(a: &Ty, b: &Ty) -> Ordering
    ensures { result ≡ kind_order (kind a.now) (kind b.now) }
{
    match a {
        Ty::Option(x) => match b {
            Ty::Option(y) => compare_types(x.get(), y.get()),
            _ => place(a).cmp(&place(b)),
        },
        Ty::Or(x, p) => match b {
            Ty::Or(y, q) => compare_types(x.get(), y.get()).then(compare_types(p.get(), q.get())),
            _ => place(a).cmp(&place(b)),
        },
        Ty::Pair(x, p) => match b {
            Ty::Pair(y, q) => compare_types(x.get(), y.get()).then(compare_types(p.get(), q.get())),
            _ => place(a).cmp(&place(b)),
        },
        Ty::List(x) => match b {
            Ty::List(y) => compare_types(x.get(), y.get()),
            _ => place(a).cmp(&place(b)),
        },
        Ty::Set(x) => match b {
            Ty::Set(y) => compare_types(x.get(), y.get()),
            _ => place(a).cmp(&place(b)),
        },
        Ty::Map(x, p) => match b {
            Ty::Map(y, q) => compare_types(x.get(), y.get()).then(compare_types(p.get(), q.get())),
            _ => place(a).cmp(&place(b)),
        },
        Ty::BigMap(x, p) => match b {
            Ty::BigMap(y, q) => {
                compare_types(x.get(), y.get()).then(compare_types(p.get(), q.get()))
            }
            _ => place(a).cmp(&place(b)),
        },
        Ty::Lambda(x, p) => match b {
            Ty::Lambda(y, q) => {
                compare_types(x.get(), y.get()).then(compare_types(p.get(), q.get()))
            }
            _ => place(a).cmp(&place(b)),
        },
        Ty::Contract(x) => match b {
            Ty::Contract(y) => compare_types(x.get(), y.get()),
            _ => place(a).cmp(&place(b)),
        },
        Ty::Ticket(x) => match b {
            Ty::Ticket(y) => compare_types(x.get(), y.get()),
            _ => place(a).cmp(&place(b)),
        },
        _ => place(a).cmp(&place(b)),
    }
}

impl PartialEq for TicketId {
    ghost eq = { λ a b. is_eq (identity_order (identity a) (identity b)) };

    ghost laws = { partial_equiv_from_equiv (eq_by_cmp_equiv (on_total identity identity_lawful)) };

    fn eq(&self, other: &TicketId) -> bool {
        self.cmp(other) == Ordering::Equal
    }
}

impl Eq for TicketId {
    ghost laws = { eq_by_cmp_equiv (on_total identity identity_lawful) };
}

impl PartialOrd for TicketId {
    ghost partial_cmp = { λ a b. Some (identity_order (identity a) (identity b)) };

    ghost laws = { partial_order_from_agreeing_total (λ a b. identity_order (identity a) (identity b)) (on_total identity identity_lawful) (λ _ _. refl) (λ _ _. refl) };

    fn partial_cmp(&self, other: &TicketId) -> Option<Ordering> {
        Some(self.cmp(other))
    }
}

impl Ord for TicketId {
    ghost cmp = { λ a b. identity_order (identity a) (identity b) };

    ghost total = { on_total identity identity_lawful };

    ghost matches_partial_cmp = { λ _ _. refl };

    ghost matches_eq = { λ _ _. refl };

    fn cmp(&self, other: &TicketId) -> Ordering {
        self.issuer
            .cmp(&other.issuer)
            .then(compare_types(&self.ty, &other.ty))
            .then(self.content.cmp(&other.content))
    }
}
