// Parts of types.
ghost use Rattle.std.specs.Prelude.{◌≡◌};
ghost use Rattle.mich_base.specs.TypeView.{kind};
ghost use Rattle.mich_bigmap.specs.Shared.{entry, first, inner, names_big_map, second, shares};

use mich_base::Ty;
use mich_types::duplicable;

// The type of what is in an option or a list. Other types are their own.
pub(crate) fn inner(ty: &Ty) -> &Ty
    ensures { kind result.now ≡ inner (kind ty.now) }
{
    match ty {
        Ty::Option(a) | Ty::List(a) => a.get(),
        _ => ty,
    }
}

// The type of the left half of a union or a pair.
pub(crate) fn first(ty: &Ty) -> &Ty
    ensures { kind result.now ≡ first (kind ty.now) }
{
    match ty {
        Ty::Or(a, _) | Ty::Pair(a, _) => a.get(),
        _ => ty,
    }
}

// The type of the right half.
pub(crate) fn second(ty: &Ty) -> &Ty
    ensures { kind result.now ≡ second (kind ty.now) }
{
    match ty {
        Ty::Or(_, b) | Ty::Pair(_, b) => b.get(),
        _ => ty,
    }
}

// The type of the values of a map.
pub(crate) fn entry(ty: &Ty) -> &Ty
    ensures { kind result.now ≡ entry (kind ty.now) }
{
    match ty {
        Ty::Map(_, b) => b.get(),
        _ => ty,
    }
}

// Whether a type is one of big maps with values that can be duplicated.
pub(crate) fn shares(ty: &Ty) -> bool
    ensures { result ≡ shares (kind ty.now) }
{
    match ty {
        Ty::BigMap(_, b) => duplicable(b.get()),
        _ => false,
    }
}

// Whether values of a type may hold a big map.
pub(crate) fn names_big_map(ty: &Ty) -> bool
    ensures { result ≡ names_big_map (kind ty.now) }
{
    match ty {
        Ty::BigMap(_, _) => true,
        Ty::Option(a) | Ty::List(a) | Ty::Map(_, a) => names_big_map(a.get()),
        Ty::Or(a, b) | Ty::Pair(a, b) => names_big_map(a.get()) || names_big_map(b.get()),
        _ => false,
    }
}
