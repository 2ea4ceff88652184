// The levels of types as nodes.
ghost use Rattle.std.specs.Prelude.{◌≡◌, nat_le};
ghost use Rattle.rules_text.specs.nodes.Tree.{depth};
ghost use Rattle.rules_data.specs.types.Printing.{node_of};
ghost use Rattle.rules_code.specs.certificates.Certificates.{is_flat};
ghost use Rattle.mich_base.specs.TypeView.{kind};
ghost use Rattle.mich_overload.specs.View.{kinds};
ghost use Rattle.mich_cert.specs.telling.Tops.{tops_are_flat};

use mich_base::Ty;
use mich_overload::split_top;

// The levels that a type may have.
const TYPE_LEVELS: u32 = 990;

// Whether a type has at most so many levels as a node.
fn levels_within(ty: &Ty, levels: u32) -> bool
    ensures { result ≡ nat_le (depth (node_of (kind ty.now))) levels }
{
    if levels == 0 {
        return false;
    }
    match ty {
        Ty::Option(a) | Ty::List(a) | Ty::Set(a) | Ty::Contract(a) | Ty::Ticket(a) => {
            levels_within(a.get(), levels - 1)
        }
        Ty::Or(a, b) | Ty::Pair(a, b) | Ty::Map(a, b) | Ty::BigMap(a, b) | Ty::Lambda(a, b) => {
            levels_within(a.get(), levels - 1) && levels_within(b.get(), levels - 1)
        }
        _ => true,
    }
}

fn is_flat(ty: &Ty) -> bool
    ensures { result ≡ is_flat (kind ty.now) }
{
    levels_within(ty, TYPE_LEVELS)
}

// Whether neither of the two types on top of a stack has too many levels.
pub(crate) fn tops_are_flat(types: &[Ty]) -> bool
    ensures { result ≡ tops_are_flat (kinds types.now) }
{
    let Some((first, rest)) = split_top(types) else {
        return true;
    };
    match split_top(rest) {
        Some((second, _)) => is_flat(first) && is_flat(second),
        None => is_flat(first),
    }
}
