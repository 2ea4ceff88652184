// The limit of types.
ghost use Rattle.std.specs.Prelude.{◌≡◌};
ghost use Rattle.rules_code.specs.typing.Scripts.{is_small};
ghost use Rattle.rules_data.specs.types.Kind.{list, nodes, operation, pair};
ghost use Rattle.mich_base.specs.TypeView.{kind};
ghost use Rattle.mich_base.specs.Walk.{room_left};

use mich_base::{TYPE_LIMIT, Ty};

// What a type leaves of the room for nodes, if it fits there.
fn room_after(ty: &Ty, room: u32) -> Option<u32>
    ensures { result ≡ room_left (nodes (kind ty.now)) room }
{
    let room = room.checked_sub(1)?;
    match ty {
        Ty::Option(a) | Ty::List(a) | Ty::Set(a) | Ty::Contract(a) | Ty::Ticket(a) => {
            room_after(a.get(), room)
        }
        Ty::Or(a, b) | Ty::Pair(a, b) | Ty::Map(a, b) | Ty::BigMap(a, b) | Ty::Lambda(a, b) => {
            room_after(b.get(), room_after(a.get(), room)?)
        }
        _ => Some(room),
    }
}

// Whether the pair of two types is within the limit.
pub(crate) fn is_pair_small(first: &Ty, second: &Ty) -> bool
    ensures { result ≡ is_small (pair (kind first.now) (kind second.now)) }
{
    match room_after(first, TYPE_LIMIT - 1) {
        Some(room) => room_after(second, room).is_some(),
        None => false,
    }
}

// Whether the pair of operations and a storage is within the limit.
pub(crate) fn is_outcome_small(storage: &Ty) -> bool
    ensures { result ≡ is_small (pair (list operation) (kind storage.now)) }
{
    room_after(storage, TYPE_LIMIT - 3).is_some()
}
