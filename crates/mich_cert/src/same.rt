// Equality of types.
ghost use Rattle.std.specs.Prelude.{◌≡◌};
ghost use Rattle.rules_code.specs.instructions.Same.{same_kind};
ghost use Rattle.mich_base.specs.TypeView.{kind};

use mich_base::{Ty, same_type};

// Whether two types are one.
pub(crate) fn same_kind(a: &Ty, b: &Ty) -> bool
    ensures { result ≡ same_kind (kind a.now) (kind b.now) }
{
    same_type(a, b)
}
