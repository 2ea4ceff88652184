// The entries of a certificate.
ghost use Rattle.std.specs.Prelude.{◌≡◌, true};
ghost use Rattle.std.specs.List.{list_all};
ghost use Rattle.rules_code.specs.typing.Scripts.{is_small};
ghost use Rattle.mich_cert.specs.View.{kinds};

use mich_base::{Rows, Ty};

// The types of a stack, whose first type is on top, each within the limit of types.
#[derive(Debug, Drop)]
pub(crate) struct Stack {
    pub(crate) types: Rows<Ty>,
    ghost small: { list_all is_small (kinds types) ≡ true },
}

// The stack before an instruction, or at the end of a block; or that a block fails.
#[derive(Debug, Drop)]
pub(crate) enum Entry {
    At(u32, Stack),
    End(u32, Stack),
    Fails(u32),
}
