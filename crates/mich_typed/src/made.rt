// What the check makes.
ghost use Rattle.std.specs.Prelude.{◌≡◌, None, IfOk};
ghost use Rattle.mich_instr.specs.Code.{failwith};
ghost use Rattle.mich_base.specs.TypeView.{kind};
ghost use Rattle.mich_instr.specs.View.{code};

use mich_base::{Memory, Rows, Ty, copy_type};
use mich_instr::{Block, Instr};
use std::alloc::Global;

/// A typed instruction, and the stack after it; none where it fails.
#[derive(Drop)]
pub struct Made {
    pub instr: Instr,
    pub after: Option<Rows<Ty>>,
}

/// The typed code of a block, and the stack after it; none where it fails.
#[derive(Drop)]
pub struct Body {
    pub code: Block,
    pub after: Option<Rows<Ty>>,
}

impl Made {
    /// FAILWITH with the type of what it shows: no stack comes after it, so that nothing may stand behind it (Michelson reference,
    /// FAILWITH). Memory where there is no room for the type.
    pub fn failwith(alloc: Global, shown: &Ty) -> Result<Made, Memory>
        ensures instr { IfOk result (λ m. code m.instr ≡ failwith (kind shown.now)) }
        ensures after { IfOk result (λ m. m.after ≡ None) }
    {
        Ok(Made {
            instr: Instr::Failwith(copy_type(alloc, shown)?),
            after: None,
        })
    }
}
