// PUSH.
ghost use Rattle.std.specs.Prelude.{◌≡◌, ◌∷◌, IfOk};
ghost use Rattle.rules_code.specs.typing.Typing.{goes};
ghost use Rattle.mich_base.specs.TypeView.{kind};
ghost use Rattle.mich_base.specs.View.{tree};
ghost use Rattle.mich_overload.specs.View.{kinds};
ghost use Rattle.mich_instr.specs.Code as made;
ghost use Rattle.mich_instr.specs.Plain.{bare};
ghost use Rattle.mich_instr.specs.View.{code, codes};
ghost use Rattle.mich_control.specs.Answers.{typing};

use crate::plain::bare_node;
use crate::stacks::push_type;
use mich_base::{Memory, Node, Rows, Ty, copy_node, copy_type};
use mich_instr::Instr;
use mich_typed::Made;
use std::alloc::Global;

/// PUSH with its type and the lambdas in its literal, where that has no fault. Memory where there is no room for it.
pub fn push_made(
    alloc: Global,
    ty: Ty,
    written: &Node,
    literal: &Node,
    lambdas: Rows<Instr>,
    types: Rows<Ty>,
) -> Result<Made, Memory>
    ensures after { IfOk result (λ m. typing m.after ≡ goes (kind ty ∷ kinds types)) }
    ensures code { IfOk result (λ m. code m.instr ≡ made.push (kind ty) (bare (tree written.now)) (tree literal.now) (codes lambdas)) }
{
    let written = bare_node(alloc, written)?;
    let literal = copy_node(alloc, literal)?;
    let mut after = types;
    push_type(&mut after, copy_type(alloc, &ty)?)?;
    Ok(Made {
        instr: Instr::Push {
            ty,
            written,
            literal,
            lambdas,
        },
        after: Some(after),
    })
}
