// Bytes as values.
ghost use Rattle.std.specs.Prelude.{◌≡◌, ◌<◌, ◌^◌, true, length, IfOk, IfSome, option_map};
ghost use Rattle.rules_text.specs.nodes.Tree.{size};
ghost use Rattle.rules_text.specs.binary.Reading.{decoded};
ghost use Rattle.rules_data.specs.types.Attributes.{pushable};
ghost use Rattle.rules_data.specs.values.Literals.{read as read_literal};
ghost use Rattle.rules_code.specs.typing.Literals.{fault_of_bodies};
ghost use Rattle.mich_base.specs.TypeView.{kind};
ghost use Rattle.mich_base.specs.View.{tree};
ghost use Rattle.mich_data.specs.View.{all_pending};
ghost use Rattle.mich_data.specs.Whole.{IsWhole};
ghost use Rattle.mich_check.specs.Pending.{HasValue};
ghost use Rattle.mich_term.specs.ValueView.{val};
ghost use Rattle.mich_literals.specs.unpacking.Pending.{AreBodies, unless};
ghost use Rattle.mich_literals.specs.unpacking.Unpacked.{IsDecoded, IsTried, IsUnpacked};

use crate::unpacking::trying::typed_bodies;
use mich_base::{Memory, Node, Rows, Shared, Ty};
use mich_binary::{DecodeError, decode};
use mich_check::cache::Bodies;
use mich_data::{Read, ValueError, read_value, read_value_with};
use mich_instr::Body;
use mich_term::Value;
use std::alloc::Global;

// The value of a literal, with these bodies for its lambdas.
#[tactic(auto, using(crate::proofs::unpacking_lemmas::Tried::same_value, crate::proofs::unpacking_lemmas::Tried::not_bad))]
fn with_bodies(
    alloc: Global,
    ty: &Ty,
    node: &Node,
    value: Value,
    bodies: Rows<Shared<Body>>,
) -> Result<Value, Memory>
    requires small { size (tree node.now) < 2 ^ 32 }
    requires reads { HasValue (val value) (read_literal (kind ty.now) 0 (tree node.now)) }
    requires whole { IsWhole (kind ty.now) value }
    ensures value { IfOk result (λ v. val v ≡ val value) }
    ensures whole { IfOk result (λ v. IsWhole (kind ty.now) v) }
{
    if bodies.is_empty() {
        return Ok(value);
    }
    match read_value_with(alloc, ty, node, 0, bodies) {
        Ok(read) => Ok(read.value),
        Err(ValueError::NotOfType(_)) => unreachable!(),
        Err(ValueError::Memory) => Err(Memory),
    }
}

// The value that was read of a literal, where the bodies of its lambdas are typed.
#[tactic(auto, using(crate::proofs::unpacking_lemmas::Tried::kept_unless, crate::proofs::unpacking_lemmas::Tried::none_unless))]
fn value_of(
    alloc: Global,
    bodies: &mut Bodies,
    ty: &Ty,
    node: &Node,
    read: Read,
) -> Result<Option<Value>, Memory>
    requires bodies { AreBodies (all_pending read.pending) }
    requires small { size (tree node.now) < 2 ^ 32 }
    requires reads { HasValue (val read.value) (read_literal (kind ty.now) 0 (tree node.now)) }
    requires whole { IsWhole (kind ty.now) read.value }
    ensures value { IfOk result (λ o. option_map val o ≡ unless (fault_of_bodies (all_pending read.pending)) (val read.value)) }
    ensures whole { IfOk result (λ o. IfSome o (λ v. IsWhole (kind ty.now) v)) }
{
    let Some(found) = typed_bodies(alloc, bodies, read.pending)? else {
        return Ok(None);
    };
    let value = with_bodies(alloc, ty, node, read.value, found)?;
    Ok(Some(value))
}

// The value of a type that a node spells, where the bodies of its lambdas are typed.
fn read_node(
    alloc: Global,
    bodies: &mut Bodies,
    ty: &Ty,
    node: &Node,
) -> Result<Option<Value>, Memory>
    requires pushable { pushable (kind ty.now) ≡ true }
    requires small { size (tree node.now) < 2 ^ 32 }
    ensures tried { IfOk result (λ o. IsTried (kind ty.now) (tree node.now) o) }
    ensures whole { IfOk result (λ o. IfSome o (λ v. IsWhole (kind ty.now) v)) }
{
    match read_value(alloc, ty, node) {
        Ok(read) => Ok(value_of(alloc, bodies, ty, node, read)?),
        Err(ValueError::NotOfType(_)) => Ok(None),
        Err(ValueError::Memory) => Err(Memory),
    }
}

// The same of the node that the bytes behind the first spell.
fn read_body(
    alloc: Global,
    bodies: &mut Bodies,
    ty: &Ty,
    bytes: &[u8],
) -> Result<Option<Value>, Memory>
    requires pushable { pushable (kind ty.now) ≡ true }
    requires short { length bytes.now < 2 ^ 32 }
    ensures decoded { IfOk result (λ o. IsDecoded (kind ty.now) (decoded bytes.now) o) }
    ensures whole { IfOk result (λ o. IfSome o (λ v. IsWhole (kind ty.now) v)) }
{
    match decode(alloc, bytes) {
        Ok(node) => read_node(alloc, bodies, ty, &node),
        Err(DecodeError::Fault(_, _)) => Ok(None),
        Err(DecodeError::Memory) => Err(Memory),
    }
}

/// The value of a pushable type that bytes pack (Michelson reference, "UNPACK"). None exactly where the bytes aren't the byte 5 and the
/// binary form of a literal of the type, or the body of a lambda in it doesn't go from its argument's type to its result's. The value has
/// the parts that its type names. Bodies that are kept are not typed again. Memory where there is no room for it.
pub fn unpack_value(
    alloc: Global,
    bodies: &mut Bodies,
    ty: &Ty,
    bytes: &[u8],
) -> Result<Option<Value>, Memory>
    requires pushable { pushable (kind ty.now) ≡ true }
    requires short { length bytes.now < 2 ^ 32 }
    ensures unpacked { IfOk result (λ o. IsUnpacked (kind ty.now) bytes.now o) }
    ensures whole { IfOk result (λ o. IfSome o (λ v. IsWhole (kind ty.now) v)) }
{
    match bytes.split_first() {
        Some((5, body)) => read_body(alloc, bodies, ty, body),
        _ => Ok(None),
    }
}
