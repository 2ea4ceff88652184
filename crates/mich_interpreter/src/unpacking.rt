// UNPACK.
ghost use Rattle.std.specs.Prelude.{◌≡◌, ◌<◌, ◌^◌, ◌∷◌, true, length, IfOk, option_map};
ghost use Rattle.rules_text.specs.nodes.Tree.{Tree};
ghost use Rattle.rules_data.specs.types.Attributes.{pushable};
ghost use Rattle.rules_data.specs.values.Val.{bytes};
ghost use Rattle.rules_code.specs.instructions.Straight.{on_hashes};
ghost use Rattle.rules_code.specs.instructions.Straight as i;
ghost use Rattle.rules_code.specs.steps.Packing.{unpacked};
ghost use Rattle.rules_code.specs.steps.Step.{optional};
ghost use Rattle.rules_code.specs.evaluation.Surroundings.{Surroundings};
ghost use Rattle.rules_code.specs.evaluation.Trying.{trial};
ghost use Rattle.mich_base.specs.TypeView.{kind};
ghost use Rattle.mich_frames.specs.Shapes.{HasBytes};
ghost use Rattle.mich_instr.specs.Code as made;
ghost use Rattle.mich_stack.specs.Views.{Sight, seen};
ghost use Rattle.mich_interpreter.specs.View.{tops};
ghost use Rattle.mich_interpreter.specs.Ends.{Comes, Carries, Spends};

use crate::act::{Act, Failed};
use crate::paying::pay;
use crate::stack::push;
use mich_base::{Bytes, Link, Memory, Rows, Ty};
use mich_check::cache::Bodies;
use mich_gas::{Costs, Kind};
use mich_literals::unpacking::unpack_value;
use mich_state::State;
use mich_term::Value;
use std::alloc::Global;

// Takes the bytes on top.
fn pop_bytes(stack: &mut Rows<Value>) -> Bytes
    requires { (big : Sight) × HasBytes (tops big stack.old) }
    ensures { (big : Sight) → tops big stack.old ≡ bytes result ∷ tops big stack.new }
{
    match stack.pop() {
        Some(Value::Bytes(packed)) => packed,
        _ => unreachable!(),
    }
}

// A value, or none, as a value.
fn optional_of(alloc: Global, found: Option<Value>) -> Result<Value, Memory>
    ensures { IfOk result (λ v. (big : Sight) → seen big v ≡ optional (option_map (seen big) found)) }
{
    let Some(value) = found else {
        return Ok(Value::None);
    };
    let part = Link::new(alloc, value)?;
    Ok(Value::Some(part))
}

// The value that bytes pack, or none, as a value. No literal of a pushable type names a contract, so it is the same anywhere.
fn optional_value(
    alloc: Global,
    bodies: &mut Bodies,
    ty: &Ty,
    packed: &[u8],
) -> Result<Value, Memory>
    requires pushable { pushable (kind ty.now) ≡ true }
    requires short { length packed.now < 2 ^ 32 }
    ensures { IfOk result (λ v. (big : Sight) (e : Surroundings) → seen big v ≡ optional (unpacked (trial e) (kind ty.now) packed.now)) }
{
    let found = unpack_value(alloc, bodies, ty, packed)?;
    let value = optional_of(alloc, found)?;
    Ok(value)
}

pub(crate) fn act_unpack(
    alloc: Global,
    m: &mut State,
    costs: &Costs,
    bodies: &mut Bodies,
    ty: &Ty,
) -> Result<Act, Memory>
    requires { (app : Tree) × Comes (made.straight (on_hashes (i.unpack (kind ty.now))) app) costs.now m.old }
    ensures acts { (app : Tree) → Carries (made.straight (on_hashes (i.unpack (kind ty.now))) app) costs.now m.old m.new result }
    ensures less { IfOk result (λ a. Spends a m.old.meter m.new.meter) }
    ensures ledger { m.new.ledger ≡ m.old.ledger }
    ensures counts { m.new.counts ≡ m.old.counts }
    ensures issued { m.new.issued ≡ m.old.issued }
{
    let packed = pop_bytes(&mut m.stack);
    if !pay(&mut m.meter, costs, Kind::Unpack, packed.len() as u64) {
        return Ok(Act::Failed(Failed::OutOfGas));
    }
    let value = optional_value(alloc, bodies, ty, packed.as_slice())?;
    push(&mut m.stack, value)?;
    Ok(Act::On)
}
