// Addresses of contracts.
ghost use Rattle.std.specs.Prelude.{◌≡◌, true, IfOk};
ghost use Rattle.rules_data.specs.forms.Spelling.{implicit_place};
ghost use Rattle.rules_code.specs.instructions.Straight as i;
ghost use Rattle.rules_code.specs.instructions.Straight.{on_operations};
ghost use Rattle.rules_data.specs.values.Val.{bytes};
ghost use Rattle.mich_overload.specs.Steps.{in_step};
ghost use Rattle.mich_overload.specs.View.{operation_row};
ghost use Rattle.mich_stack.specs.Views.{Sight, seen};
ghost use Rattle.mich_stack.specs.Ends.{Fits, Keeps};
ghost use Rattle.mich_step.specs.Rule.{operation_step};

use mich_base::{Bytes, Memory, Rows};
use mich_overload::OperationRow;
use mich_stack::{StepError, put, split_top};
use mich_term::Value;
use std::alloc::Global;

fn address(stack: &mut Rows<Value>) -> Result<(), StepError>
    requires { Fits (operation_step i.address) stack.old }
    ensures { Keeps (operation_step i.address) stack.old stack.new result }
{
    let Some((Value::Bytes(bytes), _)) = split_top(stack.as_slice()) else {
        unreachable!()
    };
    let _same = bytes;
    Ok(())
}

// The place of an implicit account.
fn implicit(alloc: Global, key_hash: &[u8]) -> Result<Value, Memory>
    ensures { IfOk result (λ v. (big : Sight) → seen big v ≡ bytes (implicit_place key_hash.now)) }
{
    let mut place = Vec::with_capacity(alloc, 22)?;
    place.push(0)?;
    place.extend_from_slice(key_hash)?;
    Ok(Value::Bytes(Bytes::from_vec(place)?))
}

fn implicit_account(alloc: Global, stack: &mut Rows<Value>) -> Result<(), StepError>
    requires { Fits (operation_step i.implicit_account) stack.old }
    ensures { Keeps (operation_step i.implicit_account) stack.old stack.new result }
{
    let Some((Value::Bytes(key_hash), _)) = split_top(stack.as_slice()) else {
        unreachable!()
    };
    let place = implicit(alloc, key_hash.as_slice())?;
    put(stack, 1, place)?;
    Ok(())
}

// What naming the place of a contract or of an account makes of a stack.
pub(crate) fn operation_step(
    alloc: Global,
    row: &OperationRow,
    stack: &mut Rows<Value>,
) -> Result<(), StepError>
    requires in_step { in_step (on_operations (operation_row row.now)) ≡ true }
    requires fits { Fits (operation_step (operation_row row.now)) stack.old }
    ensures { Keeps (operation_step (operation_row row.now)) stack.old stack.new result }
{
    match row {
        OperationRow::Address => address(stack),
        OperationRow::ImplicitAccount => implicit_account(alloc, stack),
        OperationRow::Contract(_, _) => unreachable!(),
        OperationRow::TransferTokens => unreachable!(),
        OperationRow::Emit(_, _) => unreachable!(),
        OperationRow::View(_, _, _) => unreachable!(),
    }
}
