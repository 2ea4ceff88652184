// What surrounds a run.
ghost use Rattle.std.specs.Prelude.{◌≡◌, IfOk};
ghost use Rattle.mich_forms.specs.Spelled.{place_bytes};
ghost use Rattle.rules_data.specs.values.Val.{bytes};
ghost use Rattle.rules_code.specs.steps.Reading.{environment_step, reading};
ghost use Rattle.mich_overload.specs.View.{environment_row};
ghost use Rattle.mich_stack.specs.Views.{Sight, seen};
ghost use Rattle.mich_step.specs.Views.{environment};
ghost use Rattle.mich_stack.specs.Ends.{Keeps};

use mich_base::{Bytes, Memory, Rows};
use mich_forms::{ChainId, KeyHash, Place};
use mich_overload::EnvironmentRow;
use mich_stack::{StepError, push};
use mich_term::Value;
use std::alloc::Global;

/// Where and for whom code runs (Michelson reference, "Operations on contracts" and "Special operations").
#[derive(Clone, Copy, Debug)]
pub struct Env {
    pub chain: ChainId,
    pub level: u32,
    pub now: i64,
    /// The account that the group is of.
    pub source: KeyHash,
    /// Who called.
    pub sender: Place,
    /// The contract whose code runs.
    pub me: [u8; 20],
    /// The mutez received, and those that the contract has with them.
    pub amount: u64,
    pub balance: u64,
}

// The bytes of a place as a value.
pub(crate) fn place_value(alloc: Global, place: &Place) -> Result<Value, Memory>
    ensures { IfOk result (λ v. (big : Sight) → seen big v ≡ bytes (place_bytes place.now)) }
{
    Ok(Value::Bytes(Bytes::from_slice(alloc, place.bytes().as_slice())?))
}

// What an instruction reads.
fn reading(alloc: Global, env: &Env, row: &EnvironmentRow) -> Result<Value, Memory>
    ensures { IfOk result (λ v. (big : Sight) → seen big v ≡ reading (environment env.entry.now) (environment_row row.now)) }
{
    match row {
        EnvironmentRow::Amount => Ok(Value::Number(i128::from(env.amount))),
        EnvironmentRow::Balance => Ok(Value::Number(i128::from(env.balance))),
        EnvironmentRow::Sender => place_value(alloc, &env.sender),
        EnvironmentRow::Source => place_value(alloc, &Place::Implicit(env.source)),
        EnvironmentRow::SelfAddress => place_value(alloc, &Place::Contract(env.me)),
        EnvironmentRow::Now => Ok(Value::Number(i128::from(env.now))),
        EnvironmentRow::Level => Ok(Value::Number(i128::from(env.level))),
        EnvironmentRow::ChainId => {
            Ok(Value::Bytes(Bytes::from_slice(alloc, env.chain.bytes().as_slice())?))
        }
    }
}

/// What reading the surroundings makes of a stack (Michelson reference, "Operations on contracts" and "Special operations").
pub fn environment_step(
    alloc: Global,
    env: &Env,
    row: &EnvironmentRow,
    stack: &mut Rows<Value>,
) -> Result<(), StepError>
    ensures { Keeps (environment_step (environment env.entry.now) (environment_row row.now)) stack.old stack.new result }
{
    let value = reading(alloc, env, row)?;
    push(stack, value)?;
    Ok(())
}
