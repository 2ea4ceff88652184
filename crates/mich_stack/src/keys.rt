// Comparable values on top of a stack: elements of sets, keys of maps and contents of tickets.
ghost use Rattle.std.specs.Prelude.{◌≡◌, ◌∷◌, true, IfOk};
ghost use Rattle.rules_data.specs.values.Val.{is_comparable};
ghost use Rattle.mich_term.specs.View.{datum};
ghost use Rattle.mich_term.specs.ValueView.{val};
ghost use Rattle.mich_stack.specs.Views.{Sight, seen, values, plain};
ghost use Rattle.mich_stack.specs.Keys.{IsKeyOnTop};

use crate::stack::pop;
use mich_base::{Memory, Rows};
use mich_term::{Datum, Value};
use std::alloc::Global;

// A comparable value as a key.
#[tactic(auto, using(crate::proofs::Comparable::comparable_seen))]
fn key_of(alloc: Global, value: &Value) -> Result<Datum, Memory>
    requires { is_comparable (val value.now) ≡ true }
    ensures { IfOk result (λ d. (big : Sight) → seen big value.now ≡ datum d) }
{
    match value.datum(alloc)? {
        Some(key) => Ok(key),
        None => unreachable!(),
    }
}

/// Takes the comparable value on top. Memory where there is no room for it.
pub fn take_key(alloc: Global, stack: &mut Rows<Value>) -> Result<Datum, Memory>
    requires { IsKeyOnTop (plain stack.old) }
    ensures { IfOk result (λ d. (big : Sight) → values big stack.old ≡ datum d ∷ values big stack.new) }
{
    let Some(value) = pop(stack) else {
        unreachable!()
    };
    let key = key_of(alloc, &value);
    drop(value);
    key
}

/// The same value as the content of a ticket, among all values. Memory where there is no room for it.
#[tactic(auto, using(crate::proofs::Contents::content_seen))]
pub fn content_value(alloc: Global, content: &Datum) -> Result<Value, Memory>
    ensures { IfOk result (λ v. (big : Sight) → seen big v ≡ datum content.now) }
{
    let value = content.value(alloc)?;
    Ok(value)
}
