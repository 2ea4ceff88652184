// What a run returns.
ghost use Rattle.std.specs.Prelude.{◌≡◌, ◌∷◌, [], ℕ, List, IfOk, Some, map};
ghost use Rattle.rules_data.specs.values.Val.{Val, Vals, both, list};
ghost use Rattle.rules_world.specs.world.Runs.{numbers_in};
ghost use Rattle.mich_interpreter.specs.View.{tops};
ghost use Rattle.mich_stack.specs.Views.{Sight, seen};
ghost use Rattle.mich_term.specs.View.{vals_of};
ghost use Rattle.mich_machine.specs.Returned.{AreRising, IsPicked, by_number, number_of, picks};

use mich_base::{Memory, Rows};
use mich_ops::Issued;
use mich_term::{Chain, Value};
use std::alloc::Global;
use std::collections::BTreeMap;

// Issued operations by their numbers.
pub(crate) type Numbered = BTreeMap<u32, Issued>;

// The list that a value is.
fn list_of(value: Value) -> Result<Chain<Value>, Memory>
    requires { (big : Sight) × (vs : Vals) × (seen big value ≡ list vs) }
    ensures { IfOk result (λ l. (big : Sight) → seen big value ≡ list (vals_of (map (seen big) l))) }
{
    match value {
        Value::List(values) => values.into_value(),
        _ => unreachable!(),
    }
}

// The operations and the new storage that code leaves.
pub(crate) fn parts(stack: Rows<Value>) -> Result<(Chain<Value>, Value), Memory>
    requires { (big : Sight) × (vs : Vals) × (w : Val) × (tops big stack ≡ both (list vs) w ∷ []) }
    ensures { IfOk result (λ p. (big : Sight) → tops big stack ≡ both (list (vals_of (map (seen big) p.0))) (seen big p.1) ∷ []) }
{
    let mut stack = stack;
    let Some(Value::Pair(operations, storage)) = stack.pop() else {
        unreachable!();
    };
    let operations = list_of(operations.into_value()?)?;
    Ok((operations, storage.into_value()?))
}

fn number(operation: &Issued) -> u32
    ensures { result ≡ number_of operation.now }
{
    match operation {
        Issued::Transfer { number, .. } => *number,
        Issued::Origination { number, .. } => *number,
        Issued::Event { number, .. } => *number,
    }
}

// Operations by their numbers, which rise. Memory where there is no room for them.
pub(crate) fn by_number(alloc: Global, issued: Rows<Issued>) -> Result<Numbered, Memory>
    requires { AreRising issued }
    ensures { IfOk result (λ m. m.entries ≡ by_number issued) }
{
    let mut all = BTreeMap::new(alloc);
    for operation in issued.into_vec() {
        let old = all.insert(number(&operation), operation)?;
        drop(old);
    }
    Ok(all)
}

// Takes the operations of these numbers, in the order of the numbers. None where one of them isn't there, or isn't any more.
pub(crate) fn pick(
    alloc: Global,
    all: &mut Numbered,
    numbers: Chain<Value>,
) -> Result<Option<Rows<Issued>>, Memory>
    requires { (big : Sight) × (ns : List ℕ) × (numbers_in (vals_of (map (seen big) numbers)) ≡ Some ns) }
    ensures { IfOk result (λ r. (big : Sight) (ns : List ℕ) → numbers_in (vals_of (map (seen big) numbers)) ≡ Some ns → IsPicked (picks all.old.entries ns) r all.new.entries) }
{
    let mut picked = Rows::new(alloc);
    for value in numbers.into_vec() {
        let Value::Operation(number) = value else {
            unreachable!();
        };
        let Some(operation) = all.remove(&number) else {
            return Ok(None);
        };
        picked.push(operation)?;
    }
    Ok(Some(picked))
}
