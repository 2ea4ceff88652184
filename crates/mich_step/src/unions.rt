// Options, unions and lists.
ghost use Rattle.std.specs.Prelude.{◌≡◌, ◌∷◌, IfOk};
ghost use Rattle.rules_code.specs.instructions.Straight as i;
ghost use Rattle.rules_code.specs.steps.Stack.{union_step};
ghost use Rattle.mich_overload.specs.View.{union_row};
ghost use Rattle.mich_stack.specs.Views.{Sight, seen, values};
ghost use Rattle.mich_stack.specs.Ends.{Fits, Keeps};

use mich_base::{Link, Memory, Rows};
use mich_overload::UnionRow;
use mich_stack::{StepError, pop, push};
use mich_term::{Chain, Value};
use std::alloc::Global;

// Takes the value on top.
fn boxed_top(alloc: Global, stack: &mut Rows<Value>) -> Result<Link<Value>, Memory>
    requires { Fits (union_step i.some) stack.old }
    ensures { IfOk result (λ v. (big : Sight) → values big stack.old ≡ seen big v ∷ values big stack.new) }
{
    let Some(value) = pop(stack) else {
        unreachable!()
    };
    Link::new(alloc, value)
}

// Puts an element before a list.
fn in_front(value: Value, mut list: Chain<Value>) -> Result<Chain<Value>, Memory>
    ensures { IfOk result (λ vs. vs ≡ value ∷ list) }
{
    list.push(value)?;
    Ok(list)
}

fn cons(alloc: Global, stack: &mut Rows<Value>) -> Result<(), StepError>
    requires { Fits (union_step i.cons) stack.old }
    ensures { Keeps (union_step i.cons) stack.old stack.new result }
{
    let Some(value) = pop(stack) else {
        unreachable!()
    };
    let Some(Value::List(list)) = pop(stack) else {
        unreachable!()
    };
    let list = in_front(value, list.into_value()?)?;
    push(stack, Value::List(Link::new(alloc, list)?))?;
    Ok(())
}

/// What making options, unions and lists makes of a stack (Michelson reference, "Operations on optional values", "Operations on
/// unions" and "Operations on lists").
pub fn union_step(alloc: Global, row: &UnionRow, stack: &mut Rows<Value>) -> Result<(), StepError>
    requires { Fits (union_step (union_row row.now)) stack.old }
    ensures { Keeps (union_step (union_row row.now)) stack.old stack.new result }
{
    let value = match row {
        UnionRow::Left(_) => Value::Left(boxed_top(alloc, stack)?),
        UnionRow::Right(_) => Value::Right(boxed_top(alloc, stack)?),
        UnionRow::Some => Value::Some(boxed_top(alloc, stack)?),
        UnionRow::None(_) => Value::None,
        UnionRow::Nil(_) => Value::List(Link::new(alloc, Chain::new(alloc))?),
        UnionRow::Cons => return cons(alloc, stack),
    };
    push(stack, value)?;
    Ok(())
}
