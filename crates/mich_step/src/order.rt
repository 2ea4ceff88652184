// The order of the stack.
ghost use Rattle.std.specs.Prelude.{◌≡◌, ◌≤◌, ◌-◌, ◌<◌, [], ◌∷◌, ◌++◌, length, take, drop, remove, insert, IfOk, flat_map};
ghost use Rattle.rules_code.specs.instructions.Straight as i;
ghost use Rattle.rules_data.specs.values.Tickets.{tickets};
ghost use Rattle.mich_term.specs.ValueView.{val};
ghost use Rattle.mich_stack.specs.Views.{Sight, seen, values, plain};
ghost use Rattle.rules_code.specs.steps.Stack.{stack_step};
ghost use Rattle.mich_base.specs.TypeView.{kind};
ghost use Rattle.mich_overload.specs.View.{stack_row};
ghost use Rattle.mich_stack.specs.Ends.{Fits, Keeps, Ends, gone};
ghost use Rattle.mich_step.specs.Burners.{StaysReady};
ghost use Rattle.mich_step.specs.Ends.{SuitsStack};

use mich_base::{Memory, Rows, Ty};
use mich_overload::StackRow;
use mich_stack::{StepError, insert_at, pop, push, read_at, split_top, take_at};
use mich_term::{Burner, Value, discard, dup};
use std::alloc::Global;

// Discards so many values from the top on.
#[tactic(auto)]
fn drop_values<B: Burner>(
    alloc: Global,
    count: u32,
    stack: &mut Rows<Value>,
    burner: &mut B,
) -> Result<(), Memory>
    requires enough { (big : Sight) × (count ≤ length (values big stack.old)) }
    requires ready { B.ready burner.old (flat_map tickets (take count (plain stack.old))) }
    ensures rest { IfOk result (λ _. (big : Sight) → values big stack.new ≡ drop count (values big stack.old)) }
    ensures tells { IfOk result (λ _. B.told burner.new ≡ B.told burner.old ++ flat_map tickets (take count (plain stack.old))) }
    ensures stays_ready { IfOk result (λ _. StaysReady B.ready burner.old burner.new (flat_map tickets (take count (plain stack.old)))) }
{
    let Some(others) = count.checked_sub(1) else {
        return Ok(());
    };
    let Some(value) = pop(stack) else {
        unreachable!()
    };
    discard(alloc, value, burner)?;
    drop_values(alloc, others, stack, burner)?;
    Ok(())
}

/// What `DUP n` makes of a stack that it fits, at the place n from 1 on (Michelson reference, DUP).
pub fn dup_value(alloc: Global, place: u32, stack: &mut Rows<Value>) -> Result<(), StepError>
    requires fits { Fits (stack_step (i.dup place)) stack.old }
    requires suits { SuitsStack (i.dup place) (plain stack.old) }
    ensures { Keeps (stack_step (i.dup place)) stack.old stack.new result }
{
    let Some(value) = read_at(stack, place.saturating_sub(1) as usize) else {
        unreachable!()
    };
    let copy = dup(alloc, value)?;
    push(stack, copy)?;
    Ok(())
}

/// What `SWAP` makes of a stack that it fits (Michelson reference, SWAP).
pub fn swap(stack: &mut Rows<Value>) -> Result<(), StepError>
    requires { Fits (stack_step i.swap) stack.old }
    ensures { Keeps (stack_step i.swap) stack.old stack.new result }
{
    let Some(first) = pop(stack) else {
        unreachable!()
    };
    let Some(second) = pop(stack) else {
        unreachable!()
    };
    push(stack, first)?;
    push(stack, second)?;
    Ok(())
}

/// What `DIG n` makes of a stack that it fits (Michelson reference, DIG).
pub fn dig(alloc: Global, depth: u32, stack: &mut Rows<Value>) -> Result<(), StepError>
    requires { Fits (stack_step (i.dig depth)) stack.old }
    ensures { Keeps (stack_step (i.dig depth)) stack.old stack.new result }
{
    let value = take_at(alloc, stack, depth as usize);
    push(stack, value)?;
    Ok(())
}

/// What `DUG n` makes of a stack that it fits (Michelson reference, DUG).
pub fn dug(alloc: Global, depth: u32, stack: &mut Rows<Value>) -> Result<(), StepError>
    requires { Fits (stack_step (i.dug depth)) stack.old }
    ensures { Keeps (stack_step (i.dug depth)) stack.old stack.new result }
{
    let Some(value) = pop(stack) else {
        unreachable!()
    };
    insert_at(alloc, stack, depth as usize, value)?;
    Ok(())
}

/// What `UNIT` makes of any stack (Michelson reference, UNIT).
pub fn unit(stack: &mut Rows<Value>) -> Result<(), StepError>
    ensures { Keeps (stack_step i.unit) stack.old stack.new result }
{
    push(stack, Value::Unit)?;
    Ok(())
}

// The type of the value on top is the same.
fn cast(ty: &Ty, stack: &mut Rows<Value>) -> Result<(), StepError>
    requires { Fits (stack_step (i.cast (kind ty.now))) stack.old }
    ensures { Keeps (stack_step (i.cast (kind ty.now))) stack.old stack.new result }
{
    let Some((_, _)) = split_top(stack.as_slice()) else {
        unreachable!()
    };
    Ok(())
}

// No value changes.
fn rename(stack: &mut Rows<Value>) -> Result<(), StepError>
    requires { Fits (stack_step i.rename) stack.old }
    ensures { Keeps (stack_step i.rename) stack.old stack.new result }
{
    let Some((_, _)) = split_top(stack.as_slice()) else {
        unreachable!()
    };
    Ok(())
}

#[tactic(auto, using(mich_stack::proofs::ForCallers::burnt_among_burns))]
fn drop_count<B: Burner>(
    alloc: Global,
    count: u32,
    stack: &mut Rows<Value>,
    burner: &mut B,
) -> Result<(), StepError>
    requires fits { Fits (stack_step (i.drop count)) stack.old }
    requires ready { B.ready burner.old (gone (stack_step (i.drop count) (plain stack.old))) }
    ensures ends { Ends (stack_step (i.drop count)) stack.old stack.new result }
    ensures tells { IfOk result (λ _. B.told burner.new ≡ B.told burner.old ++ gone (stack_step (i.drop count) (plain stack.old))) }
    ensures stays_ready { IfOk result (λ _. StaysReady B.ready burner.old burner.new (gone (stack_step (i.drop count) (plain stack.old)))) }
{
    drop_values(alloc, count, stack, burner)?;
    Ok(())
}

/// What changing the order of the stack makes of it (Michelson reference, "Stack operations").
#[tactic(auto, using(mich_stack::proofs::ForCallers::burnt_among_burns))]
pub fn stack_step<B: Burner>(
    alloc: Global,
    row: &StackRow,
    stack: &mut Rows<Value>,
    burner: &mut B,
) -> Result<(), StepError>
    requires fits { Fits (stack_step (stack_row row.now)) stack.old }
    requires suits { SuitsStack (stack_row row.now) (plain stack.old) }
    requires ready { B.ready burner.old (gone (stack_step (stack_row row.now) (plain stack.old))) }
    ensures ends { Ends (stack_step (stack_row row.now)) stack.old stack.new result }
    ensures tells { IfOk result (λ _. B.told burner.new ≡ B.told burner.old ++ gone (stack_step (stack_row row.now) (plain stack.old))) }
    ensures stays_ready { IfOk result (λ _. StaysReady B.ready burner.old burner.new (gone (stack_step (stack_row row.now) (plain stack.old)))) }
{
    match row {
        StackRow::Drop(count) => drop_count(alloc, *count, stack, burner),
        StackRow::Dup(place) => dup_value(alloc, *place, stack),
        StackRow::Swap => swap(stack),
        StackRow::Dig(depth) => dig(alloc, *depth, stack),
        StackRow::Dug(depth) => dug(alloc, *depth, stack),
        StackRow::Unit => unit(stack),
        StackRow::Cast(ty) => cast(ty, stack),
        StackRow::Rename => rename(stack),
    }
}
