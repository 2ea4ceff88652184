// Pairs, and combs of pairs.
ghost use Rattle.std.specs.Prelude.{◌≡◌, ◌∷◌, ◌++◌, drop, IfOk, Some, is_some, true};
ghost use Rattle.rules_code.specs.instructions.Straight as i;
ghost use Rattle.rules_data.specs.values.Tickets.{tickets};
ghost use Rattle.rules_data.specs.values.Val.{both};
ghost use Rattle.rules_code.specs.steps.Stack.{comb, pair_step, part_at, parts, replaced};
ghost use Rattle.mich_overload.specs.View.{pair_row};
ghost use Rattle.mich_stack.specs.Views.{Sight, seen, values, plain};
ghost use Rattle.mich_stack.specs.Ends.{Fits, Keeps, Ends, gone};
ghost use Rattle.mich_stack.specs.Given.{Gives};
ghost use Rattle.mich_step.specs.Burners.{StaysReady};
ghost use Rattle.mich_step.specs.Parts.{ArePartsOnTop, IsPair, IsPart, IsReplaced};

use mich_base::{Link, Memory, Rows};
use mich_overload::PairRow;
use mich_stack::{StepError, nothing, pop, push};
use mich_term::{Burner, Value, discard};
use std::alloc::Global;

// Takes the comb of a value and the next so many.
fn take_comb(
    alloc: Global,
    first: Value,
    others: u32,
    stack: &mut Rows<Value>,
) -> Result<Value, Memory>
    requires { (big : Sight) × (is_some (comb others (seen big first) (values big stack.old)) ≡ true) }
    ensures comb { IfOk result (λ c. (big : Sight) → comb others (seen big first) (values big stack.old) ≡ Some (seen big c)) }
    ensures rest { IfOk result (λ _. (big : Sight) → values big stack.new ≡ drop others (values big stack.old)) }
{
    let Some(further) = others.checked_sub(1) else {
        return Ok(first);
    };
    let Some(second) = pop(stack) else {
        unreachable!()
    };
    let rest = take_comb(alloc, second, further, stack)?;
    let first = Link::new(alloc, first)?;
    let rest = Link::new(alloc, rest)?;
    Ok(Value::Pair(first, rest))
}

/// What `PAIR n` makes of a stack that it fits (Michelson reference, PAIR).
pub fn pair(alloc: Global, count: u32, stack: &mut Rows<Value>) -> Result<(), StepError>
    requires { Fits (pair_step (i.pair count)) stack.old }
    ensures { Keeps (pair_step (i.pair count)) stack.old stack.new result }
{
    let Some(first) = pop(stack) else {
        unreachable!()
    };
    let whole = take_comb(alloc, first, count.saturating_sub(1), stack)?;
    push(stack, whole)?;
    Ok(())
}

// Puts the parts of a comb on the stack, its first so many and the rest of it.
fn put_parts(comb: Value, others: u32, stack: &mut Rows<Value>) -> Result<(), Memory>
    requires { (big : Sight) × (is_some (parts others (seen big comb)) ≡ true) }
    ensures { IfOk result (λ _. ArePartsOnTop others comb stack.old stack.new) }
{
    let Some(further) = others.checked_sub(1) else {
        return push(stack, comb);
    };
    let (first, rest) = split_pair(comb)?;
    put_parts(rest, further, stack)?;
    push(stack, first)
}

/// What `UNPAIR n` makes of a stack that it fits (Michelson reference, UNPAIR).
pub fn unpair(count: u32, stack: &mut Rows<Value>) -> Result<(), StepError>
    requires { Fits (pair_step (i.unpair count)) stack.old }
    ensures { Keeps (pair_step (i.unpair count)) stack.old stack.new result }
{
    let Some(whole) = pop(stack) else {
        unreachable!()
    };
    put_parts(whole, count.saturating_sub(1), stack)?;
    Ok(())
}

// The parts of a pair.
pub(crate) fn split_pair(pair: Value) -> Result<(Value, Value), Memory>
    requires { (big : Sight) × IsPair (seen big pair) }
    ensures { IfOk result (λ p. (big : Sight) → seen big pair ≡ both (seen big p.0) (seen big p.1)) }
{
    let Value::Pair(first, second) = pair else {
        unreachable!()
    };
    Ok((first.into_value()?, second.into_value()?))
}

fn car(stack: &mut Rows<Value>) -> Result<Value, StepError>
    requires { Fits (pair_step i.car) stack.old }
    ensures { Gives (pair_step i.car) stack.old stack.new result }
{
    let Some(whole) = pop(stack) else {
        unreachable!()
    };
    let (first, second) = split_pair(whole)?;
    push(stack, first)?;
    Ok(second)
}

fn cdr(stack: &mut Rows<Value>) -> Result<Value, StepError>
    requires { Fits (pair_step i.cdr) stack.old }
    ensures { Gives (pair_step i.cdr) stack.old stack.new result }
{
    let Some(whole) = pop(stack) else {
        unreachable!()
    };
    let (first, second) = split_pair(whole)?;
    push(stack, second)?;
    Ok(first)
}

// The part of a comb with a number, and what holds all that is passed and left.
#[tactic(auto, using(crate::proofs::Combs::part_there, crate::proofs::Combs::part_is, crate::proofs::Combs::part_first))]
fn take_part(alloc: Global, comb: Value, place: u32) -> Result<(Value, Value), Memory>
    requires { (big : Sight) × (is_some (part_at place (seen big comb)) ≡ true) }
    ensures { IfOk result (λ p. (big : Sight) → IsPart (part_at place (seen big comb)) (seen big p.0) (tickets (seen big p.1))) }
{
    if place == 0 {
        return Ok((comb, Value::Unit));
    }
    let (first, second) = split_pair(comb)?;
    let Some(further) = place.checked_sub(2) else {
        return Ok((first, second));
    };
    let (found, left) = take_part(alloc, second, further)?;
    let first = Link::new(alloc, first)?;
    let left = Link::new(alloc, left)?;
    Ok((found, Value::Pair(first, left)))
}

fn get_part(alloc: Global, place: u32, stack: &mut Rows<Value>) -> Result<Value, StepError>
    requires { Fits (pair_step (i.get_part place)) stack.old }
    ensures { Gives (pair_step (i.get_part place)) stack.old stack.new result }
{
    let Some(whole) = pop(stack) else {
        unreachable!()
    };
    let (found, left) = take_part(alloc, whole, place)?;
    push(stack, found)?;
    Ok(left)
}

// A comb with another part in a place, and the part that stood there.
#[tactic(auto, using(crate::proofs::Combs::replaced_there, crate::proofs::Combs::replaced_is))]
fn replace_part(
    alloc: Global,
    comb: Value,
    place: u32,
    new: Value,
) -> Result<(Value, Value), Memory>
    requires { (big : Sight) × (is_some (replaced place (seen big new) (seen big comb)) ≡ true) }
    ensures { IfOk result (λ p. (big : Sight) → IsReplaced (replaced place (seen big new) (seen big comb)) (seen big p.0) (seen big p.1)) }
{
    if place == 0 {
        return Ok((new, comb));
    }
    let (first, second) = split_pair(comb)?;
    let Some(further) = place.checked_sub(2) else {
        let new = Link::new(alloc, new)?;
        let second = Link::new(alloc, second)?;
        return Ok((Value::Pair(new, second), first));
    };
    let (rest, old) = replace_part(alloc, second, further, new)?;
    let first = Link::new(alloc, first)?;
    let rest = Link::new(alloc, rest)?;
    Ok((Value::Pair(first, rest), old))
}

fn update_part(alloc: Global, place: u32, stack: &mut Rows<Value>) -> Result<Value, StepError>
    requires { Fits (pair_step (i.update_part place)) stack.old }
    ensures { Gives (pair_step (i.update_part place)) stack.old stack.new result }
{
    let Some(new) = pop(stack) else {
        unreachable!()
    };
    let Some(whole) = pop(stack) else {
        unreachable!()
    };
    let (comb, old) = replace_part(alloc, whole, place, new)?;
    push(stack, comb)?;
    Ok(old)
}

// What making and taking apart pairs makes of a stack, and what it discards.
fn give_pairs(alloc: Global, row: &PairRow, stack: &mut Rows<Value>) -> Result<Value, StepError>
    requires { Fits (pair_step (pair_row row.now)) stack.old }
    ensures { Gives (pair_step (pair_row row.now)) stack.old stack.new result }
{
    match row {
        PairRow::Pair(count) => nothing(pair(alloc, *count, stack)),
        PairRow::Unpair(count) => nothing(unpair(*count, stack)),
        PairRow::Car => car(stack),
        PairRow::Cdr => cdr(stack),
        PairRow::GetPart(place) => get_part(alloc, *place, stack),
        PairRow::UpdatePart(place) => update_part(alloc, *place, stack),
    }
}

/// What making and taking apart pairs makes of a stack (Michelson reference, "Operations on pairs").
#[tactic(auto, using(mich_stack::proofs::ForCallers::given_gone, mich_stack::proofs::ForCallers::given_ends))]
pub fn pair_step<B: Burner>(
    alloc: Global,
    row: &PairRow,
    stack: &mut Rows<Value>,
    burner: &mut B,
) -> Result<(), StepError>
    requires fits { Fits (pair_step (pair_row row.now)) stack.old }
    requires ready { B.ready burner.old (gone (pair_step (pair_row row.now) (plain stack.old))) }
    ensures ends { Ends (pair_step (pair_row row.now)) stack.old stack.new result }
    ensures tells { IfOk result (λ _. B.told burner.new ≡ B.told burner.old ++ gone (pair_step (pair_row row.now) (plain stack.old))) }
    ensures stays_ready { IfOk result (λ _. StaysReady B.ready burner.old burner.new (gone (pair_step (pair_row row.now) (plain stack.old)))) }
{
    match give_pairs(alloc, row, stack) {
        Ok(given) => {
            discard(alloc, given, burner)?;
            Ok(())
        }
        Err(error) => Err(error),
    }
}
