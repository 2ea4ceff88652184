// TRANSFER_TOKENS, EMIT, CONTRACT and VIEW.
ghost use Rattle.std.specs.Prelude.{false, ◌≡◌, ◌<◌, ◌+◌, ◌∷◌, pos, IfOk, option_map};
ghost use Rattle.rules_text.specs.nodes.Tree.{Tree};
ghost use Rattle.rules_data.specs.values.Val.{number, bytes};
ghost use Rattle.rules_code.specs.instructions.Straight.{on_operations};
ghost use Rattle.rules_code.specs.instructions.Straight as i;
ghost use Rattle.rules_code.specs.steps.Step.{optional};
ghost use Rattle.mich_base.specs.TypeView.{kind};
ghost use Rattle.mich_forms.specs.Spelled.{address_bytes};
ghost use Rattle.mich_instr.specs.Code as made;
ghost use Rattle.mich_overload.specs.Steps.{in_step};
ghost use Rattle.mich_overload.specs.View.{operation_row};
ghost use Rattle.mich_stack.specs.Views.{Sight, seen};
ghost use Rattle.mich_interpreter.specs.View.{tops};
ghost use Rattle.mich_interpreter.specs.Issues.{KeepsScripts, IsCounted};
ghost use Rattle.mich_interpreter.specs.Parts.{HasAmount};
ghost use Rattle.mich_interpreter.specs.Ends.{Comes, Carries, ComesIn, CarriesIn, Spends, KeepsAct};

use crate::act::{Act, Failed};
use crate::lookups::contract_of;
use crate::paying::pay;
use crate::stack::{pop, pop_address, push};
use crate::viewing::act_view;
use mich_base::{Bytes, Link, Memory, OPERATION_LIMIT, Rows, Text, Ty, copy_type};
use mich_check::cache::Bodies;
use mich_forms::{Address, Entrypoint};
use mich_gas::{Costs, Kind};
use mich_ops::Issued;
use mich_overload::OperationRow;
use mich_state::{Counts, State};
use mich_term::Value;
use mich_world::World;
use std::alloc::Global;

// Takes the amount of mutez on top.
pub(crate) fn pop_amount(stack: &mut Rows<Value>) -> u64
    requires { (big : Sight) × HasAmount (tops big stack.old) }
    ensures { (big : Sight) → tops big stack.old ≡ number (pos result) ∷ tops big stack.new }
{
    let Some(Value::Number(amount)) = stack.pop() else {
        unreachable!();
    };
    match u64::try_from(amount) {
        Ok(mutez) => mutez,
        Err(_) => unreachable!(),
    }
}

// Counts one more operation, and gives its number. None where there are as many as there may be.
pub(crate) fn count_operation(counts: &mut Counts) -> Option<u32>
    ensures number { IsCounted result counts.old.issued counts.new.issued }
    ensures others { (counts.new.originated ≡ counts.old.originated) × (counts.new.group ≡ counts.old.group) }
{
    let number = counts.issued;
    if number >= OPERATION_LIMIT {
        return None;
    }
    counts.issued += 1;
    Some(number)
}

fn act_transfer(m: &mut State, costs: &Costs) -> Result<Act, Memory>
    requires { (app : Tree) × Comes (made.straight (on_operations i.transfer_tokens) app) costs.now m.old }
    ensures acts { (app : Tree) → Carries (made.straight (on_operations i.transfer_tokens) app) costs.now m.old m.new result }
    ensures less { IfOk result (λ a. Spends a m.old.meter m.new.meter) }
    ensures ledger { m.new.ledger ≡ m.old.ledger }
    ensures group { m.new.counts.group ≡ m.old.counts.group }
    ensures scripts { IfOk result (λ _. KeepsScripts m.old.issued m.new.issued) }
{
    if !pay(&mut m.meter, costs, Kind::TransferTokens, 0) {
        return Ok(Act::Failed(Failed::OutOfGas));
    }
    let argument = pop(&mut m.stack);
    let amount = pop_amount(&mut m.stack);
    let to = pop_address(&mut m.stack);
    let Some(number) = count_operation(&mut m.counts) else {
        return Ok(Act::Failed(Failed::TooManyOperations));
    };
    m.issued.push(Issued::Transfer {
        number,
        argument,
        amount,
        to,
    })?;
    push(&mut m.stack, Value::Operation(number))?;
    Ok(Act::On)
}

fn act_emit(alloc: Global, m: &mut State, costs: &Costs, tag: &Text, ty: &Ty) -> Result<Act, Memory>
    requires { (app : Tree) × Comes (made.straight (on_operations (i.emit tag.now (kind ty.now))) app) costs.now m.old }
    ensures acts { (app : Tree) → Carries (made.straight (on_operations (i.emit tag.now (kind ty.now))) app) costs.now m.old m.new result }
    ensures less { IfOk result (λ a. Spends a m.old.meter m.new.meter) }
    ensures ledger { m.new.ledger ≡ m.old.ledger }
    ensures group { m.new.counts.group ≡ m.old.counts.group }
    ensures scripts { IfOk result (λ _. KeepsScripts m.old.issued m.new.issued) }
{
    if !pay(&mut m.meter, costs, Kind::Emit, 0) {
        return Ok(Act::Failed(Failed::OutOfGas));
    }
    let value = pop(&mut m.stack);
    let Some(number) = count_operation(&mut m.counts) else {
        return Ok(Act::Failed(Failed::TooManyOperations));
    };
    let tag = tag.copy(alloc)?;
    let ty = copy_type(alloc, ty)?;
    m.issued.push(Issued::Event {
        number,
        tag,
        ty,
        value,
    })?;
    push(&mut m.stack, Value::Operation(number))?;
    Ok(Act::On)
}

// An address, or none, as a value.
fn optional_address(alloc: Global, address: Option<Address>) -> Result<Value, Memory>
    ensures { IfOk result (λ v. (big : Sight) → seen big v ≡ optional (option_map bytes (option_map address_bytes address))) }
{
    let Some(address) = address else {
        return Ok(Value::None);
    };
    let spelled = Value::Bytes(Bytes::from_slice(alloc, address.bytes().as_slice())?);
    let part = Link::new(alloc, spelled)?;
    Ok(Value::Some(part))
}

fn act_contract(
    alloc: Global,
    m: &mut State,
    costs: &Costs,
    world: &World,
    annotation: Entrypoint,
    ty: &Ty,
) -> Result<Act, Memory>
    requires { (app : Tree) × ComesIn world.now (made.straight (on_operations (i.contract annotation (kind ty.now))) app) costs.now m.old }
    ensures acts { (app : Tree) → CarriesIn world.now (made.straight (on_operations (i.contract annotation (kind ty.now))) app) costs.now m.old m.new result }
    ensures less { IfOk result (λ a. Spends a m.old.meter m.new.meter) }
    ensures ledger { m.new.ledger ≡ m.old.ledger }
    ensures counts { m.new.counts ≡ m.old.counts }
    ensures issued { m.new.issued ≡ m.old.issued }
{
    if !pay(&mut m.meter, costs, Kind::Contract, 0) {
        return Ok(Act::Failed(Failed::OutOfGas));
    }
    let address = pop_address(&mut m.stack);
    let found = contract_of(world, annotation, ty, &address);
    let value = optional_address(alloc, found)?;
    push(&mut m.stack, value)?;
    Ok(Act::On)
}

// An instruction on operations and contracts that isn't in a step.
#[tactic(auto, using(crate::proofs::Keeping::acts_group, crate::proofs::Keeping::acts_same))]
pub(crate) fn act_operation(
    alloc: Global,
    m: &mut State,
    costs: &Costs,
    world: &World,
    bodies: &mut Bodies,
    row: &OperationRow,
) -> Result<Act, Memory>
    requires apart { in_step (on_operations (operation_row row.now)) ≡ false }
    requires comes { (app : Tree) × ComesIn world.now (made.straight (on_operations (operation_row row.now)) app) costs.now m.old }
    ensures acts { (app : Tree) → CarriesIn world.now (made.straight (on_operations (operation_row row.now)) app) costs.now m.old m.new result }
    ensures less { IfOk result (λ a. Spends a m.old.meter m.new.meter) }
    ensures keeps { IfOk result (λ a. KeepsAct a m.old m.new) }
{
    match row {
        OperationRow::TransferTokens => Ok(act_transfer(m, costs)?),
        OperationRow::Emit(tag, ty) => Ok(act_emit(alloc, m, costs, tag, ty)?),
        OperationRow::Contract(annotation, ty) => {
            Ok(act_contract(alloc, m, costs, world, *annotation, ty)?)
        }
        OperationRow::View(name, input, output) => {
            Ok(act_view(alloc, m, costs, world, name, input, output)?)
        }
        OperationRow::Address | OperationRow::ImplicitAccount => unreachable!(),
    }
}
