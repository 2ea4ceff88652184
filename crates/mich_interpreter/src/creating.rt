// CREATE_CONTRACT.
ghost use Rattle.std.specs.Prelude.{◌≡◌, ◌<◌, ◌+◌, ◌∷◌, IfOk};
ghost use Rattle.rules_text.specs.nodes.Limits.{most_contents};
ghost use Rattle.rules_data.specs.forms.Spelling.{contract_place};
ghost use Rattle.rules_data.specs.values.Val.{bytes};
ghost use Rattle.rules_code.specs.evaluation.Operations.{new_contract};
ghost use Rattle.mich_instr.specs.Code as made;
ghost use Rattle.mich_instr.specs.View.{script_code};
ghost use Rattle.mich_frames.specs.Shapes.{delegate_value};
ghost use Rattle.mich_stack.specs.Views.{Sight, seen};
ghost use Rattle.mich_interpreter.specs.Ends.{Comes, Carries, Spends};
ghost use Rattle.mich_interpreter.specs.Issues.{KeepsScripts};
ghost use Rattle.mich_interpreter.specs.Parts.{HasDelegate, IsSpelledKeyHash};
ghost use Rattle.mich_interpreter.specs.View.{tops};

use crate::act::{Act, Failed};
use crate::contracts::new_contract;
use crate::issuing::{count_operation, pop_amount};
use crate::paying::pay;
use crate::stack::{pop, push};
use mich_base::{Bytes, Memory, Rows, Shared};
use mich_forms::{KeyHash, Place};
use mich_gas::{Costs, Kind};
use mich_instr::Script;
use mich_ops::Issued;
use mich_state::{Counts, State};
use mich_term::Value;
use std::alloc::Global;

// The key hash that bytes spell.
fn key_hash_of(value: Value) -> KeyHash
    requires { (big : Sight) × IsSpelledKeyHash (seen big value) }
    ensures { (big : Sight) → seen big value ≡ bytes result }
{
    let Value::Bytes(spelled) = value else {
        unreachable!();
    };
    match KeyHash::read(spelled.as_slice()) {
        Some(key_hash) => key_hash,
        None => unreachable!(),
    }
}

// Takes the delegate on top, if there is one.
fn pop_delegate(stack: &mut Rows<Value>) -> Result<Option<KeyHash>, Memory>
    requires { (big : Sight) × HasDelegate (tops big stack.old) }
    ensures { IfOk result (λ hash. (big : Sight) → tops big stack.old ≡ delegate_value hash ∷ tops big stack.new) }
{
    match stack.pop() {
        Some(Value::None) => Ok(None),
        Some(Value::Some(value)) => Ok(Some(key_hash_of(value.into_value()?))),
        _ => unreachable!(),
    }
}

// Counts one more origination, and gives the 20 bytes of its contract.
fn count_origination(counts: &mut Counts) -> [u8; 20]
    requires { counts.old.originated < counts.old.issued + most_contents }
    ensures hash { result ≡ new_contract counts.old.group counts.old.originated }
    ensures more { counts.new.originated ≡ counts.old.originated + 1 }
    ensures others { (counts.new.issued ≡ counts.old.issued) × (counts.new.group ≡ counts.old.group) }
{
    let hash = new_contract(counts.group, counts.originated);
    counts.originated += 1;
    hash
}

// The address of a contract as a value.
fn contract_value(alloc: Global, hash: [u8; 20]) -> Result<Value, Memory>
    ensures { IfOk result (λ v. (big : Sight) → seen big v ≡ bytes (contract_place hash)) }
{
    let place = Place::Contract(hash);
    Ok(Value::Bytes(Bytes::from_slice(alloc, place.bytes().as_slice())?))
}

pub(crate) fn act_create(
    alloc: Global,
    m: &mut State,
    costs: &Costs,
    script: &Shared<Script>,
) -> Result<Act, Memory>
    requires { Comes (made.create_contract (script_code script.now)) costs.now m.old }
    ensures acts { Carries (made.create_contract (script_code script.now)) costs.now m.old m.new result }
    ensures less { IfOk result (λ a. Spends a m.old.meter m.new.meter) }
    ensures ledger { m.new.ledger ≡ m.old.ledger }
    ensures group { m.new.counts.group ≡ m.old.counts.group }
    ensures scripts { IfOk result (λ _. KeepsScripts m.old.issued m.new.issued) }
{
    if !pay(&mut m.meter, costs, Kind::CreateContract, 0) {
        return Ok(Act::Failed(Failed::OutOfGas));
    }
    let delegate = pop_delegate(&mut m.stack)?;
    let amount = pop_amount(&mut m.stack);
    let storage = pop(&mut m.stack);
    let Some(number) = count_operation(&mut m.counts) else {
        return Ok(Act::Failed(Failed::TooManyOperations));
    };
    let hash = count_origination(&mut m.counts);
    let script = script.share()?;
    m.issued.push(Issued::Origination {
        number,
        delegate,
        amount,
        script,
        storage,
        hash,
    })?;
    let address = contract_value(alloc, hash)?;
    push(&mut m.stack, address)?;
    push(&mut m.stack, Value::Operation(number))?;
    Ok(Act::On)
}
