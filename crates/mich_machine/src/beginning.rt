// How a run begins.
ghost use Rattle.std.specs.Prelude.{◌≡◌, [], ◌∷◌, Bool, IfOk, Some, is_some, true, map};
ghost use Rattle.rules_data.specs.types.Entrypoints.{find_entry};
ghost use Rattle.rules_world.specs.world.Targets.{wrapped};
ghost use Rattle.mich_types.specs.Entered.{entry_of};
ghost use Rattle.mich_stack.specs.Views.{Sight, seen};
ghost use Rattle.mich_tickets.specs.Books.{fresh, no_books};
ghost use Rattle.mich_world.specs.World.{with_ledger};
ghost use Rattle.mich_machine.specs.Begins.{IsOpening, entries_of, code_of};

use crate::lending::take_ledger;
use mich_base::{Link, Memory, Rows};
use mich_forms::Entrypoint;
use mich_gas::Meter;
use mich_instr::Block;
use mich_interpreter::{Counts, State};
use mich_step::Env;
use mich_term::{Value, shadow};
use mich_types::entrypoint;
use mich_world::{Contract, World};
use std::alloc::Global;

// A value on one side of a union.
fn on_side(alloc: Global, right: bool, value: Value) -> Result<Value, Memory>
    ensures { IfOk result (λ v. (big : Sight) → seen big v ≡ wrapped (right ∷ []) (seen big value)) }
{
    let value = Link::new(alloc, value)?;
    if right {
        Ok(Value::Right(value))
    } else {
        Ok(Value::Left(value))
    }
}

// An argument of the entrypoint at a path as one of the whole parameter.
fn wrap(alloc: Global, path: &Rows<bool>, argument: Value) -> Result<Value, Memory>
    ensures { IfOk result (λ v. (big : Sight) → seen big v ≡ wrapped path.now (seen big argument)) }
{
    let mut whole = argument;
    let mut at = path.len();
    'steps: while at > 0 {
        at -= 1;
        whole = on_side(alloc, *path.at(at), whole)?;
    }
    Ok(whole)
}

// The code of a contract, and the one value before it: the argument for the whole parameter, and the storage.
pub(crate) fn opening(
    alloc: Global,
    contract: &Contract,
    name: &Entrypoint,
    argument: Value,
) -> Result<(Block, Value), Memory>
    requires { is_some (find_entry name.now (entries_of contract.now.script)) ≡ true }
    ensures code { IfOk result (λ r. r.0 ≡ code_of contract.now.script) }
    ensures value { IfOk result (λ r. IsOpening contract.now name.now argument r.1) }
{
    let script = contract.script.get();
    let Some(entry) = entrypoint(&script.parameter, name) else {
        unreachable!();
    };
    let whole = Link::new(alloc, wrap(alloc, &entry.path, argument)?)?;
    let storage = Link::new(alloc, shadow(alloc, &contract.storage)?)?;
    let code = script.code.share()?;
    Ok((code, Value::Pair(whole, storage)))
}

// What a run begins with: its one value, and the ledger of the world, which has an empty one in its place.
pub(crate) fn state(
    alloc: Global,
    world: &mut World,
    meter: &Meter,
    counts: &Counts,
    env: &Env,
    value: Value,
) -> Result<State, Memory>
    ensures stack { IfOk result (λ m. m.stack ≡ value ∷ []) }
    ensures meter { IfOk result (λ m. m.meter ≡ meter.now) }
    ensures counts { IfOk result (λ m. m.counts ≡ counts.now) }
    ensures env { IfOk result (λ m. m.env ≡ env.entry.now) }
    ensures ledger { IfOk result (λ m. m.ledger ≡ record { books = world.old.ledger.books; changes = [] }) }
    ensures issued { IfOk result (λ m. m.issued ≡ []) }
    ensures world { IfOk result (λ _. world.new ≡ with_ledger world.old (fresh no_books)) }
{
    let mut stack = Rows::new(alloc);
    stack.push(value)?;
    Ok(State {
        stack,
        meter: Meter::new(meter.left()),
        counts: Counts {
            issued: counts.issued,
            originated: counts.originated,
            group: counts.group,
        },
        env: *env,
        ledger: take_ledger(alloc, world),
        issued: Rows::new(alloc),
    })
}
