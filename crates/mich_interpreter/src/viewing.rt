// VIEW.
ghost use Rattle.std.specs.Prelude.{◌≡◌, IfOk};
ghost use Rattle.mich_base.specs.TypeView.{kind};
ghost use Rattle.rules_data.specs.values.Val.{both};
ghost use Rattle.mich_stack.specs.Views.{Sight, seen};
ghost use Rattle.mich_interpreter.specs.Ends.{ComesView, CarriesView, Spends, KeepsAct};
ghost use Rattle.mich_interpreter.specs.Viewing.{env_at};

use crate::act::{Act, Failed, View};
use crate::burning::burn_value;
use crate::paying::pay;
use crate::stack::{pop, pop_address, push};
use crate::visits::{Visit, find_view};
use mich_base::{Boxed, Link, Memory, Text, Ty};
use mich_forms::Place;
use mich_gas::{Costs, Kind};
use mich_state::State;
use mich_step::Env;
use mich_term::Value;
use mich_world::World;
use std::alloc::Global;

// Where and for whom a view runs, by where its caller does.
fn env_at(env: &Env, hash: [u8; 20], balance: u64) -> Env
    ensures { result ≡ env_at env.entry.now hash balance }
{
    Env {
        chain: env.chain,
        level: env.level,
        now: env.now,
        source: env.source,
        sender: Place::Contract(env.me),
        me: hash,
        amount: 0,
        balance,
    }
}

// The view that opens on an input.
fn opening(alloc: Global, env: &Env, visit: Visit, input: Value) -> Result<Boxed<View>, Memory>
    ensures code { IfOk result (λ w. w.code ≡ visit.code) }
    ensures value { IfOk result (λ w. (big : Sight) → seen big w.value ≡ both (seen big input) (seen big visit.storage)) }
    ensures env { IfOk result (λ w. w.env ≡ env_at env.entry.now visit.hash visit.balance) }
{
    let env = env_at(env, visit.hash, visit.balance);
    let first = Link::new(alloc, input)?;
    let second = Link::new(alloc, visit.storage)?;
    let view = View {
        code: visit.code,
        value: Value::Pair(first, second),
        env,
    };
    let view = Boxed::new(alloc, view)?;
    Ok(view)
}

// Without a view the input is discarded, and its tickets are burnt.
pub(crate) fn act_view(
    alloc: Global,
    m: &mut State,
    costs: &Costs,
    world: &World,
    name: &Text,
    input: &Ty,
    output: &Ty,
) -> Result<Act, Memory>
    requires { ComesView world.now name.now (kind input.now) (kind output.now) costs.now m.old }
    ensures acts { CarriesView world.now name.now (kind input.now) (kind output.now) costs.now m.old m.new result }
    ensures less { IfOk result (λ a. Spends a m.old.meter m.new.meter) }
    ensures keeps { IfOk result (λ a. KeepsAct a m.old m.new) }
{
    if !pay(&mut m.meter, costs, Kind::View, 0) {
        return Ok(Act::Failed(Failed::OutOfGas));
    }
    let given = pop(&mut m.stack);
    let address = pop_address(&mut m.stack);
    match find_view(alloc, world, &address, name, input, output)? {
        Some(found) => {
            let view = opening(alloc, &m.env, found, given)?;
            Ok(Act::View(view))
        }
        None => {
            burn_value(alloc, &mut m.ledger, given)?;
            push(&mut m.stack, Value::None)?;
            Ok(Act::On)
        }
    }
}
