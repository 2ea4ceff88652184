// The run of a contract.
ghost use Rattle.std.specs.Prelude.{◌≡◌, IfOk};
ghost use Rattle.mich_bigmap.specs.Extended.{Extends};
ghost use Rattle.mich_bigmap.specs.Layers.{HasBases};
ghost use Rattle.mich_gas.specs.View.{listed};
ghost use Rattle.mich_machine.specs.Calls.{Calls, EndsAsCall, IsHosting, WithMemory};
ghost use Rattle.mich_term.specs.Layers.{AreFormed};
ghost use Rattle.mich_world.specs.Marks.{KeepsWorld};
ghost use Rattle.rules_world.specs.world.Targets.{Target};
ghost use Rattle.rules_world.specs.world.World.{World as PlainWorld};

use crate::beginning::{opening, state};
use crate::ending::finish;
use crate::lending::put_ledger;
use crate::telling::tell;
use mich_base::{Memory, Rows};
use mich_forms::Entrypoint;
use mich_gas::{Costs, Meter};
use mich_interpreter::{Bodies, Counts, Ended, State, run_code};
use mich_ops::{Failure, Issued};
use mich_step::Env;
use mich_term::{Change, Value};
use mich_world::World;
use std::alloc::Global;

/// What a run that came to its end leaves: the operations that it returned, and its changes of tickets, each in order.
#[derive(Drop)]
pub struct Finished {
    pub returned: Rows<Issued>,
    pub changes: Rows<Change>,
}

/// Why a run doesn't come to its end: a failure of its code, or of what it returned; or there was no room for it.
#[derive(Debug, Drop)]
pub enum RunError {
    Failed(Failure),
    Memory,
}

impl From<Memory> for RunError {
    ghost use Rattle.mich_machine.specs.declared.running.RunError.{RunError};

    ghost from_gives = { λ _ e. e ≡ RunError.Memory };

    fn from(error: Memory) -> RunError {
        drop(error);
        RunError::Memory
    }
}

/// The run of an entrypoint of a contract with an argument, in a world in which its mutez are with the contract already: the new
/// storage is kept, and what the run returned and changed is handed out. Failed exactly where the code's evaluation fails, or where an
/// operation is returned twice; the world can then be taken back to an earlier mark. After Memory the world is given up
/// (Michelson reference, "Semantics of smart contracts and transactions"; Octez "Operations", internal operations).
pub fn run(
    alloc: Global,
    world: &mut World,
    costs: &Costs,
    meter: &mut Meter,
    counts: &mut Counts,
    bodies: &mut Bodies,
    to: &[u8; 20],
    name: &Entrypoint,
    argument: Value,
    env: &Env,
) -> Result<Finished, RunError>
    requires called { (w : PlainWorld) × (t : Target) × Calls world.old w (listed costs.now) counts.old to.now name.now argument env.now t }
    requires hosting { IsHosting world.old }
    requires formed { AreFormed argument }
    requires based { HasBases world.old.store.bases.present argument }
    ensures ends { EndsAsCall world.old (listed costs.entry.now) to.entry.now name.entry.now argument env.entry.now meter.old counts.old world.new meter.new counts.new result }
    ensures hosting { IfOk result (λ _. IsHosting world.new) }
    ensures bases { IfOk result (λ _. Extends world.old.store.bases.present world.new.store.bases.present) }
    ensures keeps { WithMemory result (KeepsWorld world.old world.new) }
{
    let Some(contract) = world.contract(to) else {
        unreachable!();
    };
    let (code, value) = opening(alloc, contract, name, argument)?;
    let begun = state(alloc, world, meter, counts, env, value)?;
    match run_code(alloc, code, begun, costs, world, bodies)? {
        Ended::Stack(left) => {
            let State {
                stack,
                meter: gas,
                counts: counted,
                env: _,
                ledger,
                issued,
            } = left;
            put_ledger(world, ledger);
            *meter = gas;
            *counts = counted;
            finish(alloc, world, to, stack, issued)
        }
        Ended::Failed(left, why) => {
            put_ledger(world, left.ledger);
            Err(RunError::Failed(tell(alloc, why)?))
        }
    }
}
