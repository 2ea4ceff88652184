// An operation with all that it emits.
ghost use Rattle.std.specs.Prelude.{◌≡◌, ◌∷◌, [], ◌<◌, ◌-◌, IfOk};
ghost use Rattle.mich_machine.specs.Calls.{IsHosting};
ghost use Rattle.mich_world.specs.Marks.{KeepsWorld};
ghost use Rattle.mich_group.specs.Trees.{SomeGoing, Walks, WalksOn, WithMemory, alone};
ghost use Rattle.mich_group.specs.Waiting.{AreHanded, all_sent};

use crate::steps::{apply_first, apply_next};
use crate::waiting::Sent;
use mich_base::{Memory, Rows};
use mich_forms::KeyHash;
use mich_gas::{Costs, Meter};
use mich_machine::{Bodies, Counts};
use mich_operations::ApplyError;
use mich_ops::{Action, Effect, Failure};
use mich_world::World;
use std::alloc::Global;

/// Why the operations of a content aren't all applied: one failed, behind so many that were applied, or there was no room.
#[derive(Debug, Drop)]
pub enum TreeError {
    Failed(u64, Failure),
    Memory,
}

impl From<Memory> for TreeError {
    ghost use Rattle.mich_group.specs.declared.tree.TreeError.{TreeError};

    ghost from_gives = { λ m e. e ≡ TreeError.Memory };

    fn from(error: Memory) -> TreeError {
        drop(error);
        TreeError::Memory
    }
}

#[tactic(auto, using(crate::proofs::Walks::failed_walk, mich_world::proofs::ForCallers::world_trans))]
// Applies the operations that wait, of which one was applied before; each takes a unit of gas or more.
fn apply_waiting(
    alloc: Global,
    world: &mut World,
    costs: &Costs,
    source: &KeyHash,
    meter: &mut Meter,
    counts: &mut Counts,
    bodies: &mut Bodies,
    gas: u64,
    waiting: &mut Rows<Sent>,
    effects: &mut Rows<Effect>,
) -> Result<(), TreeError>
    requires some { 0 < gas }
    requires goes { SomeGoing costs.now source.now (all_sent world.old.store.bases.present waiting.old) world.old counts.old }
    requires hosting { IsHosting world.old }
    requires handed { AreHanded world.old waiting.old }
    ensures walks { WalksOn costs.entry.now source.entry.now gas world.old waiting.old meter.old counts.old effects.old world.new meter.new counts.new effects.new result }
    ensures hosting { IfOk result (λ _. IsHosting world.new) }
    ensures keeps { WithMemory result (KeepsWorld world.old world.new) }
{
    for count in 1..gas {
        match apply_next(
            alloc, world, costs, source, meter, counts, bodies, waiting, effects,
        ) {
            Ok(true) => {}
            Ok(false) => return Ok(()),
            Err(ApplyError::Failed(why)) => return Err(TreeError::Failed(count, why)),
            Err(ApplyError::Memory) => return Err(TreeError::Memory),
        }
    }
    if waiting.is_empty() {
        Ok(())
    } else {
        Err(TreeError::Failed(gas, Failure::OutOfGas))
    }
}

#[tactic(auto, using(mich_world::proofs::ForCallers::world_trans))]
/// Applies an action that a source orders, and then all that it emits, depth first. The meter has the content's gas, and ends with
/// what is left; what was done is put behind the effects. Failed exactly where the rules say that one fails, with how many were applied
/// before; the world can then be taken back to an earlier mark. After Memory the world is given up (Octez "Operations", the order of
/// internal operations).
pub fn apply_tree(
    alloc: Global,
    world: &mut World,
    costs: &Costs,
    source: &KeyHash,
    meter: &mut Meter,
    counts: &mut Counts,
    bodies: &mut Bodies,
    action: &Action,
    effects: &mut Rows<Effect>,
) -> Result<(), TreeError>
    requires empty { effects.old ≡ [] }
    requires goes { SomeGoing costs.now source.now (alone action.now) world.old counts.old }
    requires hosting { IsHosting world.old }
    ensures walks { Walks costs.entry.now source.entry.now action.entry.now world.old meter.old counts.old world.new meter.new counts.new effects.new result }
    ensures hosting { IfOk result (λ _. IsHosting world.new) }
    ensures keeps { WithMemory result (KeepsWorld world.old world.new) }
{
    let gas = meter.left();
    if gas == 0 {
        return Err(TreeError::Failed(0, Failure::OutOfGas));
    }
    let mut waiting = Rows::new(alloc);
    match apply_first(
        alloc,
        world,
        costs,
        source,
        meter,
        counts,
        bodies,
        action,
        &mut waiting,
        effects,
    ) {
        Ok(()) => {}
        Err(ApplyError::Failed(why)) => return Err(TreeError::Failed(0, why)),
        Err(ApplyError::Memory) => return Err(TreeError::Memory),
    }
    apply_waiting(
        alloc,
        world,
        costs,
        source,
        meter,
        counts,
        bodies,
        gas,
        &mut waiting,
        effects,
    )
}
