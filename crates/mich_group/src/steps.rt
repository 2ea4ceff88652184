// The next operation.
ghost use Rattle.std.specs.Prelude.{◌≡◌, ◌∷◌, ◌++◌, [], Ok, true, false, IfOk, OnOk};
ghost use Rattle.mich_machine.specs.Calls.{IsHosting};
ghost use Rattle.mich_world.specs.Marks.{KeepsWorld};
ghost use Rattle.mich_group.specs.Trees.{Acts, NoneWaits, SomeGoing, Steps, OnStep, alone, with_growth};
ghost use Rattle.mich_group.specs.Waiting.{AreHanded, all_sent};

use crate::waiting::{Sent, send};
use mich_base::{Memory, Rows};
use mich_forms::KeyHash;
use mich_gas::{Costs, Meter};
use mich_machine::{Bodies, Counts};
use mich_operations::{ApplyError, apply_action, apply_issued};
use mich_ops::{Action, Effect};
use mich_world::World;
use std::alloc::Global;

// Adds what an operation did, and the growth of its contract.
fn tell(effects: &mut Rows<Effect>, done: Effect, growth: Option<Effect>) -> Result<(), Memory>
    ensures { IfOk result (λ _. effects.new ≡ effects.old ++ with_growth done growth) }
{
    effects.push(done)?;
    if let Some(grew) = growth {
        effects.push(grew)?;
    }
    Ok(())
}

#[tactic(auto, using(crate::proofs::Stepping::begins_with, crate::proofs::Sending::handed_each))]
// Applies the action that a source orders, before which nothing waits.
pub(crate) fn apply_first(
    alloc: Global,
    world: &mut World,
    costs: &Costs,
    source: &KeyHash,
    meter: &mut Meter,
    counts: &mut Counts,
    bodies: &mut Bodies,
    action: &Action,
    waiting: &mut Rows<Sent>,
    effects: &mut Rows<Effect>,
) -> Result<(), ApplyError>
    requires nothing { waiting.old ≡ [] }
    requires goes { SomeGoing costs.now source.now (alone action.now) world.old counts.old }
    requires hosting { IsHosting world.old }
    ensures steps { Acts costs.entry.now source.entry.now action.entry.now world.old meter.old counts.old world.new meter.new counts.new waiting.new effects.old effects.new result }
    ensures group { OnOk result (counts.new.group ≡ counts.old.group) }
    ensures hosting { IfOk result (λ _. IsHosting world.new) }
    ensures handed { IfOk result (λ _. AreHanded world.new waiting.new) }
    ensures keeps { OnStep result (KeepsWorld world.old world.new) }
{
    let applied = apply_action(alloc, world, costs, source, meter, counts, bodies, action)?;
    tell(effects, applied.effect, applied.growth)?;
    send(waiting, applied.by, applied.emitted)?;
    Ok(())
}

#[tactic(auto, using(crate::proofs::Sending::handed_last, crate::proofs::Sending::handed_front))]
// Applies the operation that is next. False where none waits, and then nothing changes.
pub(crate) fn apply_next(
    alloc: Global,
    world: &mut World,
    costs: &Costs,
    source: &KeyHash,
    meter: &mut Meter,
    counts: &mut Counts,
    bodies: &mut Bodies,
    waiting: &mut Rows<Sent>,
    effects: &mut Rows<Effect>,
) -> Result<bool, ApplyError>
    requires goes { SomeGoing costs.now source.now (all_sent world.old.store.bases.present waiting.old) world.old counts.old }
    requires hosting { IsHosting world.old }
    requires handed { AreHanded world.old waiting.old }
    ensures none { result ≡ Ok false → NoneWaits waiting.old world.old meter.old counts.old effects.old waiting.new world.new meter.new counts.new effects.new }
    ensures steps { Steps costs.entry.now source.entry.now world.old waiting.old meter.old counts.old world.new meter.new counts.new waiting.new effects.old effects.new result }
    ensures group { OnOk result (counts.new.group ≡ counts.old.group) }
    ensures hosting { IfOk result (λ _. IsHosting world.new) }
    ensures handed { IfOk result (λ _. AreHanded world.new waiting.new) }
    ensures keeps { OnStep result (KeepsWorld world.old world.new) }
{
    let Some(next) = waiting.pop() else {
        return Ok(false);
    };
    let applied = apply_issued(
        alloc,
        world,
        costs,
        source,
        meter,
        counts,
        bodies,
        next.by,
        next.operation,
    )?;
    tell(effects, applied.effect, applied.growth)?;
    send(waiting, applied.by, applied.emitted)?;
    Ok(true)
}
