// One content.
ghost use Rattle.std.specs.Prelude.{◌≡◌, ◌∷◌, ◌≤◌, pos, ◌≤ℤ◌, unsigned_abs, OnOk};
ghost use Rattle.rules_text.specs.nodes.Limits.{most_gas};
ghost use Rattle.mich_machine.specs.Calls.{IsHosting};
ghost use Rattle.mich_world.specs.Marks.{KeepsWorld};
ghost use Rattle.mich_group.specs.Trees.{SomeGoing, alone};
ghost use Rattle.mich_group.specs.Turns.{ContentEnds, OnEnded};

use crate::tree::{TreeError, apply_tree};
use mich_base::{Memory, Rows};
use mich_forms::KeyHash;
use mich_gas::{Costs, Meter};
use mich_machine::{Bodies, Counts};
use mich_ops::{Content, Effect, Failure};
use mich_world::World;
use std::alloc::Global;

// How a content ends: all its operations were applied, with the gas that they used and what they did; or one failed, behind so many.
#[derive(Debug, Drop)]
pub(crate) enum Ended {
    Applied(u64, Rows<Effect>),
    Failed(u64, Failure),
}

// The gas of a content that has no more than it may have.
pub(crate) fn gas_of(content: &Content) -> u64
    requires least { pos 0 ≤ℤ content.now.gas }
    requires most { content.now.gas ≤ℤ pos most_gas }
    ensures { result ≡ unsigned_abs content.now.gas }
{
    content.gas as u64
}

// Applies a content with so much gas.
pub(crate) fn apply_content(
    alloc: Global,
    world: &mut World,
    costs: &Costs,
    source: &KeyHash,
    counts: &mut Counts,
    bodies: &mut Bodies,
    content: &Content,
    gas: u64,
) -> Result<Ended, Memory>
    requires goes { SomeGoing costs.now source.now (alone content.now.action) world.old counts.old }
    requires hosting { IsHosting world.old }
    ensures ends { ContentEnds costs.entry.now source.entry.now content.entry.now.action gas world.old counts.old world.new counts.new result }
    ensures hosting { OnEnded result (IsHosting world.new) }
    ensures keeps { OnOk result (KeepsWorld world.old world.new) }
{
    let mut meter = Meter::new(gas);
    let mut effects = Rows::new(alloc);
    match apply_tree(
        alloc,
        world,
        costs,
        source,
        &mut meter,
        counts,
        bodies,
        &content.action,
        &mut effects,
    ) {
        Ok(()) => Ok(Ended::Applied(gas.saturating_sub(meter.left()), effects)),
        Err(TreeError::Failed(count, why)) => Ok(Ended::Failed(count, why)),
        Err(TreeError::Memory) => Err(Memory),
    }
}
