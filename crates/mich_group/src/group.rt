// Groups.
ghost use Rattle.std.specs.Prelude.{◌≡◌, ◌≢◌, ◌≤◌, [], length, false, IfOk, OnOk, Ok};
ghost use Rattle.std.specs.List.{All, list_any};
ghost use Rattle.rules_world.specs.world.Forms.{IsContent};
ghost use Rattle.rules_world.specs.world.Groups.{all_fees, is_over_gas, setting_of};
ghost use Rattle.rules_world.specs.world.Laws.{IsGroup};
ghost use Rattle.rules_world.specs.world.Outcomes.{no_counts};
ghost use Rattle.rules_world.specs.world.World.{World as PlainWorld};
ghost use Rattle.mich_gas.specs.View.{listed};
ghost use Rattle.mich_machine.specs.Calls.{IsHosting};
ghost use Rattle.mich_ops.specs.View.{contents as contents_of};
ghost use Rattle.mich_ops.specs.declared.receipt.GroupReceipt.TheVariants as receipt;
ghost use Rattle.mich_ops.specs.declared.receipt.GroupFault.{GroupFault};
ghost use Rattle.mich_forms.specs.declared.places.Place.TheVariants as place;
ghost use Rattle.mich_world.specs.Holders.{balance_or_none};
ghost use Rattle.mich_world.specs.Marks.{KeepsWorld};
ghost use Rattle.mich_world.specs.Standing.{StandsFor};
ghost use Rattle.mich_group.specs.Settled.{Settles, SettlesAdmitted, TakesFees};
ghost use Rattle.mich_group.specs.Trees.{Goes};

use crate::contents::{Turn, apply_contents};
use crate::refusal::admit;
use mich_base::Memory;
use mich_gas::Costs;
use mich_machine::{Bodies, Counts};
use mich_ops::{Group, GroupReceipt};
use mich_world::{MoveError, World};
use std::alloc::Global;

#[tactic(auto, using(crate::proofs::Fees::fees_went, mich_operations::proofs::ForCallers::hosting_fee))]
// Takes the fees of a group that isn't refused.
fn take_fees(world: &mut World, group: &Group, fees: u64) -> Result<(), Memory>
    requires all { fees ≡ all_fees (contents_of group.now) }
    requires covered { fees ≤ balance_or_none world.old.funds.present (place.Implicit group.now.source) }
    ensures goes { TakesFees world.old group.now.source (contents_of group.now) world.new result }
    ensures hosting { IsHosting world.old → IfOk result (λ _. IsHosting world.new) }
    ensures keeps { KeepsWorld world.old world.new }
{
    match world.take_fee(group.source, fees) {
        Ok(()) => Ok(()),
        Err(MoveError::Memory) => Err(Memory),
        Err(MoveError::BalanceTooLow | MoveError::NoContract) => unreachable!(),
    }
}

// Applies the contents of a group whose fees were taken, all or none.
fn apply_admitted(
    alloc: Global,
    world: &mut World,
    costs: &Costs,
    number: u64,
    group: &Group,
    bodies: &mut Bodies,
) -> Result<GroupReceipt, Memory>
    requires goes { (start w : PlainWorld) × Goes start (setting_of (listed costs.now) number group.now.source) 0 world.old w [] no_counts }
    requires few { length (contents_of group.now) ≤ 1000 }
    requires forms { All IsContent (contents_of group.now) }
    requires gas { list_any is_over_gas (contents_of group.now) ≡ false }
    requires hosting { IsHosting world.old }
    ensures settled { SettlesAdmitted (listed costs.entry.now) number group.entry.now.source (contents_of group.entry.now) world.old world.new result }
    ensures done { (fault : GroupFault) → result ≢ Ok (receipt.Refused fault) }
    ensures hosting { OnOk result (IsHosting world.new) }
    ensures keeps { OnOk result (KeepsWorld world.old world.new) }
{
    let mark = world.mark();
    let mut counts = Counts {
        issued: 0,
        originated: 0,
        group: number,
    };
    match apply_contents(
        alloc,
        world,
        costs,
        &group.source,
        &mut counts,
        bodies,
        group.contents.as_slice(),
    )? {
        Turn::Applied(statuses) => Ok(GroupReceipt::Done(statuses)),
        Turn::Failed(statuses) => {
            world.undo_to(mark);
            Ok(GroupReceipt::Done(statuses))
        }
    }
}

#[tactic(auto, using(crate::proofs::Fees::settled_refused, crate::proofs::Fees::settled_admitted, mich_world::proofs::ForCallers::world_trans))]
/// Applies a group of a number, in a good world that has no contract of this number: it is refused, or its fees are taken, and then its
/// contents are applied in turn, all of them or none. The receipt is the rules', and the world stands for the one that the rules give.
/// A group that is refused leaves the world as it is. After Memory the world is given up (Octez "Operations", batches).
pub fn apply_group(
    alloc: Global,
    world: &mut World,
    costs: &Costs,
    number: u64,
    group: &Group,
    bodies: &mut Bodies,
) -> Result<GroupReceipt, Memory>
    requires good { (w : PlainWorld) × StandsFor world.old w × IsGroup (listed costs.now) number group.now.source (contents_of group.now) w }
    requires hosting { IsHosting world.old }
    ensures settled { Settles (listed costs.entry.now) number group.entry.now.source (contents_of group.entry.now) world.old world.new result }
    ensures refused { (fault : GroupFault) → result ≡ Ok (receipt.Refused fault) → world.new ≡ world.old }
    ensures hosting { OnOk result (IsHosting world.new) }
    ensures keeps { OnOk result (KeepsWorld world.old world.new) }
{
    let fees = match admit(world, group) {
        Ok(fees) => fees,
        Err(fault) => return Ok(GroupReceipt::Refused(fault)),
    };
    take_fees(world, group, fees)?;
    apply_admitted(alloc, world, costs, number, group, bodies)
}
