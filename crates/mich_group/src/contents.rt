// The contents of a group in turn.
ghost use Rattle.std.specs.Prelude.{◌≡◌, ◌∷◌, [], ◌++◌, ◌≤◌, ◌<◌, ◌-◌, ◌+◌, length, map, replicate, false, IfOk, OnOk};
ghost use Rattle.std.specs.List.{All, list_any};
ghost use Rattle.rules_world.specs.world.Forms.{IsContent};
ghost use Rattle.rules_world.specs.world.Groups.{is_over_gas};
ghost use Rattle.rules_world.specs.world.World.{World as PlainWorld};
ghost use Rattle.mich_machine.specs.Calls.{counts_of, IsHosting};
ghost use Rattle.mich_ops.specs.View.{content as content_of};
ghost use Rattle.mich_ops.specs.declared.receipt.Status.TheVariants as status;
ghost use Rattle.mich_world.specs.Marks.{KeepsWorld};
ghost use Rattle.mich_group.specs.Trees.{Goes, setting_in};
ghost use Rattle.mich_group.specs.Turns.{ContentsEnd, OnApplied};

use crate::content::{Ended, apply_content, gas_of};
use mich_base::{Memory, Rows};
use mich_forms::KeyHash;
use mich_gas::Costs;
use mich_machine::{Bodies, Counts};
use mich_ops::{Content, Failure, Status};
use mich_world::World;
use std::alloc::Global;

// How the contents of a group end: each was applied, or one failed; with the status of each.
#[derive(Debug, Drop)]
pub(crate) enum Turn {
    Applied(Rows<Status>),
    Failed(Rows<Status>),
}

#[tactic(auto, using(crate::proofs::Turns::one_more, crate::proofs::Turns::one_behind))]
// The statuses where a content failed behind some, and before others.
fn broken(
    alloc: Global,
    before: usize,
    count: u64,
    why: Failure,
    behind: usize,
) -> Result<Rows<Status>, Memory>
    ensures { IfOk result (λ ss. ss ≡ replicate before status.Backtracked ++ status.Failed count why ∷ replicate behind status.Skipped) }
{
    let mut statuses = Rows::new(alloc);
    for back in 0..before {
        let _back = back;
        statuses.push(Status::Backtracked)?;
    }
    statuses.push(Status::Failed(count, why))?;
    for skip in 0..behind {
        let _skip = skip;
        statuses.push(Status::Skipped)?;
    }
    Ok(statuses)
}

#[tactic(auto, using(crate::proofs::Turns::all_turned, mich_world::proofs::ForCallers::world_trans))]
// Applies the contents of a group, each with gas of its own, until one fails.
pub(crate) fn apply_contents(
    alloc: Global,
    world: &mut World,
    costs: &Costs,
    source: &KeyHash,
    counts: &mut Counts,
    bodies: &mut Bodies,
    contents: &[Content],
) -> Result<Turn, Memory>
    requires goes { (start w : PlainWorld) × Goes start (setting_in costs.now counts.old source.now) 0 world.old w [] (counts_of counts.old) }
    requires few { length contents.now ≤ 1000 }
    requires forms { All IsContent (map content_of contents.now) }
    requires gas { list_any is_over_gas (map content_of contents.now) ≡ false }
    requires hosting { IsHosting world.old }
    ensures turns { ContentsEnd costs.entry.now source.entry.now contents.now world.old counts.old world.new result }
    ensures hosting { OnApplied result (IsHosting world.new) }
    ensures keeps { OnOk result (KeepsWorld world.old world.new) }
{
    let mut statuses = Rows::new(alloc);
    for (index, content) in contents.iter().enumerate() {
        match apply_content(
            alloc,
            world,
            costs,
            source,
            counts,
            bodies,
            content,
            gas_of(content),
        )? {
            Ended::Applied(used, effects) => statuses.push(Status::Applied(used, effects))?,
            Ended::Failed(count, why) => {
                return Ok(Turn::Failed(broken(
                    alloc,
                    index,
                    count,
                    why,
                    contents.len() - index - 1,
                )?));
            }
        }
    }
    Ok(Turn::Applied(statuses))
}
