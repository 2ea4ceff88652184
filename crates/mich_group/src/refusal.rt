// Why a group is refused.
ghost use Rattle.std.specs.Prelude.{◌≡◌, ◌≤◌, true, false, map, IfOk};
ghost use Rattle.std.specs.List.{list_any};
ghost use Rattle.rules_world.specs.world.Groups.{all_fees, is_over_gas};
ghost use Rattle.mich_forms.specs.declared.places.Place.TheVariants as place;
ghost use Rattle.mich_ops.specs.View.{content as content_of, contents as contents_of};
ghost use Rattle.mich_world.specs.Holders.{balance_or_none};
ghost use Rattle.mich_group.specs.Settled.{IsAdmitted};

use mich_base::MOST_GAS;
use mich_forms::Place;
use mich_ops::{Content, Group, GroupFault};
use mich_world::World;

// All fees together.
pub(crate) fn all_fees(contents: &[Content]) -> u128
    ensures { result ≡ all_fees (map content_of contents.now) }
{
    let mut sum: u128 = 0;
    for content in contents {
        sum += u128::from(content.fee);
    }
    sum
}

// Whether a content has more gas than it may have.
fn is_over(contents: &[Content]) -> bool
    ensures { result ≡ list_any is_over_gas (map content_of contents.now) }
{
    for content in contents {
        if content.gas > MOST_GAS {
            return true;
        }
    }
    false
}

#[tactic(auto, using(crate::proofs::Fees::unknown, crate::proofs::Fees::too_high, crate::proofs::Fees::too_poor, crate::proofs::Fees::not_refused))]
// The fees of a group together, or why it is refused: the first reason that holds.
pub(crate) fn admit(world: &World, group: &Group) -> Result<u64, GroupFault>
    ensures fees { IfOk result (λ fees. fees ≡ all_fees (contents_of group.now)) }
    ensures covered { IfOk result (λ fees. fees ≤ balance_or_none world.now.funds.present (place.Implicit group.now.source)) }
    ensures gas { IfOk result (λ _. list_any is_over_gas (contents_of group.now) ≡ false) }
    ensures refusal { IsAdmitted world.now group.now.source (contents_of group.now) result }
{
    let Some(balance) = world.balance(Place::Implicit(group.source)) else {
        return Err(GroupFault::UnknownSource);
    };
    if is_over(group.contents.as_slice()) {
        return Err(GroupFault::GasTooHigh);
    }
    let fees = all_fees(group.contents.as_slice());
    if u128::from(balance) < fees {
        return Err(GroupFault::FeeTooHigh);
    }
    Ok(fees as u64)
}
