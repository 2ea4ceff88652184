// Charges.
ghost use Rattle.std.specs.Prelude.{◌≡◌, ◌≤◌, ◌<◌, ℕ};
ghost use Rattle.laws_code.specs.evaluation.Laws.{IsCharged};
ghost use Rattle.mich_gas.specs.View.{listed};
ghost use Rattle.mich_term.specs.Weights.{capped};
ghost use Rattle.mich_interpreter.specs.Ends.{IsPaid};

use mich_gas::{Costs, Kind, Meter};

// Takes what a kind costs at a weight, where there is so much gas.
#[inline(always)]
pub(crate) fn pay(meter: &mut Meter, costs: &Costs, kind: Kind, weight: u64) -> bool
    ensures { IsPaid result (listed costs.now) kind weight meter.old meter.new }
{
    meter.charge(costs, kind, weight).is_ok()
}

#[tactic(auto, using(crate::proofs::Capped::capped_paid))]
// The same at a weight that is known up to 2^64-1, which is more than any gas.
#[inline(always)]
pub(crate) fn pay_capped(meter: &mut Meter, costs: &Costs, kind: Kind, weight: u64) -> bool
    ensures { (w : ℕ) → weight ≡ capped w → IsCharged (listed costs.now) → IsPaid result (listed costs.now) kind w meter.old meter.new }
{
    let left = meter.left();
    left > 0 && pay(meter, costs, kind, weight)
}
