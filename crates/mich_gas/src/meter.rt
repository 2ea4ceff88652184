// The meter of gas.
ghost use Rattle.std.specs.Prelude.{◌≡◌, ◌+◌, ◌<◌, OnOk, OnErr, IfErr};
ghost use Rattle.rules_data.specs.gas.Prices.{cost};
ghost use Rattle.mich_gas.specs.View.{listed};

use crate::costs::Costs;
use rules_data::gas::Kind;
use std::marker::Model;
use thiserror::Error;

/// What could not be charged: the cost and the gas that was left, in units of gas.
#[derive(Clone, Copy, Debug, PartialEq, Eq, Error)]
#[error("a cost of {cost} is over the {left} units of gas left")]
pub struct OutOfGas {
    /// The cost, which is over the gas left.
    pub cost: u128,
    /// The gas left.
    pub left: u64,
}

/// The gas that is left, in units of gas. It is not copied, so that no part of a run has gas of its
/// own.
#[derive(Debug, Drop)]
pub struct Meter {
    left: u64,
}

impl Model for Meter {
    ghost use Rattle.std.specs.Prelude.{ℕ};

    ghost Value = { ℕ };

    ghost view = { λ m. m.left };
}

impl Meter {
    /// A meter with this much gas.
    pub fn new(gas: u64) -> Meter
        ensures { result ≡ gas }
    {
        Meter { left: gas }
    }

    /// The gas left.
    #[inline(always)]
    pub fn left(&self) -> u64
        ensures { result ≡ self.now }
    {
        self.left
    }

    /// Takes the cost of a kind at a weight.
    ///
    /// `OutOfGas` exactly where the cost is over the gas left; the meter is then as it was.
    #[inline(always)]
    pub fn charge(&mut self, costs: &Costs, kind: Kind, weight: u64) -> Result<(), OutOfGas>
        ensures taken { OnOk result (cost (listed costs.now) kind weight + self.new ≡ self.old) }

        // Out of gas: what is missing is told, and nothing is taken.
        ensures over { OnErr result (self.old < cost (listed costs.now) kind weight) }
        ensures told { IfErr result (λ out. (out.cost ≡ cost (listed costs.now) kind weight) × (out.left ≡ self.old)) }
        ensures unchanged { OnErr result (self.new ≡ self.old) }
    {
        let price = costs.price(kind);
        let cost = u128::from(price.base) + u128::from(price.coefficient) * u128::from(weight);
        if cost > u128::from(self.left) {
            return Err(OutOfGas {
                cost,
                left: self.left,
            });
        }
        self.left -= cost as u64;
        Ok(())
    }
}
