// The price of an operation.
ghost use Rattle.mich_gas.specs.View.{listed};
ghost use Rattle.mich_operations.specs.Transfers.{IsCharged};

use crate::applied::ApplyError;
use mich_gas::{Costs, Kind, Meter};
use mich_ops::Failure;

// Takes the price of a kind of operation.
pub(crate) fn charge(costs: &Costs, meter: &mut Meter, kind: Kind) -> Result<(), ApplyError>
    ensures { IsCharged (listed costs.now) kind meter.old meter.new result }
{
    match meter.charge(costs, kind, 0) {
        Ok(()) => Ok(()),
        Err(_) => Err(ApplyError::Failed(Failure::OutOfGas)),
    }
}
