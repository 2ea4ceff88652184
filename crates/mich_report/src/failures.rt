// Failures.
ghost use Rattle.std.specs.Prelude.{◌≡◌, ◌∷◌, [], IfOk, codes};
ghost use Rattle.rules_world.specs.lines.Nodes.{located, over};
ghost use Rattle.mich_base.specs.View.{tree};
ghost use Rattle.mich_ops.specs.View.{failure};
ghost use Rattle.mich_report.specs.Told.{told_node};

use crate::parts::number_node;
use mich_base::{Memory, Node, copy_node};
use mich_ops::Failure;
use mich_types::{bare, over_one, over_two};
use std::alloc::Global;

// A name with a location.
fn located(alloc: Global, name: &[u8], location: u32) -> Result<Node, Memory>
    ensures { IfOk result (λ n. tree n ≡ located name.now location) }
{
    over_one(alloc, name, number_node(u64::from(location)))
}

// What FAILWITH shows.
fn failed_with(alloc: Global, ty: &Node, value: &Node) -> Result<Node, Memory>
    ensures { IfOk result (λ n. tree n ≡ over (codes "FailedWith") (tree ty.now ∷ tree value.now ∷ [])) }
{
    let ty = copy_node(alloc, ty)?;
    over_two(alloc, b"FailedWith", ty, copy_node(alloc, value)?)
}

/// A failure by its name.
pub(crate) fn failure_node(alloc: Global, why: &Failure) -> Result<Node, Memory>
    ensures { IfOk result (λ n. tree n ≡ told_node (failure why.now)) }
{
    match why {
        Failure::FailedWith(ty, value) => failed_with(alloc, ty, value),
        Failure::OutOfGas => bare(alloc, b"OutOfGas"),
        Failure::IntegerLimit => bare(alloc, b"IntegerLimit"),
        Failure::MutezOverflow => bare(alloc, b"MutezOverflow"),
        Failure::ShiftLimit => bare(alloc, b"ShiftLimit"),
        Failure::SizeLimit => bare(alloc, b"SizeLimit"),
        Failure::DepthLimit => bare(alloc, b"DepthLimit"),
        Failure::TooManyOperations => bare(alloc, b"TooManyOperations"),
        Failure::OperationReplay => bare(alloc, b"OperationReplay"),
        Failure::NoContract => bare(alloc, b"NoContract"),
        Failure::NoEntrypoint => bare(alloc, b"NoEntrypoint"),
        Failure::BadParameter(location) => located(alloc, b"BadParameter", *location),
        Failure::BalanceTooLow => bare(alloc, b"BalanceTooLow"),
        Failure::EmptyTransaction => bare(alloc, b"EmptyTransaction"),
        Failure::IllTyped(location) => located(alloc, b"IllTyped", *location),
        Failure::BadStorage(location) => located(alloc, b"BadStorage", *location),
        Failure::UnregisteredDelegate => bare(alloc, b"UnregisteredDelegate"),
        Failure::TicketShort => bare(alloc, b"TicketShort"),
        Failure::CannotPayBurn => bare(alloc, b"CannotPayBurn"),
    }
}
