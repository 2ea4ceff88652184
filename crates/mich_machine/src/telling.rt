// Failures of code as they are told.
ghost use Rattle.std.specs.Prelude.{◌≡◌, IfOk};
ghost use Rattle.mich_interpreter.specs.Ends.{failure as plain};
ghost use Rattle.mich_ops.specs.Told.{told};
ghost use Rattle.mich_ops.specs.View.{failure};
ghost use Rattle.mich_stack.specs.Views.{Sight};

use mich_base::Memory;
use mich_data::value_node;
use mich_interpreter::Failed;
use mich_ops::Failure;
use mich_types::type_node;
use std::alloc::Global;

// What FAILWITH shows is told by the nodes of its type and its literal. Memory where there is no room for them.
pub(crate) fn tell(alloc: Global, why: Failed) -> Result<Failure, Memory>
    ensures { IfOk result (λ f. (big : Sight) → failure f ≡ told (plain big why)) }
{
    match why {
        Failed::With(ty, value) => {
            let ty = type_node(alloc, ty.get())?;
            let value = value_node(alloc, value.get())?;
            Ok(Failure::FailedWith(ty, value))
        }
        Failed::OutOfGas => Ok(Failure::OutOfGas),
        Failed::IntegerLimit => Ok(Failure::IntegerLimit),
        Failed::MutezOverflow => Ok(Failure::MutezOverflow),
        Failed::ShiftLimit => Ok(Failure::ShiftLimit),
        Failed::SizeLimit => Ok(Failure::SizeLimit),
        Failed::DepthLimit => Ok(Failure::DepthLimit),
        Failed::TooManyOperations => Ok(Failure::TooManyOperations),
    }
}
