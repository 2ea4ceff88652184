// Arguments of calls.
ghost use Rattle.std.specs.Prelude.{◌<◌, ◌^◌};
ghost use Rattle.rules_text.specs.nodes.Tree.{size};
ghost use Rattle.rules_world.specs.world.World.{World as PlainWorld};
ghost use Rattle.mich_literals.specs.arguments.Arguments.{HasTypedScripts};
ghost use Rattle.mich_base.specs.View.{tree};
ghost use Rattle.mich_world.specs.Standing.{StandsFor};
ghost use Rattle.mich_operations.specs.Calls.{ReadAs};

use crate::applied::ApplyError;
use mich_base::Node;
use mich_forms::Entrypoint;
use mich_literals::arguments::{ArgumentError, read_argument};
use mich_ops::Failure;
use mich_term::Value;
use mich_world::World;
use std::alloc::Global;

// The value that a node spells as the argument of an entrypoint of a contract.
pub(crate) fn argument_of(
    alloc: Global,
    world: &World,
    to: &[u8; 20],
    name: &Entrypoint,
    node: &Node,
) -> Result<Value, ApplyError>
    requires small { size (tree node.now) < 2 ^ 32 }
    requires typed { HasTypedScripts world.now }
    ensures { (w : PlainWorld) → StandsFor world.now w → ReadAs w to.now name.now (tree node.now) result }
{
    match read_argument(alloc, world, to, name, node) {
        Ok(value) => Ok(value),
        Err(ArgumentError::NoContract) => Err(ApplyError::Failed(Failure::NoContract)),
        Err(ArgumentError::NoEntrypoint) => Err(ApplyError::Failed(Failure::NoEntrypoint)),
        Err(ArgumentError::BadParameter(location)) => {
            Err(ApplyError::Failed(Failure::BadParameter(location)))
        }
        Err(ArgumentError::Memory) => Err(ApplyError::Memory),
    }
}
