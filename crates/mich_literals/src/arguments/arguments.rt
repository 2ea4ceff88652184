// Arguments that a source writes.
ghost use Rattle.std.specs.Prelude.{◌≡◌, ◌<◌, ◌^◌};
ghost use Rattle.rules_text.specs.nodes.Tree.{size};
ghost use Rattle.rules_world.specs.world.World.{World as PlainWorld};
ghost use Rattle.mich_base.specs.View.{tree};
ghost use Rattle.mich_world.specs.Standing.{StandsFor};
ghost use Rattle.mich_literals.specs.arguments.Arguments.{ArgumentAs, HasTypedScripts};

use crate::arguments::literals::read_literal;
use mich_base::{Memory, Node};
use mich_check::CheckError;
use mich_forms::Entrypoint;
use mich_term::Value;
use mich_types::entrypoint;
use mich_world::World;
use std::alloc::Global;
use thiserror::Error;

/// Why an entrypoint gets no argument.
#[derive(Debug, Drop, Error)]
pub enum ArgumentError {
    /// The contract isn't there.
    #[error("the contract isn't there")]
    NoContract,
    /// It has no entrypoint of that name.
    #[error("there is no such entrypoint")]
    NoEntrypoint,
    /// The node isn't an argument of the entrypoint's type: the location of its first fault.
    #[error("the argument has a fault at {0}")]
    BadParameter(u32),
    /// There was no room in memory.
    #[error("out of memory")]
    Memory,
}

/// The value that a node spells as the argument of an entrypoint of a contract. NoContract exactly where the contract isn't there, then
/// NoEntrypoint exactly where it has no entrypoint of that name, then BadParameter at the first fault of the node as a literal of the
/// entrypoint's type; Memory where there is no room (Michelson reference, "Entrypoints").
pub fn read_argument(
    alloc: Global,
    world: &World,
    to: &[u8; 20],
    name: &Entrypoint,
    node: &Node,
) -> Result<Value, ArgumentError>
    requires small { size (tree node.now) < 2 ^ 32 }
    requires typed { HasTypedScripts world.now }
    ensures { (w : PlainWorld) → StandsFor world.now w → ArgumentAs w to.now name.now (tree node.now) result }
{
    let Some(contract) = world.contract(to) else {
        return Err(ArgumentError::NoContract);
    };
    let Some(entry) = entrypoint(&contract.script.get().parameter, name) else {
        return Err(ArgumentError::NoEntrypoint);
    };
    match read_literal(alloc, world, &entry.ty, node) {
        Ok(value) => Ok(value),
        Err(CheckError::IllTyped(location)) => Err(ArgumentError::BadParameter(location)),
        Err(CheckError::Memory) => Err(ArgumentError::Memory),
    }
}
