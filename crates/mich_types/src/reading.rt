// Types from nodes.
ghost use Rattle.std.specs.Prelude.{◌≡◌, ◌+◌, ◌<◌, ◌^◌};
ghost use Rattle.rules_text.specs.nodes.Tree.{size};
ghost use Rattle.rules_data.specs.types.Reading.{type_at};
ghost use Rattle.mich_base.specs.View.{tree};
ghost use Rattle.mich_types.specs.Answers.{IsReading};

use crate::building::build;
use crate::error::TypeError;
use crate::scan::scan;
use mich_base::{Node, TYPE_LIMIT, Ty};
use std::alloc::Global;

/// The type that a node spells (Michelson reference, "Types"). BadType has the location of the first node, from left
/// to right, that is no type or lacks an attribute that it must have where it stands; TypeTooLarge is the answer where
/// there is none and the type has more than 2,000 nodes; Memory where there is no room for it.
pub fn read_type(alloc: Global, node: &Node) -> Result<Ty, TypeError>
    requires { size (tree node.now) < 2 ^ 32 }
    ensures { IsReading (type_at 0 (tree node.now)) result }
{
    type_at(alloc, node, 0)
}

/// The type that the node at a location spells, from which its locations are counted.
#[tactic(auto, using(crate::proofs::Scans::fault_is, crate::proofs::Scans::large_is, crate::proofs::Scans::type_is))]
pub fn type_at(alloc: Global, node: &Node, at: u32) -> Result<Ty, TypeError>
    requires { at + size (tree node.now) < 2 ^ 32 }
    ensures { IsReading (type_at at (tree node.now)) result }
{
    match scan(node, at) {
        Ok(found) => {
            if u32::from(found.summary.nodes) > TYPE_LIMIT {
                return Err(TypeError::TypeTooLarge);
            }
            Ok(build(alloc, node)?)
        }
        Err(location) => Err(TypeError::BadType(location)),
    }
}
