// Certificates of scripts.
ghost use Rattle.std.specs.Prelude.{◌≡◌, ◌<◌, ◌^◌, Err, IfOk, List, false, nat_le};
ghost use Rattle.rules_text.specs.nodes.Tree.{depth, size};
ghost use Rattle.rules_code.specs.certificates.Certificates.{certified_node, script_levels, unless_deep, within_line};
ghost use Rattle.rules_code.specs.certificates.Derivation.{Entry};
ghost use Rattle.mich_base.specs.View.{tree, trees};
ghost use Rattle.mich_cert.specs.telling.Certified.{IsAnswer, IsCertified, certified_with};
ghost use Rattle.mich_cert.specs.telling.Told.{IsTold};
ghost use Rattle.mich_cert.specs.telling.Tops.{deep_top};

use crate::telling::error::{CertError, LineError};
use crate::telling::length::behind_node;
use crate::telling::scripts::tell_script;
use crate::telling::told::{Told, nothing};
use mich_base::{Memory, Node, Nodes, Rows, STATEMENT_LIMIT, copy_node, depth_within};
use mich_check::{CheckError, check_script};
use mich_types::over_two;
use std::alloc::Global;

// The levels that a script may have.
const SCRIPT_LEVELS: u32 = 998;

/// The certificate `Certified script { entries }` of a script: for each block, the stack before each of its instructions,
/// followed by the entries of the blocks within that instruction, and how the block ends (Michelson reference, "Typing").
/// IllTyped has the location of the first fault of the typing, as `check_script` finds it; else TooDeep has 0 where the script
/// has more than 998 levels, or the location of the first entry with a type of more than 990; else TooLong where the
/// certificate has more than 16,777,216 bytes as a line; Memory where there is no room.
pub fn certify(alloc: Global, node: &Node) -> Result<Node, CertError>
    requires { size (tree node.now) < 2 ^ 32 }
    ensures { IsCertified (tree node.now) result }
{
    if !depth_within(node, SCRIPT_LEVELS) {
        return Err(too_many_levels(alloc, node));
    }
    let mut told = nothing(alloc);
    match tell_script(alloc, node, 0, &mut told) {
        Ok(_storage) => certificate(alloc, node, told),
        Err(CheckError::IllTyped(location)) => Err(CertError::IllTyped(location)),
        Err(CheckError::Memory) => Err(CertError::Memory),
    }
}

// Why a script of too many levels has no certificate.
fn too_many_levels(alloc: Global, node: &Node) -> CertError
    requires fits { size (tree node.now) < 2 ^ 32 }
    requires levels { nat_le (depth (tree node.now)) script_levels ≡ false }
    ensures { IsCertified (tree node.now) (Err result) }
{
    match check_script(alloc, node) {
        Ok(_script) => CertError::TooDeep(0),
        Err(CheckError::IllTyped(location)) => CertError::IllTyped(location),
        Err(CheckError::Memory) => CertError::Memory,
    }
}

// The certificate of these entries, which are all that are told of a script.
fn certificate(alloc: Global, node: &Node, told: Told) -> Result<Node, CertError>
    ensures { (es : List Entry) → IsTold told es → IsAnswer (unless_deep (deep_top es) (certified_node (tree node.now) es)) result }
{
    if let Some(location) = told.deep {
        return Err(CertError::TooDeep(location));
    }
    let Some(line) = told.line else {
        return Err(CertError::TooLong);
    };
    let whole = whole_node(alloc, node, line.entries)?;
    short(alloc, whole)
}

fn whole_node(alloc: Global, node: &Node, entries: Rows<Node>) -> Result<Node, Memory>
    ensures { IfOk result (λ n. tree n ≡ certified_with (tree node.now) (trees entries)) }
{
    let script = copy_node(alloc, node)?;
    let entries = Node::Seq(Nodes::from_rows(entries)?);
    over_two(alloc, b"Certified", script, entries)
}

// A node that fits on a line.
fn short(alloc: Global, node: Node) -> Result<Node, CertError>
    ensures { IsAnswer (within_line (tree node)) result }
{
    match behind_node(alloc, &node, STATEMENT_LIMIT as u32) {
        Ok(_left) => Ok(node),
        Err(LineError::Long) => Err(CertError::TooLong),
        Err(LineError::Memory) => Err(CertError::Memory),
    }
}
