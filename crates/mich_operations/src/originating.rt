// Contracts that a source makes.
ghost use Rattle.std.specs.Prelude.{◌≡◌, ◌<◌, ◌^◌, IfOk};
ghost use Rattle.laws_data.specs.types.Laws.{IsWellFormed};
ghost use Rattle.rules_text.specs.nodes.Tree.{size};
ghost use Rattle.rules_world.specs.world.Arguments.{literal_in};
ghost use Rattle.rules_world.specs.world.World.{World as PlainWorld};
ghost use Rattle.mich_literals.specs.arguments.Arguments.{HasTypedScripts};
ghost use Rattle.mich_base.specs.TypeView.{kind};
ghost use Rattle.mich_base.specs.View.{tree};
ghost use Rattle.mich_bigmap.specs.Extended.{Extends};
ghost use Rattle.mich_data.specs.Whole.{IsWhole};
ghost use Rattle.mich_machine.specs.Calls.{IsHosting};
ghost use Rattle.mich_term.specs.Layers.{AreFormed};
ghost use Rattle.mich_world.specs.Marks.{KeepsWorld};
ghost use Rattle.mich_world.specs.Standing.{StandsFor};
ghost use Rattle.mich_operations.specs.Foundings.{IsScriptOf, IsStorageOf, Originates, SomeOrigination};
ghost use Rattle.mich_operations.specs.Going.{KeepsContracts, WithMemory};

use crate::applied::{Applied, ApplyError};
use crate::founding::found;
use mich_base::{Node, Shared, Ty};
use mich_check::{CheckError, check_script};
use mich_forms::{KeyHash, Place};
use mich_instr::Script;
use mich_literals::arguments::read_literal;
use mich_machine::{Counts, new_contract};
use mich_ops::Failure;
use mich_term::Value;
use mich_world::World;
use std::alloc::Global;

// The typed script of a node.
fn typed_script(alloc: Global, node: &Node) -> Result<Script, ApplyError>
    requires { size (tree node.now) < 2 ^ 32 }
    ensures { IsScriptOf (tree node.now) result }
{
    match check_script(alloc, node) {
        Ok(script) => Ok(script),
        Err(CheckError::IllTyped(location)) => Err(ApplyError::Failed(Failure::IllTyped(location))),
        Err(CheckError::Memory) => Err(ApplyError::Memory),
    }
}

// The storage of a type that a node spells in a world.
fn read_storage(alloc: Global, world: &World, ty: &Ty, node: &Node) -> Result<Value, ApplyError>
    requires small { size (tree node.now) < 2 ^ 32 }
    requires typed { HasTypedScripts world.now }
    ensures storage { (w : PlainWorld) → StandsFor world.now w → IsStorageOf (literal_in w (kind ty.now) (tree node.now)) result }
    ensures whole { IfOk result (λ v. IsWhole (kind ty.now) v) }
    ensures formed { IfOk result (λ v. IsWellFormed (kind ty.now) → AreFormed v) }
{
    match read_literal(alloc, world, ty, node) {
        Ok(value) => Ok(value),
        Err(CheckError::IllTyped(location)) => {
            Err(ApplyError::Failed(Failure::BadStorage(location)))
        }
        Err(CheckError::Memory) => Err(ApplyError::Memory),
    }
}

// Makes a contract of the script and the storage that nodes spell, whose balance the source pays.
pub(crate) fn originate(
    alloc: Global,
    world: &mut World,
    source: &KeyHash,
    counts: &mut Counts,
    balance: u64,
    script: &Node,
    storage: &Node,
) -> Result<Applied, ApplyError>
    requires next { SomeOrigination world.old counts.old source.now balance (tree script.now) (tree storage.now) }
    requires hosting { IsHosting world.old }
    ensures ends { Originates source.now balance (tree script.now) (tree storage.now) world.old counts.old world.new counts.new result }
    ensures hosting { IfOk result (λ _. IsHosting world.new) }
    ensures bases { IfOk result (λ _. Extends world.old.store.bases.present world.new.store.bases.present) }
    ensures contracts { IfOk result (λ _. KeepsContracts world.old world.new) }
    ensures keeps { WithMemory result (KeepsWorld world.old world.new) }
{
    let typed = typed_script(alloc, script)?;
    let value = read_storage(alloc, world, &typed.storage, storage)?;
    let hash = new_contract(counts.group, counts.originated);
    counts.originated += 1;
    let from = Place::Implicit(*source);
    found(
        alloc,
        world,
        source,
        &from,
        hash,
        balance,
        Shared::new(alloc, typed)?,
        value,
    )
}
