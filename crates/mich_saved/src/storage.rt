// The type of a contract's storage, as its script tells it.
ghost use Rattle.std.specs.Prelude.{◌≡◌, ◌<◌, ◌≤◌, ◌^◌, Ok, None, IfOk, IfSome, MatchOption, option_map};
ghost use Rattle.laws_data.specs.types.Laws.{IsWellFormed};
ghost use Rattle.rules_text.specs.nodes.Tree.{size, sizes};
ghost use Rattle.rules_data.specs.types.Reading.{type_at};
ghost use Rattle.rules_files.specs.snapshots.Reading.{first_storage, if_storable, one_type, storage_kind};
ghost use Rattle.mich_base.specs.View.{tree, trees};
ghost use Rattle.mich_base.specs.TypeView.{kind};
ghost use Rattle.mich_saved.specs.Results.{Gives};

use crate::errors::LoadError;
use mich_base::{Node, Nodes, Primitive, Ty, primitive_of_name};
use mich_types::{TypeError, read_type, storable};
use std::alloc::Global;

// The type that a node spells, where it can be stored.
#[tactic(auto, using(crate::proofs::Storages::type_is_well))]
fn storable_type(alloc: Global, node: &Node) -> Result<Option<Ty>, LoadError>
    requires { size (tree node.now) < 2 ^ 32 }
    ensures read { Gives (option_map kind) result (Ok (if_storable (type_at 0 (tree node.now)))) }
    ensures well_formed { IfOk result (λ o. IfSome o (λ ty. IsWellFormed (kind ty))) }
{
    match read_type(alloc, node) {
        Ok(ty) => {
            if storable(&ty) {
                Ok(Some(ty))
            } else {
                Ok(None)
            }
        }
        Err(TypeError::Memory) => Err(LoadError::Memory),
        Err(_) => Ok(None),
    }
}

// The arguments of the first `storage` section.
fn storage_section(nodes: &Nodes) -> Option<&Nodes>
    ensures section { MatchOption result (first_storage (trees nodes.now) ≡ None)
        (λ args. first_storage (trees nodes.now) ≡ one_type (trees args.now)) }
    ensures within { IfSome result (λ args. sizes (trees args.now) ≤ sizes (trees nodes.now)) }
{
    for node in nodes.as_slice() {
        if let Node::Prim(app) = node
            && let Some(Primitive::SectionStorage) = primitive_of_name(&app.name)
        {
            return Some(&app.args);
        }
    }
    None
}

/// The type of the storage that a script tells, where it can be stored.
pub fn storage_type(alloc: Global, script: &Node) -> Result<Option<Ty>, LoadError>
    requires { size (tree script.now) < 2 ^ 32 }
    ensures read { Gives (option_map kind) result (Ok (storage_kind (tree script.now))) }
    ensures well_formed { IfOk result (λ o. IfSome o (λ ty. IsWellFormed (kind ty))) }
{
    let Node::Seq(sections) = script else {
        return Ok(None);
    };
    let Some(args) = storage_section(sections) else {
        return Ok(None);
    };
    let Some(node) = args.only() else {
        return Ok(None);
    };
    storable_type(alloc, node)
}
