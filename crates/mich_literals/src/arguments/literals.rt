// Literals in a world.
ghost use Rattle.std.specs.Prelude.{◌≡◌, ◌<◌, ◌^◌, IfOk};
ghost use Rattle.laws_data.specs.types.Laws.{IsWellFormed};
ghost use Rattle.rules_text.specs.nodes.Tree.{size};
ghost use Rattle.rules_code.specs.evaluation.Contracts.{Lookup, is_contract_of, is_taken_by_account, has_kind};
ghost use Rattle.rules_data.specs.forms.Spelling.{contract_place, implicit_place, spelled_address};
ghost use Rattle.rules_data.specs.types.Entrypoints.{find_entry};
ghost use Rattle.rules_world.specs.world.Arguments.{false_claim, literal_in};
ghost use Rattle.rules_world.specs.world.World.{World as PlainWorld};
ghost use Rattle.mich_base.specs.TypeView.{kind};
ghost use Rattle.mich_base.specs.View.{tree};
ghost use Rattle.mich_data.specs.View.{all_pending};
ghost use Rattle.mich_data.specs.Whole.{IsWhole};
ghost use Rattle.mich_forms.specs.Spelled.{address_bytes};
ghost use Rattle.mich_term.specs.Layers.{AreFormed};
ghost use Rattle.mich_world.specs.Standing.{StandsFor};
ghost use Rattle.mich_literals.specs.arguments.Arguments.{HasTypedScripts, IsIn, TellsContract, entries_in};

use mich_base::{Node, Rows, Ty};
use mich_check::{CheckError, check_literal};
use mich_data::Pending;
use mich_forms::{Address, Entrypoint, KeyHash, Place};
use mich_overload::same_kind;
use mich_term::Value;
use mich_types::entrypoint;
use mich_world::{Contract, World};
use std::alloc::Global;

/// Whether accounts take this type: nothing but mutez, or tickets; takes no memory (Michelson reference, "CONTRACT").
pub fn is_taken_by_account(ty: &Ty) -> bool
    ensures { result ≡ is_taken_by_account (kind ty.now) }
{
    matches!(ty, Ty::Unit | Ty::Ticket(_))
}

/// Whether a contract has an entrypoint of a name and a type; takes no memory (Michelson reference, "CONTRACT").
pub fn has_entrypoint(contract: &Contract, name: &Entrypoint, ty: &Ty) -> bool
    ensures { result ≡ has_kind (kind ty.now) (find_entry name.now (entries_in contract.now)) }
{
    match entrypoint(&contract.script.get().parameter, name) {
        Some(entry) => same_kind(&entry.ty, ty),
        None => false,
    }
}

// Whether an account takes a type at an entrypoint.
fn account_takes(who: KeyHash, name: Entrypoint, ty: &Ty) -> bool
    ensures { (at : Lookup) → result ≡ is_contract_of at (kind ty.now) (spelled_address (implicit_place who) name) }
{
    drop(who);
    name.is_default() && is_taken_by_account(ty)
}

// Whether the contract of these 20 bytes is there and does.
fn contract_takes(world: &World, hash: [u8; 20], name: Entrypoint, ty: &Ty) -> bool
    requires { HasTypedScripts world.now }
    ensures { TellsContract world.now (kind ty.now) (spelled_address (contract_place hash) name) result }
{
    match world.contract(&hash) {
        Some(contract) => has_entrypoint(contract, &name, ty),
        None => false,
    }
}

// Whether an address is one of a contract of a type, or of an account that takes it.
fn is_contract_of(world: &World, ty: &Ty, address: &Address) -> bool
    requires { HasTypedScripts world.now }
    ensures { TellsContract world.now (kind ty.now) (address_bytes address.now) result }
{
    match address.place {
        Place::Implicit(who) => account_takes(who, address.entrypoint, ty),
        Place::Contract(hash) => contract_takes(world, hash, address.entrypoint, ty),
    }
}

// The location of the first address that isn't one of a contract of its type.
fn false_claim(world: &World, claims: &Rows<Pending>) -> Option<u32>
    requires { HasTypedScripts world.now }
    ensures { (w : PlainWorld) → StandsFor world.now w → result ≡ false_claim w (all_pending claims.now) }
{
    for claim in claims.as_slice() {
        match claim {
            Pending::Claim {
                location,
                address,
                ty,
            } => {
                if !is_contract_of(world, ty, address) {
                    return Some(*location);
                }
            }
            Pending::Body { .. } => {}
        }
    }
    None
}

/// The value of a type that a node spells in a world, whose contracts it may name. IllTyped has the location of the first node that
/// doesn't fit, else that of the first fault of a body in it, else that of the first address that isn't one of a contract of its type;
/// Memory where there is no room (Michelson reference, "Types", the literals of each).
pub fn read_literal(alloc: Global, world: &World, ty: &Ty, node: &Node) -> Result<Value, CheckError>
    requires small { size (tree node.now) < 2 ^ 32 }
    requires typed { HasTypedScripts world.now }
    ensures literal { (w : PlainWorld) → StandsFor world.now w → IsIn (literal_in w (kind ty.now) (tree node.now)) result }
    ensures whole { IfOk result (λ v. IsWhole (kind ty.now) v) }
    ensures formed { IfOk result (λ v. IsWellFormed (kind ty.now) → AreFormed v) }
{
    let checked = check_literal(alloc, ty, node)?;
    match false_claim(world, &checked.claims) {
        Some(location) => Err(CheckError::IllTyped(location)),
        None => Ok(checked.value),
    }
}
