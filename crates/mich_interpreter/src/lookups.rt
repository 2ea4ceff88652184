// Contracts that code names.
ghost use Rattle.std.specs.Prelude.{◌≡◌, option_map};
ghost use Rattle.rules_code.specs.evaluation.Contracts.{Lookup, chosen_entrypoint, contract_of, takes};
ghost use Rattle.rules_data.specs.forms.Spelling.{contract_place, implicit_place};
ghost use Rattle.mich_literals.specs.arguments.Arguments.{HasTypedScripts};
ghost use Rattle.mich_base.specs.TypeView.{kind};
ghost use Rattle.mich_forms.specs.Spelled.{address_bytes, place_bytes};
ghost use Rattle.mich_interpreter.specs.Sees.{IsNamed, LooksInto, NamesContract};

use mich_base::Ty;
use mich_forms::{Address, Entrypoint, KeyHash, Place};
use mich_literals::arguments::{has_entrypoint, is_taken_by_account};
use mich_world::World;

// The entrypoint that an address and an annotation name together. None where neither is the default one.
fn chosen_entrypoint(of_address: Entrypoint, of_annotation: Entrypoint) -> Option<Entrypoint>
    ensures { result ≡ chosen_entrypoint of_address of_annotation }
{
    if of_address.is_default() {
        Some(of_annotation)
    } else if of_annotation.is_default() {
        Some(of_address)
    } else {
        None
    }
}

// Whether an account takes a type at an entrypoint.
fn account_takes(who: KeyHash, name: Entrypoint, ty: &Ty) -> bool
    ensures { (at : Lookup) → result ≡ takes at (implicit_place who) name (kind ty.now) }
{
    drop(who);
    name.is_default() && is_taken_by_account(ty)
}

// Whether the contract of these 20 bytes is there and does.
fn contract_takes(world: &World, hash: [u8; 20], name: Entrypoint, ty: &Ty) -> bool
    requires { HasTypedScripts world.now }
    ensures { (at : Lookup) → LooksInto world.now at → result ≡ takes at (contract_place hash) name (kind ty.now) }
{
    match world.contract(&hash) {
        Some(contract) => has_entrypoint(contract, &name, ty),
        None => false,
    }
}

// The entrypoint of a type that an account's address and an annotation name together.
fn account_entrypoint(
    who: KeyHash,
    of_address: Entrypoint,
    annotation: Entrypoint,
    ty: &Ty,
) -> Option<Entrypoint>
    ensures { (at : Lookup) → IsNamed at (implicit_place who) of_address annotation (kind ty.now) result }
{
    let Some(name) = chosen_entrypoint(of_address, annotation) else {
        return None;
    };
    if account_takes(who, name, ty) {
        Some(name)
    } else {
        None
    }
}

// The same of a contract's address.
fn contract_entrypoint(
    world: &World,
    hash: [u8; 20],
    of_address: Entrypoint,
    annotation: Entrypoint,
    ty: &Ty,
) -> Option<Entrypoint>
    requires { HasTypedScripts world.now }
    ensures { (at : Lookup) → LooksInto world.now at → IsNamed at (contract_place hash) of_address annotation (kind ty.now) result }
{
    let Some(name) = chosen_entrypoint(of_address, annotation) else {
        return None;
    };
    if contract_takes(world, hash, name, ty) {
        Some(name)
    } else {
        None
    }
}

// The same of any address.
fn named_entrypoint(
    world: &World,
    place: Place,
    of_address: Entrypoint,
    annotation: Entrypoint,
    ty: &Ty,
) -> Option<Entrypoint>
    requires { HasTypedScripts world.now }
    ensures { (at : Lookup) → LooksInto world.now at → IsNamed at (place_bytes place) of_address annotation (kind ty.now) result }
{
    match place {
        Place::Implicit(who) => account_entrypoint(who, of_address, annotation, ty),
        Place::Contract(hash) => contract_entrypoint(world, hash, of_address, annotation, ty),
    }
}

// The address with the entrypoint that it and an annotation name together. None where neither is the default one, or where nobody
// takes the type there.
pub(crate) fn contract_of(
    world: &World,
    annotation: Entrypoint,
    ty: &Ty,
    address: &Address,
) -> Option<Address>
    requires { HasTypedScripts world.now }
    ensures { NamesContract world.now annotation (kind ty.now) (address_bytes address.now) (option_map address_bytes result) }
{
    match named_entrypoint(world, address.place, address.entrypoint, annotation, ty) {
        Some(entrypoint) => Some(Address {
            place: address.place,
            entrypoint,
        }),
        None => None,
    }
}
