// Gifts that a source orders.
ghost use Rattle.std.specs.Prelude.{◌≡◌, None, true, is_some, IfOk};
ghost use Rattle.rules_code.specs.instructions.Same as same;
ghost use Rattle.rules_data.specs.types.Kind as kinds;
ghost use Rattle.rules_world.specs.world.Targets.{search};
ghost use Rattle.rules_world.specs.world.World.{World as PlainWorld};
ghost use Rattle.mich_literals.specs.arguments.Arguments.{HasTypedScripts};
ghost use Rattle.mich_base.specs.TypeView.{kind};
ghost use Rattle.mich_bigmap.specs.Extended.{Extends};
ghost use Rattle.mich_bigmap.specs.Layers.{HasBases};
ghost use Rattle.mich_forms.specs.declared.places.Place.TheVariants as place;
ghost use Rattle.mich_gas.specs.View.{listed};
ghost use Rattle.mich_machine.specs.Calls.{IsHosting};
ghost use Rattle.mich_term.specs.Layers.{AreFormed};
ghost use Rattle.mich_world.specs.Holders.{contract_at};
ghost use Rattle.mich_world.specs.Marks.{KeepsWorld};
ghost use Rattle.mich_world.specs.Standing.{StandsFor};
ghost use Rattle.mich_operations.specs.Calls.{SomeReady};
ghost use Rattle.mich_operations.specs.Gifts.{Gives, GivesContract, IsHandedIn, IsWanted, RunsGift, ordered_gift, tickets_of};
ghost use Rattle.mich_operations.specs.Going.{KeepsContracts, WithMemory, SomeBegins};

use crate::applied::{Applied, ApplyError};
use crate::gifts::{gave, give_account, take};
use crate::growing::with_growth;
use crate::offering::spelled_id;
use crate::running::surroundings;
use mich_base::{Link, Node, Ty};
use mich_forms::{Entrypoint, KeyHash, Place};
use mich_gas::{Costs, Meter};
use mich_machine::{Bodies, Counts, Finished, RunError, run};
use mich_ops::Failure;
use mich_overload::same_kind;
use mich_term::{TicketId, Value};
use mich_types::entrypoint;
use mich_world::World;
use std::alloc::Global;

// Whether a type is that of tickets with contents of a type.
fn is_ticket_of(ty: &Ty, content: &Ty) -> bool
    ensures { result ≡ same.same_kind (kind ty.now) (kinds.ticket (kind content.now)) }
{
    match ty {
        Ty::Ticket(of) => same_kind(of.get(), content),
        _ => false,
    }
}

// Whether an entrypoint of a contract takes tickets with contents of a type.
pub(crate) fn wants(
    world: &World,
    to: &[u8; 20],
    name: &Entrypoint,
    ty: &Ty,
) -> Result<(), ApplyError>
    requires { HasTypedScripts world.now }
    ensures { (w : PlainWorld) → StandsFor world.now w → IsWanted (search w to.now name.now) (kind ty.now) result }
{
    let Some(contract) = world.contract(to) else {
        return Err(ApplyError::Failed(Failure::NoContract));
    };
    let Some(entry) = entrypoint(&contract.script.get().parameter, name) else {
        return Err(ApplyError::Failed(Failure::NoEntrypoint));
    };
    if !is_ticket_of(&entry.ty, ty) {
        return Err(ApplyError::Failed(Failure::BadParameter(0)));
    }
    Ok(())
}

// A contract runs with the ticket that a source gave it; its growth is still to be charged.
fn run_gift(
    alloc: Global,
    world: &mut World,
    costs: &Costs,
    source: &KeyHash,
    meter: &mut Meter,
    counts: &mut Counts,
    bodies: &mut Bodies,
    id: &TicketId,
    amount: i128,
    to: &[u8; 20],
    name: &Entrypoint,
    argument: Value,
) -> Result<Applied, ApplyError>
    requires ready { SomeReady world.old costs.now counts.old source.now (place.Implicit source.now) to.now name.now 0 argument }
    requires hosting { IsHosting world.old }
    requires there { is_some (contract_at world.old.funds.present to.now) ≡ true }
    requires formed { AreFormed argument }
    requires based { HasBases world.old.store.bases.present argument }
    ensures by { IfOk result (λ a. a.by ≡ to.now) }
    ensures growth { IfOk result (λ a. a.growth ≡ None) }
    ensures ends { RunsGift costs.entry source.entry id.entry amount to.entry name.entry argument world.old meter.old counts.old world.new meter.new counts.new result }
    ensures hosting { IfOk result (λ _. IsHosting world.new) }
    ensures bases { IfOk result (λ _. Extends world.old.store.bases.present world.new.store.bases.present) }
    ensures contracts { IfOk result (λ _. KeepsContracts world.old world.new) }
    ensures keeps { WithMemory result (KeepsWorld world.old world.new) }
{
    let from = Place::Implicit(*source);
    let env = surroundings(world, source, &from, *to, 0);
    match run(
        alloc, world, costs, meter, counts, bodies, to, name, argument, &env,
    ) {
        Ok(done) => {
            let Finished { returned, changes } = done;
            let effect = gave(
                alloc,
                source,
                Place::Contract(*to),
                name,
                id,
                amount,
                changes,
            )?;
            Ok(Applied {
                effect,
                growth: None,
                by: *to,
                emitted: returned,
            })
        }
        Err(RunError::Failed(why)) => Err(ApplyError::Failed(why)),
        Err(RunError::Memory) => Err(ApplyError::Memory),
    }
}

// Tickets go from a source to a contract, which is called with them.
fn give_contract(
    alloc: Global,
    world: &mut World,
    costs: &Costs,
    source: &KeyHash,
    meter: &mut Meter,
    counts: &mut Counts,
    bodies: &mut Bodies,
    id: &TicketId,
    amount: i128,
    to: &[u8; 20],
    name: &Entrypoint,
) -> Result<Applied, ApplyError>
    requires due { (w : PlainWorld) × IsHandedIn world.old w (listed costs.now) counts.old source.now (tickets_of id.now amount) to.now name.now }
    requires hosting { IsHosting world.old }
    ensures ends { GivesContract costs.entry source.entry id.entry amount to.entry name.entry world.old meter.old counts.old world.new meter.new counts.new result }
    ensures hosting { IfOk result (λ _. IsHosting world.new) }
    ensures bases { IfOk result (λ _. Extends world.old.store.bases.present world.new.store.bases.present) }
    ensures contracts { IfOk result (λ _. KeepsContracts world.old world.new) }
    ensures keeps { WithMemory result (KeepsWorld world.old world.new) }
{
    wants(world, to, name, &id.ty)?;
    let ticket = take(alloc, world, source, id, amount)?;
    let argument = Value::Ticket(Link::new(alloc, ticket)?);
    let ran = run_gift(
        alloc, world, costs, source, meter, counts, bodies, id, amount, to, name, argument,
    )?;
    with_growth(alloc, world, source, ran)
}

// Gives a place so many tickets of an issuer that the source holds, whose type and content nodes spell.
pub(crate) fn give(
    alloc: Global,
    world: &mut World,
    costs: &Costs,
    source: &KeyHash,
    meter: &mut Meter,
    counts: &mut Counts,
    bodies: &mut Bodies,
    issuer: &Place,
    ty: &Node,
    node: &Node,
    amount: i128,
    to: &Place,
    name: &Entrypoint,
) -> Result<Applied, ApplyError>
    requires next { SomeBegins world.old costs.now counts.old source.now (ordered_gift issuer.now ty.now node.now amount to.now name.now) }
    requires hosting { IsHosting world.old }
    ensures ends { Gives costs.entry source.entry issuer.entry ty.entry node.entry amount to.entry name.entry world.old meter.old counts.old world.new meter.new counts.new result }
    ensures hosting { IfOk result (λ _. IsHosting world.new) }
    ensures bases { IfOk result (λ _. Extends world.old.store.bases.present world.new.store.bases.present) }
    ensures contracts { IfOk result (λ _. KeepsContracts world.old world.new) }
    ensures keeps { WithMemory result (KeepsWorld world.old world.new) }
{
    let Some(id) = spelled_id(alloc, issuer, ty, node)? else {
        return Err(ApplyError::Failed(Failure::BadParameter(0)));
    };
    match to {
        Place::Implicit(who) => give_account(alloc, world, source, &id, amount, who, name),
        Place::Contract(hash) => give_contract(
            alloc, world, costs, source, meter, counts, bodies, &id, amount, hash, name,
        ),
    }
}
