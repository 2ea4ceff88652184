// Tickets that go from a source, and what is told of it.
ghost use Rattle.std.specs.Prelude.{◌≡◌, map, IfOk};
ghost use Rattle.rules_world.specs.world.World.{World as PlainWorld};
ghost use Rattle.mich_forms.specs.declared.places.Place.TheVariants as place;
ghost use Rattle.mich_forms.specs.declared.places.Place.{Place as AnyPlace};
ghost use Rattle.mich_machine.specs.Calls.{IsHosting};
ghost use Rattle.mich_ops.specs.View.{change};
ghost use Rattle.mich_world.specs.Holders.{moved};
ghost use Rattle.mich_world.specs.Marks.{KeepsWorld};
ghost use Rattle.mich_world.specs.World.{with_funds, with_ledger};
ghost use Rattle.mich_operations.specs.Gifts.{GivesAccount, IsGiven, IsTakenFrom, TellsGift, gift, tickets_of};
ghost use Rattle.mich_operations.specs.Going.{KeepsContracts};

use crate::applied::{Applied, ApplyError};
use crate::crediting::{credit, debit};
use mich_base::{Memory, Rows};
use mich_data::value_node;
use mich_forms::{Address, Entrypoint, KeyHash, Place};
use mich_ops::{Effect, Failure};
use mich_term::{Change, Ticket, TicketId, abandon};
use mich_tickets::DebitError;
use mich_types::type_node;
use mich_world::{MoveError, World};
use std::alloc::Global;

// What a source did that gave so many tickets of an identity, with the changes of the run that it began.
pub(crate) fn gave(
    alloc: Global,
    source: &KeyHash,
    to: Place,
    entry: &Entrypoint,
    id: &TicketId,
    amount: i128,
    changes: Rows<Change>,
) -> Result<Effect, Memory>
    ensures { IfOk result (λ e. TellsGift source.now (gift (tickets_of id.now amount) to entry.now) (map change changes) e) }
{
    let ty = type_node(alloc, &id.ty)?;
    let content = id.content.value(alloc)?;
    let literal = value_node(alloc, &content)?;
    abandon(content);
    let address = Address {
        place: to,
        entrypoint: *entry,
    };
    Ok(Effect::Give(
        Place::Implicit(*source),
        address,
        id.issuer,
        ty,
        literal,
        amount,
        changes,
    ))
}

// Takes the tickets that a source gives.
pub(crate) fn take(
    alloc: Global,
    world: &mut World,
    source: &KeyHash,
    id: &TicketId,
    amount: i128,
) -> Result<Ticket, ApplyError>
    requires { (w : PlainWorld) × (to : AnyPlace) × IsGiven world.old w source.now (tickets_of id.now amount) to }
    ensures world { world.new ≡ with_ledger world.old world.new.ledger }
    ensures taken { IsTakenFrom source.now id.now amount world.old world.new result }
    ensures keeps { KeepsWorld world.old world.new }
{
    match debit(alloc, world, source, id, amount) {
        Ok(ticket) => Ok(ticket),
        Err(DebitError::Short(_)) => Err(ApplyError::Failed(Failure::TicketShort)),
        Err(DebitError::Memory) => Err(ApplyError::Memory),
    }
}

// An account is made where it isn't there.
fn open_account(world: &mut World, source: &KeyHash, who: &KeyHash) -> Result<(), Memory>
    ensures moved { IfOk result (λ _. world.new.funds.present ≡ moved world.old.funds.present (place.Implicit source.now) (place.Implicit who.now) 0) }
    ensures world { world.new ≡ with_funds world.old world.new.funds }
    ensures keeps { KeepsWorld world.old world.new }
{
    match world.move_mutez(Place::Implicit(*source), Place::Implicit(*who), 0) {
        Ok(()) => Ok(()),
        Err(MoveError::Memory) => Err(Memory),
        Err(MoveError::BalanceTooLow | MoveError::NoContract) => unreachable!(),
    }
}

// Tickets go from a source to an account, which is made where it isn't there.
pub(crate) fn give_account(
    alloc: Global,
    world: &mut World,
    source: &KeyHash,
    id: &TicketId,
    amount: i128,
    to: &KeyHash,
    entry: &Entrypoint,
) -> Result<Applied, ApplyError>
    requires { (w : PlainWorld) × IsGiven world.old w source.now (tickets_of id.now amount) (place.Implicit to.now) }
    ensures ends { GivesAccount world.old source.now (tickets_of id.now amount) to.now entry.now world.new result }
    ensures hosting { IsHosting world.old → IfOk result (λ _. IsHosting world.new) }
    ensures contracts { IfOk result (λ _. KeepsContracts world.old world.new) }
    ensures store { world.new.store ≡ world.old.store }
    ensures keeps { KeepsWorld world.old world.new }
{
    if !entry.is_default() {
        return Err(ApplyError::Failed(Failure::NoEntrypoint));
    }
    let ticket = take(alloc, world, source, id, amount)?;
    open_account(world, source, to)?;
    credit(alloc, world, to, ticket)?;
    let effect = gave(
        alloc,
        source,
        Place::Implicit(*to),
        entry,
        id,
        amount,
        Rows::new(alloc),
    )?;
    Ok(Applied {
        effect,
        growth: None,
        by: [0; 20],
        emitted: Rows::new(alloc),
    })
}
