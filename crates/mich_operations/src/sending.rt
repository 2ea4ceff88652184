// Transfers that contracts issue.
ghost use Rattle.std.specs.Prelude.{◌≡◌, is_some, true, IfOk};
ghost use Rattle.rules_data.specs.forms.Spelling.{IsEntrypoint, IsPlace, spelled_address};
ghost use Rattle.mich_bigmap.specs.Extended.{Extends};
ghost use Rattle.mich_bigmap.specs.Layers.{HasBases};
ghost use Rattle.mich_forms.specs.Spelled.{address_bytes, place_bytes};
ghost use Rattle.mich_machine.specs.Calls.{IsHosting};
ghost use Rattle.mich_term.specs.Layers.{AreFormed};
ghost use Rattle.mich_world.specs.Holders.{contract_at};
ghost use Rattle.mich_world.specs.Marks.{KeepsWorld};
ghost use Rattle.mich_operations.specs.Going.{KeepsContracts, WithMemory, SomeBegins};
ghost use Rattle.mich_operations.specs.Transfers.{Sends, issued_transfer};

use crate::accounts::send_account;
use crate::applied::{Applied, ApplyError};
use crate::running::call_contract;
use mich_forms::{Address, Entrypoint, KeyHash, Place};
use mich_gas::{Costs, Meter};
use mich_machine::{Bodies, Counts};
use mich_term::Value;
use mich_world::World;
use std::alloc::Global;

// The place and the entrypoint of an address, which its bytes spell.
fn parts(to: &Address) -> (Place, Entrypoint)
    ensures spelled { spelled_address (place_bytes result.0) result.1 ≡ address_bytes to.now }
    ensures place { IsPlace (place_bytes result.0) }
    ensures name { IsEntrypoint result.1 }
{
    // Only these say that the parts have their forms.
    let _ = to.place.bytes();
    let _ = to.entrypoint.as_slice();
    (to.place, to.entrypoint)
}

// Mutez and a value go from the contract of these 20 bytes to an address.
pub(crate) fn send(
    alloc: Global,
    world: &mut World,
    costs: &Costs,
    source: &KeyHash,
    meter: &mut Meter,
    counts: &mut Counts,
    bodies: &mut Bodies,
    by: [u8; 20],
    to: &Address,
    amount: u64,
    argument: Value,
) -> Result<Applied, ApplyError>
    requires next { SomeBegins world.old costs.now counts.old source.now (issued_transfer world.old by argument amount to.now) }
    requires hosting { IsHosting world.old }
    requires there { is_some (contract_at world.old.funds.present by) ≡ true }
    requires formed { AreFormed argument }
    requires based { HasBases world.old.store.bases.present argument }
    ensures ends { Sends costs.entry source.entry by to.entry amount argument world.old meter.old counts.old world.new meter.new counts.new result }
    ensures hosting { IfOk result (λ _. IsHosting world.new) }
    ensures bases { IfOk result (λ _. Extends world.old.store.bases.present world.new.store.bases.present) }
    ensures contracts { IfOk result (λ _. KeepsContracts world.old world.new) }
    ensures keeps { WithMemory result (KeepsWorld world.old world.new) }
{
    let from = Place::Contract(by);
    let (place, name) = parts(to);
    match &place {
        Place::Implicit(who) => send_account(alloc, world, &from, who, &name, amount, argument),
        Place::Contract(hash) => call_contract(
            alloc, world, costs, source, meter, counts, bodies, &from, hash, &name, amount,
            argument,
        ),
    }
}
