// What no clause says: that the calls answer with ample memory, and that a mark and undoing to it cost little.
ghost use Rattle.std.specs.Prelude.{◌≡◌, ℕ, List, pos, IfOk};
ghost use Rattle.rules_data.specs.values.Tickets.{Identity};
ghost use Rattle.mich_tickets.specs.Sums.{held_of};

use mich_base::{Memory, Node, Nodes, Rows, Shared, Ty};
use mich_forms::{ChainId, KeyHash, Place};
use mich_instr::Script;
use mich_term::Value;
use mich_types::Parameter;
use mich_world::{Contract, GrantError, MoveError, World};
use std::alloc::Global;
use std::test::Fail;

const HASH: [u8; 20] = [7; 20];

fn key_hash(number: u32) -> KeyHash {
    let bytes = number.to_be_bytes();
    let mut hash = [0; 20];
    hash[0] = bytes[0];
    hash[1] = bytes[1];
    hash[2] = bytes[2];
    hash[3] = bytes[3];
    KeyHash { tag: 0, hash }
}

fn account(number: u32) -> Place {
    Place::Implicit(key_hash(number))
}

// A world of one account with 100 mutez.
fn with_account(alloc: Global) -> Result<World, GrantError> {
    let mut world = World::new(alloc, ChainId { body: [0; 4] }, 0, 0);
    world.grant(key_hash(300), 100)?;
    Ok(world)
}

// What two accounts have, once one has paid a fee of 5 and sent 30 mutez to the other.
fn moved(alloc: Global) -> Result<(Option<u64>, Option<u64>), Fail> {
    let mut world = with_account(alloc)?;
    world.take_fee(key_hash(300), 5)?;
    world.move_mutez(Place::Implicit(key_hash(300)), account(2), 30)?;
    Ok((world.balance(account(300)), world.balance(account(2))))
}

#[test]
fn fees_and_mutez_move(rt: HostRuntime) -> Result<(), Fail> {
    let balances = moved(rt.alloc())?;
    assert!(rt; balances == (Some(65), Some(30)));
    Ok(())
}

// Whether the keys of two accounts come in order.
fn are_keys_in_order(alloc: Global) -> Result<bool, Fail> {
    let mut world = with_account(alloc)?;
    world.grant(key_hash(2), 1)?;
    let keys = world.account_keys(alloc)?;
    Ok(keys.len() == 2 && keys.get(0) == Some(&key_hash(2)))
}

#[test]
fn keys_stand_in_order(rt: HostRuntime) -> Result<(), Fail> {
    let ordered = are_keys_in_order(rt.alloc())?;
    assert!(rt; ordered);
    Ok(())
}

fn script(alloc: Global) -> Result<Shared<Script>, Memory> {
    let code = Shared::new(alloc, Rows::new(alloc))?;
    Shared::new(
        alloc,
        Script {
            node: Node::Seq(Nodes::new(alloc)),
            parameter: Parameter {
                ty: Ty::Unit,
                entries: Rows::new(alloc),
            },
            storage: Ty::Int,
            code,
            views: Rows::new(alloc),
        },
    )
}

// A world at a rate of 3, of an account with 40 mutez and a contract with 60 that stores 4. Nobody holds a ticket.
fn with_contract(alloc: Global) -> Result<World, Fail>
    ensures { IfOk result (λ w. (j : Identity) (o : List ℕ) → held_of w.ledger.books.present j o ≡ pos 0) }
{
    let mut world = World::new(alloc, ChainId { body: [0; 4] }, 0, 0);
    world.set_rate(3);
    world.grant(key_hash(300), 100)?;
    let script = script(alloc)?;
    let from = Place::Implicit(key_hash(300));
    world.install(alloc, HASH, from, 60, script, Value::Number(4))?;
    Ok(world)
}

fn count_contracts(alloc: Global) -> Result<usize, Fail> {
    let world = with_contract(alloc)?;
    Ok(world.contract_keys(alloc)?.len())
}

#[test]
fn a_contract_is_made(rt: HostRuntime) -> Result<(), Fail> {
    let count = count_contracts(rt.alloc())?;
    assert!(rt; count == 1);
    Ok(())
}

// The number that is the storage of the contract, or -1.
fn stored(world: &World) -> i128 {
    match world.contract(&HASH) {
        Some(
            Contract {
                storage: Value::Number(n),
                ..
            },
        ) => *n,
        _ => -1,
    }
}

// A contract that stores a number stores another, where nobody holds a ticket.
fn replace(alloc: Global, world: &mut World, hash: &[u8; 20], number: i128) -> Result<(), Memory>
    requires none { (j : Identity) (o : List ℕ) → held_of world.old.ledger.books.present j o ≡ pos 0 }
{
    let Some(contract) = world.contract(hash) else {
        return Err(Memory);
    };
    let Value::Number(_) = contract.storage else {
        return Err(Memory);
    };
    world.commit(alloc, hash, Value::Number(number))
}

// What is stored once 5 was to be.
fn replaced(alloc: Global) -> Result<i128, Fail> {
    let mut world = with_contract(alloc)?;
    replace(alloc, &mut world, &HASH, 5)?;
    Ok(stored(&world))
}

#[test]
fn a_storage_is_replaced(rt: HostRuntime) -> Result<(), Fail> {
    let number = replaced(rt.alloc())?;
    assert!(rt; number == 5);
    Ok(())
}

// What the account pays for so many bytes of the contract.
fn pay(world: &mut World, size: u64) -> Result<u64, MoveError> {
    if world.rate().is_none() || world.contract(&HASH).is_none() {
        return Err(MoveError::NoContract);
    }
    world.pay_storage(&HASH, size, key_hash(300))
}

// The same for 10 bytes, and what the account has then.
fn paid(alloc: Global) -> Result<(u64, Option<u64>), Fail> {
    let mut world = with_contract(alloc)?;
    let mutez = pay(&mut world, 10)?;
    Ok((mutez, world.balance(account(300))))
}

#[test]
fn storage_is_paid_for(rt: HostRuntime) -> Result<(), Fail> {
    let mutez = paid(rt.alloc())?;
    assert!(rt; mutez == (30, Some(10)));
    Ok(())
}

// So many accounts with 1 mutez each.
fn many_accounts(alloc: Global, count: u32) -> Result<World, GrantError> {
    let mut world = World::new(alloc, ChainId { body: [0; 4] }, 0, 0);
    for number in 0..count {
        world.grant(key_hash(number), 1)?;
    }
    Ok(world)
}

// Each round leaves the world as it was.
fn go_rounds(world: &mut World, count: u32) -> Result<(), MoveError> {
    for _ in 0..count {
        let mark = world.mark();
        world.take_fee(key_hash(0), 1)?;
        world.undo_to(mark);
    }
    Ok(())
}

// The fees and the supply of 50,000 accounts once a fee was taken and undone 200,000 times.
fn undone_often(alloc: Global) -> Result<(u64, u64), Fail> {
    let mut world = many_accounts(alloc, 50_000)?;
    go_rounds(&mut world, 200_000)?;
    Ok((world.fees(), world.supply()))
}

#[test]
fn many_marks_are_undone(rt: HostRuntime) -> Result<(), Fail> {
    let mutez = undone_often(rt.alloc())?;
    assert!(rt; mutez == (0, 50_000));
    Ok(())
}
