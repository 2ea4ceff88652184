// Accounts and contracts by their keys, and writes to them that can be taken back.
ghost use Rattle.std.specs.Prelude.{◌≡◌, ◌+◌, ◌≤◌, IfOk, OnErr, IfSome, is_some, option_map, unwrap_or};
ghost use Rattle.std.specs.BTreeMap.{is_at, insert_entry};
ghost use Rattle.std.specs.List.{sum_by};
ghost use Rattle.std.specs.Map.{lookup, values_of};
ghost use Rattle.mich_base.specs.undo.Undone.{undone, changed_at};
ghost use Rattle.mich_world.specs.Holders.{all_balances, balance_in, by_bytes, rebalanced, repaid, restored};
ghost use Rattle.mich_world.specs.Before.{accounts_before};

use crate::contract::Contract;
use mich_base::Memory;
use mich_base::undo::{put, put_back};
use mich_forms::{KeyHash, Place};
use mich_term::Value;
use std::collections::BTreeMap;
use std::mem;

pub(crate) type Accounts = BTreeMap<KeyHash, u64>;

pub(crate) type Contracts = BTreeMap<[u8; 20], Contract>;

// The balance of an account. None where it isn't there.
pub(crate) fn account(accounts: &Accounts, who: &KeyHash) -> Option<u64>
    ensures value { result ≡ lookup (is_at (by_bytes who.now)) accounts.now.entries }
    ensures within { unwrap_or result 0 ≤ sum_by (λ n. n) (values_of accounts.now.entries) }
{
    accounts.get(who).copied()
}

// The balance of a contract. None where it isn't there.
pub(crate) fn contract_balance(contracts: &Contracts, hash: &[u8; 20]) -> Option<u64>
    ensures value { result ≡ option_map (λ c. c.balance) (lookup (is_at (by_bytes hash.now)) contracts.now.entries) }
    ensures within { unwrap_or result 0 ≤ all_balances contracts.now.entries }
{
    match contracts.get(hash) {
        Some(contract) => Some(contract.balance),
        None => None,
    }
}

// Writes the balance of an account, and gives what stood there. Memory where there is no room for it; the accounts are then
// unchanged.
pub(crate) fn put_account(
    accounts: &mut Accounts,
    who: KeyHash,
    mutez: u64,
) -> Result<Option<u64>, Memory>
    ensures new { IfOk result (λ _. accounts.new.entries ≡ insert_entry by_bytes accounts.old.entries who mutez) }
    ensures old { IfOk result (λ old. old ≡ lookup (is_at (by_bytes who)) accounts.old.entries) }
    ensures back { IfOk result (λ old. undone by_bytes accounts.new.entries who old ≡ accounts.old.entries) }
    ensures sum { IfOk result (λ old. sum_by (λ n. n) (values_of accounts.new.entries) + unwrap_or old 0 ≡ sum_by (λ n. n) (values_of accounts.old.entries) + mutez) }
    ensures within { IfOk result (λ old. unwrap_or old 0 ≤ sum_by (λ n. n) (values_of accounts.old.entries)) }
    ensures unchanged { OnErr result (accounts.new.entries ≡ accounts.old.entries) }
{
    let old = put(accounts, who, mutez)?;
    Ok(old)
}

// Takes a write of the balance of the account at a place back; takes no memory.
pub(crate) fn account_back(accounts: &mut Accounts, place: &Place, old: Option<u64>)
    ensures { accounts.new.entries ≡ accounts_before place.now old accounts.old.entries }
{
    match place {
        Place::Implicit(who) => put_back(accounts, *who, old),
        Place::Contract(_) => {}
    }
}

// Puts a contract in, and gives what stood there. Memory where there is no room for it; the contracts are then unchanged.
pub(crate) fn put_contract(
    contracts: &mut Contracts,
    hash: [u8; 20],
    contract: Contract,
) -> Result<Option<Contract>, Memory>
    ensures new { IfOk result (λ _. contracts.new.entries ≡ insert_entry by_bytes contracts.old.entries hash contract) }
    ensures old { IfOk result (λ old. old ≡ lookup (is_at (by_bytes hash)) contracts.old.entries) }
    ensures back { IfOk result (λ old. undone by_bytes contracts.new.entries hash old ≡ contracts.old.entries) }
    ensures sum { IfOk result (λ old. all_balances contracts.new.entries + balance_in old ≡ all_balances contracts.old.entries + contract.balance) }
    ensures within { IfOk result (λ old. balance_in old ≤ all_balances contracts.old.entries) }
    ensures unchanged { OnErr result (contracts.new.entries ≡ contracts.old.entries) }
{
    let old = put(contracts, hash, contract)?;
    Ok(old)
}

// Exchanges the balance of a contract, where it is there; takes no memory.
pub(crate) fn swap_balance(contracts: &mut Contracts, hash: &[u8; 20], mutez: u64) -> Option<u64>
    ensures new { contracts.new.entries ≡ changed_at (is_at (by_bytes hash.now)) contracts.old.entries (rebalanced mutez) }
    ensures back { IfSome result (λ old. changed_at (is_at (by_bytes hash.now)) contracts.new.entries (rebalanced old) ≡ contracts.old.entries) }
    ensures old { result ≡ option_map (λ c. c.balance) (lookup (is_at (by_bytes hash.now)) contracts.old.entries) }
    ensures sum { IfSome result (λ old. all_balances contracts.new.entries + old ≡ all_balances contracts.old.entries + mutez) }
    ensures within { IfSome result (λ old. old ≤ all_balances contracts.old.entries) }
{
    match contracts.get_mut(hash) {
        Some(contract) => {
            let old = contract.balance;
            contract.balance = mutez;
            Some(old)
        }
        None => None,
    }
}

// Exchanges the bytes that a contract has paid for, where it is there; takes no memory.
pub(crate) fn swap_paid(contracts: &mut Contracts, hash: &[u8; 20], paid: u64) -> Option<u64>
    ensures new { contracts.new.entries ≡ changed_at (is_at (by_bytes hash.now)) contracts.old.entries (repaid paid) }
    ensures back { IfSome result (λ old. changed_at (is_at (by_bytes hash.now)) contracts.new.entries (repaid old) ≡ contracts.old.entries) }
    ensures there { is_some result ≡ is_some (lookup (is_at (by_bytes hash.now)) contracts.old.entries) }
    ensures sum { all_balances contracts.new.entries ≡ all_balances contracts.old.entries }
{
    match contracts.get_mut(hash) {
        Some(contract) => {
            let old = contract.paid;
            contract.paid = paid;
            Some(old)
        }
        None => None,
    }
}

// Exchanges the storage of a contract, where it is there; takes no memory.
pub(crate) fn swap_storage(
    contracts: &mut Contracts,
    hash: &[u8; 20],
    storage: Value,
) -> Option<Value>
    ensures new { contracts.new.entries ≡ changed_at (is_at (by_bytes hash.now)) contracts.old.entries (restored storage) }
    ensures back { IfSome result (λ old. changed_at (is_at (by_bytes hash.now)) contracts.new.entries (restored old) ≡ contracts.old.entries) }
    ensures there { is_some result ≡ is_some (lookup (is_at (by_bytes hash.now)) contracts.old.entries) }
    ensures sum { all_balances contracts.new.entries ≡ all_balances contracts.old.entries }
{
    match contracts.get_mut(hash) {
        Some(contract) => {
            let old = mem::replace(&mut contract.storage, storage);
            Some(old)
        }
        None => None,
    }
}
