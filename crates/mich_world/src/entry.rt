// What the journal keeps.
use crate::contract::Contract;
use mich_forms::Place;
use mich_term::Value;

/// What stood at a place before a write to it.
#[derive(Drop)]
pub(crate) enum Change {
    /// The balance of the account at a place. None where it wasn't there.
    Account(Place, Option<u64>),
    /// A contract. None where it wasn't there.
    Contract([u8; 20], Option<Contract>),
    /// The balance of a contract.
    Balance([u8; 20], u64),
    /// The storage of a contract.
    Storage([u8; 20], Value),
    /// The bytes that a contract has paid for.
    Paid([u8; 20], u64),
    /// The fees that were taken.
    Fees(u64),
    /// What was burnt for storage.
    StorageBurn(u64),
    /// All that was granted.
    Granted(u64),
}

/// A write, and all mutez before it.
#[derive(Drop)]
pub(crate) struct Entry {
    pub(crate) change: Change,
    pub(crate) supply: u64,
}
