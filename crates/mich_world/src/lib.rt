//! The world that operations are applied to: accounts, contracts, fees, the clock, the ledger of tickets and the store of big
//! maps, with journals by which writes are taken back.
//!
//! Contracts see each part as a history: the present state, and the state at each lower height of its journal.
#![tactic(auto)]

mod contract;
mod entry;
mod errors;
mod funds;
mod keeping;
mod keys;
mod laws;
mod maps;
mod mark;
mod moving;
pub mod preconditions;
mod restoring;
pub mod simulation;
mod storing;
mod world;

pub use contract::Contract;
pub use errors::{GrantError, MoveError};
pub use laws::{
    balances_agree, fees_agree, marks_come_back, marks_stay, moves_agree, supplies_agree,
};
pub use mark::Mark;
pub use restoring::{Saved, SavedAccount, SavedContract};
pub use world::World;
