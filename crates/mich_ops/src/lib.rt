//! Groups of operations and what becomes of them, as plain data: contents and actions, issued operations, effects, failures
//! and receipts.
//!
//! A contract sees them by the functions of specs/View as what they stand for in the definitions of worlds, and what an
//! issued operation is stands in specs/Issued.
#![tactic(auto)]

mod failure;
mod group;
mod issued;
mod receipt;

pub use failure::Failure;
pub use group::{Action, Content, Group};
pub use issued::Issued;
pub use receipt::{Effect, GroupFault, GroupReceipt, Status};
