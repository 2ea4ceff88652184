//! What the check makes of a node and of a block: its typed code with the stack after it, or where it is ill typed.
#![tactic(auto)]

mod error;
mod made;

pub use error::CheckError;
pub use made::{Body, Made};
