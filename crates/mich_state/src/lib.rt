//! The state of a run, and how a view opens over it.
#![tactic(auto)]

mod state;
mod viewing;

pub use state::{Counts, State};
pub use viewing::Outer;
