//! Runs of contracts: an entrypoint is called in a world, and what its code leaves is kept there.
#![tactic(auto)]

mod beginning;
mod burning;
mod ending;
mod lending;
mod returning;
mod running;
mod telling;

pub use mich_interpreter::{Bodies, Counts, Uses, new_contract};
pub use running::{Finished, RunError, run};
