//! The interpreter: it runs typed code with frames of its own.
#![tactic(auto)]

mod act;
mod applied;
mod applying;
mod beginning;
mod big_maps;
mod branches;
mod burning;
mod callers;
mod calls;
mod contracts;
mod creating;
mod dipping;
mod direct;
mod frame;
mod giving;
mod hashing;
mod issuing;
mod items;
mod iterating;
mod lookups;
mod loops;
mod machine;
mod made;
mod mapping;
mod paying;
mod stack;
mod straights;
mod unpacking;
mod viewing;
mod visits;
mod went;

pub use act::Failed;
pub use beginning::run_code;
pub use contracts::new_contract;
pub use machine::Ended;
pub use mich_check::cache::{Bodies, Uses};
pub use mich_state::{Counts, State};
