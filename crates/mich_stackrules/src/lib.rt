//! The rules of the instructions that have no bodies.
#![tactic(auto)]

mod arguments;
mod effect;
mod hashes;
mod instruction;
mod names;
mod operations;
mod order;
mod pairs;
mod rule;
mod tickets;
mod unions;
mod written;

pub use arguments::count_argument;
pub use effect::is_within_limit;
pub use names::named_entrypoint;
pub use rule::{apply_rule, rule_at};
pub use written::OfCount;
