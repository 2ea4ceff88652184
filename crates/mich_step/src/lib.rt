//! What instructions without bodies do to the values of the stack.
#![tactic(auto)]

pub mod burning;
pub mod collections;
mod dispatching;
mod environment;
mod logic;
mod numbers;
mod operations;
mod order;
mod pairs;
pub mod prices;
mod tickets;
mod unions;

pub use burning::burn_all;
pub use dispatching::step;
pub use environment::{Env, environment_step};
pub use logic::logic_step;
pub use numbers::number_step;
pub use order::{dig, dug, dup_value, stack_step, swap, unit};
pub use pairs::{pair, pair_step, unpair};
pub use unions::union_step;
