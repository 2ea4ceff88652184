//! Groups of operations: all of a group is applied to the world, or none but its fees.
#![tactic(auto)]

mod content;
mod contents;
pub mod course;
mod group;
mod refusal;
mod steps;
mod tree;
mod waiting;

pub use group::apply_group;
