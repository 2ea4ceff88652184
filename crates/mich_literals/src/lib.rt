//! Literals in a world: arguments and storages that a source writes, and what UNPACK reads.
#![tactic(auto)]

pub mod arguments;
pub mod unpacking;
