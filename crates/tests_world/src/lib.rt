//! Tests of tickets, big maps, worlds, and of runs and groups in them, by public calls.
#![tactic(auto)]

pub mod bigmap;
pub mod group;
pub mod machine;
pub mod snapshots;
#[cfg(test)]
mod support;
pub mod tickets;
pub mod unpack;
pub mod world;
