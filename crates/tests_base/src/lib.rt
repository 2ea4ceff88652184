//! Tests of the lowest crates, of values and their literals, and of instructions without bodies, by their public calls.
#![tactic(auto)]

pub mod base;
pub mod blake;
pub mod data;
pub mod forms;
pub mod gas;
pub mod generate;
pub mod instructions;
pub mod io;
pub mod num;
pub mod saved;
#[cfg(test)]
mod support;
pub mod term;
