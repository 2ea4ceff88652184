//! Definitions alone: byte forms, numbers, types, values, big maps and gas.
#![tactic(auto)]

pub mod gas;
pub mod types;
