//! Laws of accounts, runs of contracts, groups and lines.
#![tactic(auto)]

pub mod groups;
pub mod lines;
