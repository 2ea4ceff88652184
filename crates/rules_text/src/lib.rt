//! Definitions alone: nodes, their text and their binary form, hashes, and what files and outputs do.
#![tactic(auto)]

pub mod binary;
pub mod nodes;
pub mod text;
