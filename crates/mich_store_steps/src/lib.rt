//! What instructions that use a store of big maps, pack or hash make of a stack.
#![tactic(auto)]

pub mod big_maps;
pub mod hashes;
