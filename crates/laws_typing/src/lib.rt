//! Laws of literals, and of what can be packed.
#![tactic(auto)]

pub mod literals;
pub mod packing;
