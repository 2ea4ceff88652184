//! Laws of tickets: code and runs neither make nor lose one but by minting and burning.
#![tactic(auto)]

pub mod runs;
