//! Tests of instructions without bodies, by public calls.
pub mod collections;
pub mod entries;
pub mod hashes;
pub mod prices;
pub mod stack;
pub mod step;
#[cfg(test)]
mod support;
