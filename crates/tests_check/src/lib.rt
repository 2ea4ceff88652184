//! Tests of types, bodies and literals, by public calls.
#![tactic(auto)]

pub mod cache;
pub mod scripts;
#[cfg(test)]
mod support;
pub mod types;
