//! Laws of typed code: evaluation goes on by its own step, and is never stuck.
#![tactic(auto)]

pub mod evaluation;
pub mod safety;
