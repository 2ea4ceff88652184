//! The check of scripts, of the bodies of lambdas and of literals.
//!
//! A contract says what a node's typing is by `tree_type`, `script` and `literal` of the rules, and that the code which is made
//! is the node's typed code by `IsCode`.
#![tactic(auto)]

pub mod cache;
mod creating;
mod ends;
mod lambdas;
mod literals;
mod nodes;
mod scripts;

pub use creating::{Origin, origination, stack_behind};
pub use ends::{Ends, code_ends, view_ends};
pub use lambdas::check_body;
pub use literals::{Checked, check_literal, check_literal_at};
pub use mich_control::CheckError;
pub use scripts::check_script;
