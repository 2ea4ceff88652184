//! The text of a workload to measure with.
#![tactic(auto)]

mod workload;

pub use workload::scenario;
