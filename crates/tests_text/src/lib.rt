//! Tests of what is read and printed, by public calls.
#![tactic(auto)]

pub mod answers;
pub mod audit;
pub mod binary;
pub mod limits;
pub mod reader;
pub mod report;
pub mod scenario;
pub mod text;
