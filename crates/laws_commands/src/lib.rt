//! Laws of what the commands answer: printed runs agree with their own numbers and can be read, and what resumes goes on as it was.
#![tactic(auto)]

pub mod audits;
pub mod reached;
pub mod resuming;
pub mod written;
