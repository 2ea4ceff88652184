//! Certificates: a script with the derivation of its typing, and the test of one without inference.
#![tactic(auto)]

mod argument;
mod bodiless;
mod calls;
mod counted;
mod entry;
mod forms;
mod limits;
mod literals;
mod nodes;
mod reading;
mod same;
mod scripts;
mod spelled;
mod table;
mod telling;
mod told;
mod verifying;
mod way;
mod words;

pub use telling::{CertError, certify};
pub use verifying::verify;
