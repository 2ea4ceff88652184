//! Laws of byte forms, types, values, amounts of tickets and the binary form.
#![tactic(auto)]

pub mod binary;
pub mod forms;
pub mod types;
pub mod values;
