//! The forms of the statements of a file: what a node says as a statement.
#![tactic(auto)]

mod actions;
mod counted;
mod error;
mod fields;
mod forms;
mod statement;

pub use error::FormError;
pub use forms::{read_form, take_form};
pub use statement::Statement;
