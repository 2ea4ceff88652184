//! Literals: nodes read as values of a type, and values written as nodes.
#![tactic(auto)]

mod collections;
mod error;
mod lambdas;
mod pairs;
mod parts;
mod pending;
mod reading;
mod simple;
mod words;
mod writing;

pub use error::ValueError;
pub use pending::{Pending, Read};
pub use reading::{read_value, read_value_at, read_value_with};
pub use simple::simple_value;
pub use writing::value_node;
