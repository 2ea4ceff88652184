//! Micheline text: one statement of it is read, whole or in pieces, and a node is printed.
#![tactic(auto)]

mod fault;
mod laws;
mod lexical;
mod line;
mod node;
mod parser;
pub mod pieces;
mod plain;
mod reader;
mod token;

pub use fault::TextError;
pub use laws::{a_line_is_read_again, one_reading};
pub use line::{print, put_node};
pub use reader::{Placed, read_alone, read_part, read_statement};
pub use rules_text::text::TextKind;
