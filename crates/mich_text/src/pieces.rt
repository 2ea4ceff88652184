//! Micheline text that comes in pieces.
mod laws;
mod reader;
mod scan;

pub use laws::{a_file_is_decided_by_its_front, a_front_decides, pieces_are_read_as_the_file};
pub use reader::{Next, Reader};
