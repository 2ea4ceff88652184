//! Arguments that a source writes, and other literals in a world, whose contracts they may name.
mod arguments;
mod literals;

pub use arguments::{ArgumentError, read_argument};
pub use literals::{has_entrypoint, is_taken_by_account, read_literal};
