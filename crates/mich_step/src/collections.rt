//! What instructions on sets, maps, lists, strings and bytes make of a stack, apart from those on big maps.
mod bytes;
mod collections;
mod counting;
mod maps;
mod sets;
mod tables;
mod taking;
mod texts;

pub use bytes::{bytes_of, cut};
pub use collections::collection_step;
pub use tables::value_in;
pub use texts::text_step;
