//! What stands in the bytes of a snapshot: numbers, marks, comparable values, types, values that can be stored, and parts of a
//! state, which are read with their places, and of which all but scripts and storages are written here.
//!
//! A contract says of a reader, by `Gives`, that it gives what the reader of the rules gives, with the place of its fault.
#![tactic(auto)]

mod collections;
mod cursor;
mod datums;
mod errors;
mod fields;
mod making;
mod parts;
mod reading;
mod storage;
mod types;
mod values;
mod writing;

pub use errors::LoadError;
pub use parts::{ReadAccount, ReadContract, ReadTotal};
pub use reading::{Head, Moment, ReadState, read};
pub use writing::{
    put, put_datum, put_eight, put_field, put_four, put_identity, put_issuer, put_mark, put_price,
    put_signed_eight, put_signed_sixteen,
};
