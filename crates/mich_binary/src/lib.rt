// The binary form of nodes: encoding and decoding.
#![tactic(auto)]

mod codes;
mod cursor;
mod decoding;
mod encoding;
mod errors;
mod fields;
mod integer;
mod nodes;
mod writing;

pub use decoding::decode;
pub use encoding::{encode, spelt};
pub use errors::{DecodeError, EncodeError};
pub use rules_text::binary::DecodeKind;
