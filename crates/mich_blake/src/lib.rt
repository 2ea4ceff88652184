//! BLAKE2b without a key (RFC 7693).
#![tactic(auto)]

mod compression;
mod digests;
mod hashers;

pub use digests::Digest;
pub use hashers::{Blake2b, blake_of};
