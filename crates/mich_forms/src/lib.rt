//! The byte forms of Michelson values: entrypoints, key hashes, keys, signatures, chain ids, places and addresses.
//!
//! Each form has one spelling in bytes, by which it is equal to another and ordered. A contract sees an
//! entrypoint, key hash, key, signature or chain id as the list of these bytes.
#![tactic(auto)]

mod addresses;
mod compared;
mod entrypoints;
mod keys;
mod padded;
mod places;
mod short_bytes;
mod signatures;

pub use addresses::Address;
pub use entrypoints::{Entrypoint, all_name_bytes};
pub use keys::{Key, KeyHash};
pub use places::Place;
pub use short_bytes::ShortBytes;
pub use signatures::{ChainId, Signature};
