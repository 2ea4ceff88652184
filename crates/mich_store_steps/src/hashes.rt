//! What PACK and the hashes make of a stack, and what they weigh.
mod digests;
mod steps;
mod weights;

pub use steps::hash_step;
pub use weights::hash_weight;
