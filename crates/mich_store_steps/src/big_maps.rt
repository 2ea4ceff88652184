//! What instructions on big maps make of a stack, and what they weigh, where big maps lie over the bases of a store.
mod entries;
mod rows;
mod taking;
mod weights;

pub use rows::big_map_step;
pub use weights::big_map_weight;
