//! What instructions without bodies cost: the kind of each, whose price a table tells, and its weight on a stack.
mod prices;
mod texts;
mod weights;

pub use prices::{
    collection_price, hash_price, logic_price, number_price, pair_price, price, union_price,
};
pub use weights::{number_weight, weigh};
