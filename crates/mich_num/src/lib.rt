// Arithmetic on ints and amounts of mutez: exact results, or the limit that is passed.
#![tactic(auto)]

mod amounts;
mod bits;
mod fault;
mod integers;
mod spelling;

pub use amounts::{mutez_add, mutez_mul, mutez_sub};
pub use bits::{and, not, or, xor};
pub use fault::NumFault;
pub use integers::{abs, add, ediv, mul, neg, shl, shr, sub};
pub use spelling::{Word, from_bytes, to_bytes};
