//! Audit of the text that a run printed: whether its numbers agree, from its literals alone.
#![tactic(auto)]

mod book;
mod counted;
mod fields;
mod key;
mod line;
mod lines;
mod part;
mod receipts;
mod sums;
mod tally;
mod verdict;

pub use verdict::{Verdict, audit};
