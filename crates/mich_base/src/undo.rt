//! Writes that are taken back without memory: states with those before them, what is put into an ordered map and taken out
//! again, and the journal that keeps what was replaced.
//!
//! Contracts see a journal as a history: the present state, and the state at each lower height.
mod maps;

pub use maps::{note, put, put_back};
