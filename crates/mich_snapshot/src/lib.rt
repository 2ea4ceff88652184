//! Snapshots: the bytes of a state, and the state that bytes spell.
#![tactic(auto)]

mod errors;
mod forms;
mod heads;
mod holders;
mod loading;
mod saving;
mod spelling;
mod state;
mod stored;
mod sums;

pub use errors::SaveError;
pub use loading::load;
pub use mich_saved::LoadError;
pub use saving::save;
pub use state::State;
