//! What is written of a replay: the lines of groups, and of the world at the end.
#![tactic(auto)]

mod amounts;
mod changes;
mod effects;
mod failures;
mod fields;
mod gathering;
mod line;
mod parts;
mod receipts;
mod state;
mod summary;

pub use amounts::{Amounts, Printed};
pub use gathering::{Purses, all_minted, held_by_accounts};
pub use line::node_line;
pub use receipts::receipt_text;
pub use state::{state_lines, state_text};
pub use summary::summary_text;
