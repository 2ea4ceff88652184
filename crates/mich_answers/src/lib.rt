//! Answers of the commands that read a file whole: `encode`, `decode`, `pack`, `check`, `certify`, `verify` and `audit`.
//!
//! Each answer is a status and the lines that are written; a clause says that it is the answer of the rules to the file.
#![tactic(auto)]

mod answer;
mod auditing;
mod certifying;
mod checking;
mod lines;
mod node_commands;
mod packing;
mod statements;

pub use answer::{Answer, done, misplaced, refused};
pub use auditing::answer_audit;
pub use certifying::answer_verify;
pub use checking::{ScriptCommand, answer_script};
pub use lines::{as_text, refusal_line, text_kind_name};
pub use node_commands::{NodeCommand, answer_node};
pub use statements::{Next, read_next};
