//! The commands: from the words and the file to the lines that are written.
#![tactic(auto)]

mod answer;
mod command;
mod feeding;
mod generating;
mod honest;
mod laws;
mod lines;
mod outcome;
mod progress;
mod reading;
mod replaying;
mod resuming;
mod session;
mod snapshotting;
mod steps;
mod top;
mod writing;

pub use honest::replay_bytes;
pub use laws::{
    commands_have_one_answer, groups_are_all_or_nothing, long_files_are_decided_by_their_fronts,
    mutez_is_conserved, no_group_is_stuck, tickets_are_conserved,
};
pub use top::mich;
