//! Lemmas: a world that stands for one of the definitions stands for the next one after each call, and a good world gives the calls
//! what they ask.
mod agreeing;
mod running;

pub use agreeing::{
    accounts_agree, clocks_agree, commits_agree, contracts_agree, credits_agree,
    credits_make_accounts, debits_agree, grants_agree, installs_agree, keeping_agrees, marks_agree,
    new_worlds_agree, payments_agree, rates_agree, receivers_agree, run_ends_agree, runs_agree,
    same_worlds_agree,
};
pub use running::{
    fees_keep_stored, grants_keep_stored, ledgers_run, moves_keep_stored, payments_keep_stored,
    runs_begin, runs_go_on, runs_keep_stored, stores_run,
};
