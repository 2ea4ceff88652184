//! Definitions alone: the form of the text that a run prints, and whether its numbers agree.
#![tactic(auto)]
