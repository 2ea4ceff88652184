//! Worked rows, computed by the rules.
#![tactic(auto)]
