//! Definitions alone: instructions, the typing of scripts, steps of instructions without bodies, and evaluation.
#![tactic(auto)]
