//! Definitions alone: the statements of a file, what they make of a world, the workload, and the answers of commands.
#![tactic(auto)]
