// Gas: the prices of what a run does, and the meter that is charged.
#![tactic(auto)]

mod costs;
mod meter;
mod names;

pub use costs::{BadCosts, Costs, Price, is_table, read_costs};
pub use meter::{Meter, OutOfGas};
pub use rules_data::gas::Kind;
