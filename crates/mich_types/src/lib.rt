//! Types of Michelson: read from nodes and written as nodes, their attributes, and the entrypoints of a parameter.
#![tactic(auto)]

mod annotations;
mod attributes;
mod building;
mod error;
mod former;
mod parameter;
mod printing;
mod reading;
mod scan;

pub use annotations::{behind, behind_all, field_name};
pub use attributes::{big_value, comparable, duplicable, packable, passable, pushable, storable};
pub use error::TypeError;
pub use parameter::{Entry, Parameter, entrypoint, read_parameter};
pub use printing::{application, bare, over_one, over_two, type_node};
pub use reading::{read_type, type_at};
