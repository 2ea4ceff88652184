//! Values: the comparable ones with their order, all others, tickets, sets and maps; copies, weights, and discarding.
//!
//! A contract sees a comparable value by `datum` and any value by `val` as the value of the definitions that it stands for,
//! a set as the list of its elements in order, and a map as the list of its entries by key.
#![tactic(auto)]

mod chain;
mod comparing;
mod convert;
mod datum;
mod discarding;
mod elements;
mod holding;
mod identities;
mod laws;
pub mod maps;
mod same;
mod table;
mod ticket;
mod value;
mod weighing;

pub use chain::{Chain, split_head};
pub use comparing::compare_values;
pub use datum::{Datum, compare, copy_datum};
pub use discarding::discard;
pub use elements::Elements;
pub use holding::{carries, puts_ticket};
pub use laws::{equal_order_means_equal, order_is_lawful};
pub use same::{same_datum, same_id};
pub use table::Table;
pub use ticket::{Burner, Change, Ticket, TicketId, copy_id};
pub use value::{BigMap, Value, abandon, dup, shadow};
pub use weighing::{datum_weight, weight};
