//! Big maps: an overlay of changes over a base that values share, and the store of bases with its journal.
#![tactic(auto)]

mod entries;
mod flattening;
mod keeping;
mod laws;
mod layers;
mod merging;
mod noting;
mod printed;
mod settling;
mod settling_all;
mod store;
mod types;
mod unsharing;

pub use entries::{erase, get, put, take, write};
pub use laws::{
    big_maps_stay, kept_are_reached, kept_bases_stand, kept_values_stand, plain_values_stand,
    tickets_lie_in_values, values_stay,
};
pub use printed::{flat, release};
pub use settling::settle;
pub use settling_all::settle_all;
pub use store::Store;
pub use unsharing::unshared;
