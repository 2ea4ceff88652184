//! One operation of a group: a transfer, an origination, a gift of tickets or an event is applied to the world.
#![tactic(auto)]

mod accounts;
mod action;
mod applied;
mod arguments;
mod calls;
mod charging;
mod crediting;
mod founding;
mod gifts;
mod giving;
mod growing;
mod issued;
mod offering;
mod originating;
mod printing;
mod running;
mod sending;
mod telling;

pub use action::apply_action;
pub use applied::{Applied, ApplyError};
pub use issued::apply_issued;
