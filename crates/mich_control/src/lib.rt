//! What instructions ask of the stack of types, and what is made of them and of their bodies, wherever bodies are typed.
//!
//! A contract says what a node's typing is by `tree_type` of the rules, and that the instruction which is made is the node's
//! typed code by `IsCode`. The crate above types the bodies.
#![tactic(auto)]

mod arrows;
mod bodiless;
mod dips;
mod form;
mod joining;
mod leaves;
mod maps;
mod place;
mod plain;
mod pushes;
mod reading;
mod selves;
mod shapes;
mod stacks;

pub use arrows::{Arrow, Written, begun, call_types, lambda_made, read_arrow};
pub use dips::{Count, Dip, counted, dip_parts, dipped, split_stack};
pub use form::{Bodiless, Branch, Form, Loop, form_of_name};
pub use joining::{ends_in, joined};
pub use leaves::{check_bodiless, check_straight, check_transfer};
pub use maps::{Mapping, Target, map_stacks, mapped};
pub use mich_typed::{Body, CheckError, Made};
pub use place::{Place, is_view};
pub use pushes::push_made;
pub use reading::type_with;
pub use selves::check_self;
pub use shapes::{
    Both, Turning, behind_loop, branch_instr, branch_stacks, loop_instr, loop_stacks, pair_of,
};
pub use stacks::{only, pop_type, push_type};
