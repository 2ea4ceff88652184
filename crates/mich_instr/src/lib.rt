//! Typed code, scripts, and the bodies of lambdas as values hold them.
//!
//! `erase` gives back the node that typed code came from.
//!
//! A contract sees an instruction by `code` as the plain code that it stands for, and a script by `script`. What code is the
//! typed code of a node is `IsCode` of specs/Typed; that a script is the typed script of its node is `IsTypedScript` of specs/Scripts. A
//! body is seen as its node; what code is the typed code of a body stands in specs/Body.
#![tactic(auto)]

mod body;
mod erasing;
mod instr;
mod same;

pub use body::{Body, held_bodies};
pub use erasing::erase;
pub use instr::{Block, Instr, Script, ViewCode};
pub use same::same_node;
