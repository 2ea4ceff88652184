//! What a script and its instructions are given beside code: types with an attribute, the names of views, and the sections of a
//! script, whose types are read with the parameter's entrypoints and whose bodies stay as they are written.
#![tactic(auto)]

mod arguments;
mod content;
mod error;
mod gathering;
mod outline;
mod placed;

pub use arguments::{Attribute, is_view_name, type_argument};
pub use error::TypingError;
pub use outline::{Outline, View, read_outline};
pub use placed::Placed;
