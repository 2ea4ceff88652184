//! Certificates as the typing of a script tells them.
mod certifying;
mod create;
mod error;
mod forms;
mod length;
mod levels;
mod literals;
mod nodes;
mod plain;
mod scripts;
mod told;

pub use certifying::certify;
pub use error::CertError;
