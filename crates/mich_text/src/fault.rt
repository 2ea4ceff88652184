//! What can be wrong with a text.
ghost use Rattle.std.specs.Prelude.{◌≡◌};

use mich_base::Memory;
use rules_text::text::TextKind;
use std::alloc::{AllocError, AllocFailed};
use thiserror::Error;

/// A fault within a token, by the bytes that are left at its place.
#[derive(Clone, Copy, Debug, PartialEq, Eq)]
pub struct Flaw {
    pub kind: TextKind,
    pub left: usize,
}

/// Why no token was read.
#[derive(Clone, Copy, Debug, PartialEq, Eq)]
pub enum LexError {
    Memory,
    Flaw(Flaw),
}

impl From<Memory> for LexError {
    ghost use Rattle.mich_text.specs.declared.fault.LexError.{LexError};

    ghost from_gives = { λ _ e. e ≡ LexError.Memory };

    fn from(error: Memory) -> Self {
        drop(error);
        LexError::Memory
    }
}

impl From<AllocError> for LexError {
    ghost use Rattle.mich_text.specs.declared.fault.LexError.{LexError};

    ghost from_gives = { λ _ e. e ≡ LexError.Memory };

    fn from(_error: AllocError) -> Self {
        LexError::Memory
    }
}

impl<T: Drop> From<AllocFailed<T>> for LexError {
    ghost use Rattle.mich_text.specs.declared.fault.LexError.{LexError};

    ghost from_gives = { λ _ e. e ≡ LexError.Memory };

    fn from(_error: AllocFailed<T>) -> Self {
        LexError::Memory
    }
}

/// Why no statement was read: there was no room for it, or the text has a fault at a place, in bytes from 0.
#[derive(Debug, Drop, Error)]
pub enum TextError {
    #[error("out of memory")]
    Memory,
    #[error("{0:?} at byte {1}")]
    Fault(TextKind, u64),
}
