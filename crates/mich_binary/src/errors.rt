// Why a node could not be encoded, or bytes not decoded.
ghost use Rattle.std.specs.Prelude.{◌≡◌};

use mich_base::Memory;
use rules_text::binary::DecodeKind;
use std::alloc::{AllocError, AllocFailed};
use thiserror::Error;

/// Why a node has no binary form here.
#[derive(Debug, Drop, Error)]
pub enum EncodeError {
    /// The name at this location, counted in pre-order from 0, is no primitive's.
    #[error("the name at location {0} is no primitive")]
    NoCode(u32),
    /// The binary form would have more than 268,435,456 bytes.
    #[error("the binary form is too long")]
    TooLong,
    /// There was no room in memory.
    #[error("out of memory")]
    Memory,
}

impl From<Memory> for EncodeError {
    ghost use Rattle.mich_binary.specs.declared.errors.EncodeError.{EncodeError};

    ghost from_gives = { λ _ e. e ≡ EncodeError.Memory };

    fn from(error: Memory) -> EncodeError {
        drop(error);
        EncodeError::Memory
    }
}

impl From<AllocError> for EncodeError {
    ghost use Rattle.mich_binary.specs.declared.errors.EncodeError.{EncodeError};

    ghost from_gives = { λ _ e. e ≡ EncodeError.Memory };

    fn from(error: AllocError) -> EncodeError {
        drop(error);
        EncodeError::Memory
    }
}

impl<T: Drop> From<AllocFailed<T>> for EncodeError {
    ghost use Rattle.mich_binary.specs.declared.errors.EncodeError.{EncodeError};

    ghost from_gives = { λ _ e. e ≡ EncodeError.Memory };

    fn from(error: AllocFailed<T>) -> EncodeError {
        drop(error);
        EncodeError::Memory
    }
}

/// Why bytes could not be decoded.
#[derive(Debug, Drop, Error)]
pub enum DecodeError {
    /// The first fault from the left, and the place of the byte that it is at, counted from 0.
    #[error("{0:?} at byte {1}")]
    Fault(DecodeKind, u64),
    /// There was no room in memory.
    #[error("out of memory")]
    Memory,
}

impl From<Memory> for DecodeError {
    ghost use Rattle.mich_binary.specs.declared.errors.DecodeError.{DecodeError};

    ghost from_gives = { λ _ e. e ≡ DecodeError.Memory };

    fn from(error: Memory) -> DecodeError {
        drop(error);
        DecodeError::Memory
    }
}
