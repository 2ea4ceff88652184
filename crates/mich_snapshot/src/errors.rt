// Why a state could not be saved.
ghost use Rattle.std.specs.Prelude.{◌≡◌};

use mich_base::Memory;
use thiserror::Error;

/// Why a state could not be saved.
#[derive(Debug, Drop, Error)]
pub enum SaveError {
    /// The binary form of a script, or of a lambda in a storage, would have more than 268,435,456 bytes.
    #[error("a binary form is too long")]
    TooLong,
    /// There was no room in memory.
    #[error("out of memory")]
    Memory,
}

impl From<Memory> for SaveError {
    ghost use Rattle.mich_snapshot.specs.declared.errors.SaveError.{SaveError};

    ghost from_gives = { λ _ e. e ≡ SaveError.Memory };

    fn from(error: Memory) -> SaveError {
        drop(error);
        SaveError::Memory
    }
}
