// Why bytes could not be loaded.
ghost use Rattle.std.specs.Prelude.{◌≡◌};

use mich_base::Memory;
use thiserror::Error;

/// Why bytes could not be loaded as a state.
#[derive(Debug, Drop, Error)]
pub enum LoadError {
    /// The bytes are no snapshot; the place is that of the first field that can't be read, or of the first byte behind the last
    /// field, counted from 0.
    #[error("no snapshot at byte {0}")]
    BadForm(u64),
    /// The bytes spell a state that isn't sound; the place is that of the first byte of the earliest part whose rules fail.
    #[error("unsound at byte {0}")]
    Unsound(u64),
    /// There was no room in memory.
    #[error("out of memory")]
    Memory,
}

impl From<Memory> for LoadError {
    ghost use Rattle.mich_saved.specs.declared.errors.LoadError.{LoadError};

    ghost from_gives = { λ _ e. e ≡ LoadError.Memory };

    fn from(error: Memory) -> LoadError {
        drop(error);
        LoadError::Memory
    }
}
