// Why code is ill typed.
ghost use Rattle.std.specs.Prelude.{◌≡◌};

use mich_base::Memory;
use thiserror::Error;

/// Why an argument is refused, an instruction has no rule, or a node is no script.
#[derive(Debug, Drop, Error)]
pub enum TypingError {
    /// The location of the first fault.
    #[error("ill typed at {0}")]
    Fault(u32),
    /// There was no room in memory.
    #[error("out of memory")]
    Memory,
}

impl From<Memory> for TypingError {
    ghost use Rattle.mich_outline.specs.declared.error.TypingError.{TypingError};

    ghost from_gives = { λ m e. e ≡ TypingError.Memory };

    fn from(error: Memory) -> TypingError {
        drop(error);
        TypingError::Memory
    }
}
