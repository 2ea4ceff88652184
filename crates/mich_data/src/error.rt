// Why a node is no literal of a type.
ghost use Rattle.std.specs.Prelude.{◌≡◌};

use mich_base::Memory;
use thiserror::Error;

/// Why a node is no literal of a type.
#[derive(Debug, Drop, Error)]
pub enum ValueError {
    /// The node at this location is the first, in pre-order, that doesn't fit the type that it stands for.
    #[error("not of the type at {0}")]
    NotOfType(u32),
    /// There was no room in memory.
    #[error("out of memory")]
    Memory,
}

impl From<Memory> for ValueError {
    ghost use Rattle.mich_data.specs.declared.error.ValueError.{ValueError};

    ghost from_gives = { λ m e. e ≡ ValueError.Memory };

    fn from(error: Memory) -> ValueError {
        drop(error);
        ValueError::Memory
    }
}
