// Why a node is no type or parameter.
ghost use Rattle.std.specs.Prelude.{◌≡◌};

use mich_base::Memory;
use thiserror::Error;

/// Why a node is no type or no parameter.
#[derive(Debug, Drop, Error)]
pub enum TypeError {
    /// The node at this location is no type, lacks an attribute where it stands, or has a bad name of an entrypoint.
    #[error("bad type at {0}")]
    BadType(u32),
    /// The type has more than 2,000 nodes.
    #[error("type too large")]
    TypeTooLarge,
    /// The branch at this location has the name of an earlier entrypoint.
    #[error("repeated entrypoint at {0}")]
    RepeatedEntrypoint(u32),
    /// There was no room in memory.
    #[error("out of memory")]
    Memory,
}

impl From<Memory> for TypeError {
    ghost use Rattle.mich_types.specs.declared.error.TypeError.{TypeError};

    ghost from_gives = { λ m e. e ≡ TypeError.Memory };

    fn from(error: Memory) -> TypeError {
        drop(error);
        TypeError::Memory
    }
}
