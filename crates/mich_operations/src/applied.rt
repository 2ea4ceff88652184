// What becomes of an operation.
ghost use Rattle.std.specs.Prelude.{◌≡◌};

use mich_base::{Memory, Rows};
use mich_ops::{Effect, Failure, Issued};

/// What an operation that was applied did, the growth of its contract where that was charged, and the operations that it emitted, in
/// order, with the 20 bytes of the contract that issued them; where there are none these say nothing.
#[derive(Drop)]
pub struct Applied {
    pub effect: Effect,
    pub growth: Option<Effect>,
    pub by: [u8; 20],
    pub emitted: Rows<Issued>,
}

/// Why an operation isn't applied: it fails, or there was no room for it.
#[derive(Debug, Drop)]
pub enum ApplyError {
    Failed(Failure),
    Memory,
}

impl From<Memory> for ApplyError {
    ghost use Rattle.mich_operations.specs.declared.applied.ApplyError.{ApplyError};

    ghost from_gives = { λ m e. e ≡ ApplyError.Memory };

    fn from(error: Memory) -> ApplyError {
        drop(error);
        ApplyError::Memory
    }
}
