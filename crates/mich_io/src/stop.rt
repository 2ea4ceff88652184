// Why a command was given up.
ghost use Rattle.std.specs.Prelude.{◌≡◌};
ghost use Rattle.mich_io.specs.Status.{status_in};

use mich_base::Memory;
use std::alloc::AllocError;

/// Why a command was given up.
#[derive(Clone, Copy, Debug, PartialEq, Eq)]
pub enum Stop {
    /// A file could not be started or read.
    Read,
    /// The output could not be written.
    Write,
    /// There was no memory.
    Memory,
}

impl From<Memory> for Stop {
    ghost use Rattle.mich_io.specs.declared.stop.Stop.{Stop};

    ghost from_gives = { λ _ e. e ≡ Stop.Memory };

    fn from(error: Memory) -> Stop {
        drop(error);
        Stop::Memory
    }
}

impl From<AllocError> for Stop {
    ghost use Rattle.mich_io.specs.declared.stop.Stop.{Stop};

    ghost from_gives = { λ _ e. e ≡ Stop.Memory };

    fn from(error: AllocError) -> Stop {
        drop(error);
        Stop::Memory
    }
}

/// The status of a command that was done, or given up: 3 after a read fault, 4 after a write fault, 5 for want of memory.
pub fn status_of(done: Result<u8, Stop>) -> u8
    ensures { result ≡ status_in done }
{
    match done {
        Ok(status) => status,
        Err(Stop::Read) => 3,
        Err(Stop::Write) => 4,
        Err(Stop::Memory) => 5,
    }
}
