// Why there is no certificate.
ghost use Rattle.std.specs.Prelude.{◌≡◌};

use mich_base::Memory;
use thiserror::Error;

/// Why a script has no certificate.
#[derive(Debug, Drop, Error)]
pub enum CertError {
    /// The location of the first fault of its typing.
    #[error("ill typed at {0}")]
    IllTyped(u32),
    /// 0 where the script has more than 998 levels; or the location of the first entry with a type of more than 990.
    #[error("too deep at {0}")]
    TooDeep(u32),
    /// The certificate has more than 16,777,216 bytes as a line.
    #[error("too long")]
    TooLong,
    /// There was no room in memory.
    #[error("out of memory")]
    Memory,
}

impl From<Memory> for CertError {
    ghost use Rattle.mich_cert.specs.declared.telling.error.CertError.{CertError};

    ghost from_gives = { λ m e. e ≡ CertError.Memory };

    fn from(error: Memory) -> CertError {
        drop(error);
        CertError::Memory
    }
}

// Why something has no place on a line.
#[derive(Debug, Drop, Error)]
pub(crate) enum LineError {
    #[error("too long")]
    Long,
    #[error("out of memory")]
    Memory,
}

impl From<Memory> for LineError {
    ghost use Rattle.mich_cert.specs.declared.telling.error.LineError.{LineError};

    ghost from_gives = { λ m e. e ≡ LineError.Memory };

    fn from(error: Memory) -> LineError {
        drop(error);
        LineError::Memory
    }
}
