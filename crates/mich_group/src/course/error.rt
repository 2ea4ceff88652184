// Why a statement is refused where it stands.
ghost use Rattle.std.specs.Prelude.{◌≡◌};

use mich_base::Memory;
use thiserror::Error;

/// Why a statement is refused where it stands.
#[derive(Debug, Drop, Error)]
pub enum CourseError {
    /// It can't stand there.
    #[error("the statement is out of order")]
    BadOrder,
    /// A row of prices is unknown, repeated or out of range.
    #[error("a row of prices is bad")]
    BadCosts,
    /// The account is there already.
    #[error("the account is there already")]
    RepeatedAccount,
    /// More than 2^63-1 mutez would be granted in all.
    #[error("more than 2^63-1 mutez would be granted in all")]
    SupplyLimit,
    /// There was no room in memory.
    #[error("out of memory")]
    Memory,
}

impl From<Memory> for CourseError {
    ghost use Rattle.mich_group.specs.declared.course.error.CourseError.{CourseError};

    ghost from_gives = { λ m e. e ≡ CourseError.Memory };

    fn from(error: Memory) -> CourseError {
        drop(error);
        CourseError::Memory
    }
}
