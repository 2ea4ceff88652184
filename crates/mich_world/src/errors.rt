// Why mutez don't move, and why an account isn't made.
ghost use Rattle.std.specs.Prelude.{◌≡◌};

use mich_base::Memory;
use thiserror::Error;

/// Why mutez don't move.
#[derive(Debug, Drop, Error)]
pub enum MoveError {
    /// The balance is less than the amount.
    #[error("the balance is too low")]
    BalanceTooLow,
    /// There is no such contract.
    #[error("there is no such contract")]
    NoContract,
    /// There was no room in memory.
    #[error("out of memory")]
    Memory,
}

/// Why an account isn't made.
#[derive(Debug, Drop, Error)]
pub enum GrantError {
    /// It is there already.
    #[error("the account is there already")]
    RepeatedAccount,
    /// More than 2^63-1 mutez would be granted in all.
    #[error("more than 2^63-1 mutez would be granted in all")]
    SupplyLimit,
    /// There was no room in memory.
    #[error("out of memory")]
    Memory,
}

impl From<Memory> for MoveError {
    ghost use Rattle.mich_world.specs.declared.errors.MoveError.{MoveError};

    ghost from_gives = { λ m e. e ≡ MoveError.Memory };

    fn from(error: Memory) -> MoveError {
        drop(error);
        MoveError::Memory
    }
}

impl From<Memory> for GrantError {
    ghost use Rattle.mich_world.specs.declared.errors.GrantError.{GrantError};

    ghost from_gives = { λ m e. e ≡ GrantError.Memory };

    fn from(error: Memory) -> GrantError {
        drop(error);
        GrantError::Memory
    }
}
