// Why an instruction doesn't end on a stack.
ghost use Rattle.std.specs.Prelude.{◌≡◌};
ghost use Rattle.mich_num.specs.View.{limit};
ghost use Rattle.rules_code.specs.steps.Step.{past_limit};
ghost use Rattle.mich_stack.specs.Views.{failure};

use mich_base::Memory;
use mich_num::NumFault;
use thiserror::Error;

/// Why an instruction without bodies fails.
#[derive(Clone, Copy, Debug, PartialEq, Eq, Error)]
pub enum StepFailure {
    /// A number is outside -2^127 to 2^127 - 1.
    #[error("a number is outside -2^127 to 2^127 - 1")]
    IntegerLimit,
    /// An amount is over 2^63 - 1 mutez.
    #[error("an amount is over 2^63 - 1 mutez")]
    MutezOverflow,
    /// A shift is by more than 256 places.
    #[error("a shift is by more than 256 places")]
    ShiftLimit,
    /// A string or bytes are over the limit.
    #[error("a string or bytes are over the limit")]
    SizeLimit,
}

/// Why an instruction doesn't end on a stack.
#[derive(Debug, Drop, Error)]
pub enum StepError {
    /// The instruction fails.
    #[error("{0}")]
    Failed(StepFailure),
    /// There was no room in memory.
    #[error("out of memory")]
    Memory,
}

impl From<Memory> for StepError {
    ghost use Rattle.mich_stack.specs.declared.error.StepError.{StepError};

    ghost from_gives = { λ _ e. e ≡ StepError.Memory };

    fn from(error: Memory) -> StepError {
        drop(error);
        StepError::Memory
    }
}

/// The failure of a number past its limit.
pub fn past(fault: NumFault) -> StepFailure
    ensures { failure result ≡ past_limit (limit fault) }
{
    match fault {
        NumFault::IntegerLimit => StepFailure::IntegerLimit,
        NumFault::MutezOverflow => StepFailure::MutezOverflow,
        NumFault::ShiftLimit => StepFailure::ShiftLimit,
    }
}
