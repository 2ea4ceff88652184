// How instructions without bodies went.
ghost use Rattle.std.specs.Prelude.{◌≡◌};
ghost use Rattle.mich_interpreter.specs.Went.{went_past, went_by};

use mich_stack::{StepError, StepFailure};

// How an instruction that opens nothing went: a plain number, which is handed back in a register.
#[derive(Clone, Copy)]
pub(crate) enum Went {
    On,
    OutOfGas,
    IntegerLimit,
    MutezOverflow,
    ShiftLimit,
    SizeLimit,
    Memory,
}

#[inline(always)]
fn went_past(why: StepFailure) -> Went
    ensures { result ≡ went_past why }
{
    match why {
        StepFailure::IntegerLimit => Went::IntegerLimit,
        StepFailure::MutezOverflow => Went::MutezOverflow,
        StepFailure::ShiftLimit => Went::ShiftLimit,
        StepFailure::SizeLimit => Went::SizeLimit,
    }
}

// How it went by the end of its step.
#[inline(always)]
pub(crate) fn went_by(done: Result<(), StepError>) -> Went
    ensures { result ≡ went_by done }
{
    match done {
        Ok(()) => Went::On,
        Err(StepError::Failed(why)) => went_past(why),
        Err(StepError::Memory) => Went::Memory,
    }
}
