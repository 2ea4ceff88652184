// Instructions that hand out what they discard.
ghost use Rattle.std.specs.Prelude.{List};
ghost use Rattle.rules_data.specs.values.Val.{Val};
ghost use Rattle.rules_code.specs.steps.Step.{Step};
ghost use Rattle.mich_stack.specs.Ends.{IsKept};
ghost use Rattle.mich_stack.specs.Given.{IsGiven};
ghost use Rattle.mich_stack.specs.Views.{Sight};

use crate::error::StepError;
use mich_term::Value;

/// How an instruction that discards nothing ends, as one that hands out a value without tickets.
pub fn nothing(done: Result<(), StepError>) -> Result<Value, StepError>
    ensures { (big : Sight) (s : Step) (V : List Val) → IsKept s V done → IsGiven big s V result }
{
    match done {
        Ok(()) => Ok(Value::Unit),
        Err(error) => Err(error),
    }
}
