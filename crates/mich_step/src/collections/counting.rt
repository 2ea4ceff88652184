// Numbers of elements and bytes.
ghost use Rattle.std.specs.Prelude.{◌≡◌, ◌<◌, ◌^◌, pos, Ok, length};
ghost use Rattle.rules_data.specs.numbers.Limits.{int_or_limit};
ghost use Rattle.rules_data.specs.values.Val.{number};
ghost use Rattle.mich_stack.specs.Views.{Sight, seen};

use mich_term::Value;

// A count as a number, which is within the limits.
#[tactic(auto, using(crate::proofs::collections_lemmas::Counts::count_fits))]
pub(crate) fn count(len: usize) -> i128
    ensures number { result ≡ pos len }
    ensures fits { int_or_limit (pos len) ≡ Ok (pos len) }
{
    len as i128
}

// The same as a value.
#[tactic(auto, using(crate::proofs::collections_lemmas::Counts::count_fits))]
pub(crate) fn count_value(len: usize) -> Value
    ensures fits { int_or_limit (pos len) ≡ Ok (pos len) }
    ensures value { (big : Sight) → seen big result ≡ number (pos len) }
{
    Value::Number(len as i128)
}
