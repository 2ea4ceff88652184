// Arithmetic on ints.
ghost use Rattle.std.specs.Prelude.{◌≡◌, ◌↔◌, pos, ◌+ℤ◌, ◌-ℤ◌, ◌*ℤ◌, neg_ℤ, ◌≤ℤ◌, unsigned_abs, IfOk, IfSome};
ghost use Rattle.rules_data.specs.numbers.Limits.{int_or_limit};
ghost use Rattle.rules_data.specs.numbers.Integers.{IsOnlyDivision, division, shifted_left, shifted_right};
ghost use Rattle.mich_num.specs.View.{limited};

use crate::fault::NumFault;

/// The least int.
const LEAST: i128 = i128::MIN;

/// The most places that a shift can have.
const MOST_PLACES: i128 = 256;

/// The places by which every int but 0 is shifted out of the range.
const ALL_PLACES: i128 = 127;

/// The exact sum.
///
/// `IntegerLimit` exactly where it is outside -2^127 to 2^127 - 1. Michelson reference: ADD.
#[tactic(auto, using(crate::proofs::Checked::limited_checked))]
pub fn add(a: i128, b: i128) -> Result<i128, NumFault>
    ensures exact { limited result ≡ int_or_limit (a +ℤ b) }
{
    a.checked_add(b).ok_or(NumFault::IntegerLimit)
}

/// The exact difference, the first number less the second.
///
/// `IntegerLimit` exactly where it is outside -2^127 to 2^127 - 1. Michelson reference: SUB.
#[tactic(auto, using(crate::proofs::Checked::limited_checked))]
pub fn sub(a: i128, b: i128) -> Result<i128, NumFault>
    ensures exact { limited result ≡ int_or_limit (a -ℤ b) }
{
    a.checked_sub(b).ok_or(NumFault::IntegerLimit)
}

/// The exact product.
///
/// `IntegerLimit` exactly where it is outside -2^127 to 2^127 - 1. Michelson reference: MUL.
#[tactic(auto, using(crate::proofs::Checked::limited_checked))]
pub fn mul(a: i128, b: i128) -> Result<i128, NumFault>
    ensures exact { limited result ≡ int_or_limit (a *ℤ b) }
{
    a.checked_mul(b).ok_or(NumFault::IntegerLimit)
}

/// The number with the other sign.
///
/// `IntegerLimit` exactly where it is outside -2^127 to 2^127 - 1. Michelson reference: NEG.
#[tactic(auto, using(crate::proofs::Checked::limited_checked))]
pub fn neg(a: i128) -> Result<i128, NumFault>
    ensures exact { limited result ≡ int_or_limit (neg_ℤ a) }
{
    a.checked_neg().ok_or(NumFault::IntegerLimit)
}

/// The absolute value.
///
/// `IntegerLimit` exactly where it is over 2^127 - 1. Michelson reference: ABS.
#[tactic(auto, using(crate::proofs::Checked::abs_checked))]
pub fn abs(a: i128) -> Result<i128, NumFault>
    ensures exact { limited result ≡ int_or_limit (pos (unsigned_abs a)) }
{
    a.checked_abs().ok_or(NumFault::IntegerLimit)
}

/// The quotient and the remainder, which is from 0 to the divisor's size less 1; `None` by 0.
///
/// `IntegerLimit` exactly where the quotient is outside -2^127 to 2^127 - 1, which is at -2^127 by
/// -1 alone. Michelson reference: EDIV.
pub fn ediv(a: i128, b: i128) -> Result<Option<(i128, i128)>, NumFault>
    ensures exact { limited result ≡ division a b }
    ensures divides { IfOk result (λ parts. IfSome parts (λ p. IsOnlyDivision a b p.0 p.1)) }
{
    if b == 0 {
        return Ok(None);
    }
    if a == LEAST && b == -1 {
        return Err(NumFault::IntegerLimit);
    }
    Ok(Some((a.div_euclid(b), a.rem_euclid(b))))
}

/// `a` times 2^`b`.
///
/// `ShiftLimit` exactly where `b` is over 256, which is tried first; else `IntegerLimit` exactly
/// where the result is over 2^127 - 1. Michelson reference: LSL.
pub fn shl(a: i128, b: i128) -> Result<i128, NumFault>
    requires number { pos 0 ≤ℤ a }
    requires places { pos 0 ≤ℤ b }
    ensures exact { limited result ≡ shifted_left a b }
{
    if b > MOST_PLACES {
        return Err(NumFault::ShiftLimit);
    }
    if a == 0 {
        return Ok(0);
    }
    if b >= ALL_PLACES {
        return Err(NumFault::IntegerLimit);
    }
    mul(a, 1 << b)
}

/// `a` divided by 2^`b`, rounded down.
///
/// `ShiftLimit` exactly where `b` is over 256. Michelson reference: LSR.
pub fn shr(a: i128, b: i128) -> Result<i128, NumFault>
    requires number { pos 0 ≤ℤ a }
    requires places { pos 0 ≤ℤ b }
    ensures exact { limited result ≡ shifted_right a b }
{
    if b > MOST_PLACES {
        return Err(NumFault::ShiftLimit);
    }
    if b >= ALL_PLACES {
        return Ok(0);
    }
    Ok(a >> b)
}
