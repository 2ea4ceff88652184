// Arithmetic on amounts of mutez.
ghost use Rattle.std.specs.Prelude.{◌≡◌, ◌^◌, ◌<◌, pos, ◌≤ℤ◌, unsigned_abs};
ghost use Rattle.rules_data.specs.numbers.Limits.{mutez_or_limit};
ghost use Rattle.rules_data.specs.numbers.Mutez.{mutez_sum, mutez_difference, mutez_product};
ghost use Rattle.mich_num.specs.View.{limited};

use crate::fault::NumFault;
use mich_base::MOST_MUTEZ;

/// The sum of two amounts of mutez.
///
/// `MutezOverflow` exactly where it is over 2^63 - 1. Michelson reference: ADD.
pub fn mutez_add(a: u64, b: u64) -> Result<u64, NumFault>
    requires first { a < 2 ^ 63 }
    requires second { b < 2 ^ 63 }
    ensures exact { limited result ≡ mutez_sum a b }
{
    within_mutez(u128::from(a + b))
}

/// The first amount of mutez less the second, or `None` where that is negative.
///
/// Michelson reference: SUB_MUTEZ.
pub fn mutez_sub(a: u64, b: u64) -> Option<u64>
    requires first { a < 2 ^ 63 }
    requires second { b < 2 ^ 63 }
    ensures exact { result ≡ mutez_difference a b }
{
    if b <= a { Some(a - b) } else { None }
}

/// An amount of mutez taken `n` times.
///
/// `MutezOverflow` exactly where it is over 2^63 - 1. Michelson reference: MUL.
#[tactic(auto, using(crate::proofs::Checked::over_mutez))]
pub fn mutez_mul(a: u64, n: i128) -> Result<u64, NumFault>
    requires amount { a < 2 ^ 63 }
    requires times { pos 0 ≤ℤ n }
    ensures exact { limited result ≡ mutez_product a (unsigned_abs n) }
{
    match u128::from(a).checked_mul(n.unsigned_abs()) {
        Some(product) => within_mutez(product),
        None => Err(NumFault::MutezOverflow),
    }
}

// The number as an amount of mutez.
#[tactic(auto, unfolding(rules_data::specs::numbers::Limits::mutez_or_limit))]
fn within_mutez(amount: u128) -> Result<u64, NumFault>
    ensures exact { limited result ≡ mutez_or_limit amount }
{
    if amount <= MOST_MUTEZ as u128 {
        Ok(amount as u64)
    } else {
        Err(NumFault::MutezOverflow)
    }
}
