// Operations on ints bit by bit, in two's complement.
ghost use Rattle.std.specs.Prelude.{◌≡◌};
ghost use Rattle.rules_data.specs.numbers.Bits.{IsBitByBit, both, either, one_of, bitwise_and, bitwise_or, bitwise_xor, complement};

/// Bit by bit, 1 where both bits are. Michelson reference: AND.
#[tactic(auto, using(crate::proofs::Words::and_bits))]
pub fn and(a: i128, b: i128) -> i128
    ensures value { result ≡ bitwise_and a b }
    ensures bits { IsBitByBit both a b result }
{
    a & b
}

/// Bit by bit, 1 where a bit is. Michelson reference: OR.
#[tactic(auto, using(crate::proofs::Words::or_bits))]
pub fn or(a: i128, b: i128) -> i128
    ensures value { result ≡ bitwise_or a b }
    ensures bits { IsBitByBit either a b result }
{
    a | b
}

/// Bit by bit, 1 where one bit is and the other isn't. Michelson reference: XOR.
#[tactic(auto, using(crate::proofs::Words::xor_bits))]
pub fn xor(a: i128, b: i128) -> i128
    ensures value { result ≡ bitwise_xor a b }
    ensures bits { IsBitByBit one_of a b result }
{
    a ^ b
}

/// Each bit inverted: -1 - a. Michelson reference: NOT.
pub fn not(a: i128) -> i128
    ensures { result ≡ complement a }
{
    !a
}
