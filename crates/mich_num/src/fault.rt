// The faults of arithmetic.
use thiserror::Error;

/// The limit that a result would pass.
#[derive(Clone, Copy, Debug, PartialEq, Eq, Error)]
pub enum NumFault {
    /// The result, or a part of it, is outside -2^127 to 2^127 - 1.
    #[error("a number is outside -2^127 to 2^127 - 1")]
    IntegerLimit,
    /// The amount is over 2^63 - 1 mutez.
    #[error("an amount is over 2^63 - 1 mutez")]
    MutezOverflow,
    /// The shift is by more than 256 places.
    #[error("a shift is by more than 256 places")]
    ShiftLimit,
}
