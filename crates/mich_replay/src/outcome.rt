// Why files are refused.
use rules_text::text::TextKind;

/// Why a file is refused.
#[derive(Clone, Copy, Debug, PartialEq, Eq)]
pub enum FileFault {
    /// A fault of its text.
    Text(TextKind),
    /// A node that is no statement.
    BadStatement,
    /// A statement that can't stand where it stands, or a file without statements.
    BadOrder,
    /// A row of prices that is unknown, repeated or out of range.
    BadCosts,
    /// An account that is there.
    RepeatedAccount,
    /// More than 2^63-1 mutez would be granted in all.
    SupplyLimit,
}
