// Statements with their fields.
use mich_base::Node;
use mich_forms::{ChainId, KeyHash};
use mich_ops::Group;

/// A statement of a file.
#[derive(Debug, Drop)]
pub enum Statement {
    /// The chain's identity, its level, and its moment in seconds.
    Chain(ChainId, u32, i64),
    /// How many mutez are burnt for a byte of storage.
    Profile(u64),
    /// A table of prices, as its node.
    Costs(Node),
    /// A new account with so much mutez.
    Account(KeyHash, u64),
    /// The level and the moment, in seconds, of the groups behind it.
    Block(u32, i64),
    /// A group of operations.
    Group(Group),
}
