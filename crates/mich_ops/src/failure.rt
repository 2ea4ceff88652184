// Why an operation fails.
use mich_base::Node;

/// Why an operation fails. A location is counted in pre-order from 0 at the node that was handed in (Michelson reference,
/// "Semantics"; Octez "Operations").
#[derive(Debug, Drop)]
pub enum Failure {
    /// FAILWITH: the type of what it shows, and its literal.
    FailedWith(Node, Node),
    /// A price was over the gas that was left.
    OutOfGas,
    /// A number was outside its range.
    IntegerLimit,
    /// An amount was over 2^63-1 mutez.
    MutezOverflow,
    /// A shift was by more than 256 bits.
    ShiftLimit,
    /// Bytes, a string or a lambda were too long.
    SizeLimit,
    /// Blocks or a lambda were too deep.
    DepthLimit,
    /// More than 65,535 operations were issued in the group.
    TooManyOperations,
    /// An operation was returned twice.
    OperationReplay,
    /// There is no such contract.
    NoContract,
    /// There is no such entrypoint.
    NoEntrypoint,
    /// The node at this location of the argument doesn't fit.
    BadParameter(u32),
    /// The sender has less mutez.
    BalanceTooLow,
    /// Neither mutez nor a ticket goes to an account.
    EmptyTransaction,
    /// The node at this location of the script isn't typed.
    IllTyped(u32),
    /// The node at this location of the storage doesn't fit.
    BadStorage(u32),
    /// A delegate is given to a new contract.
    UnregisteredDelegate,
    /// The source holds fewer tickets.
    TicketShort,
    /// The group's source has less than what is burnt where a contract grew.
    CannotPayBurn,
}
