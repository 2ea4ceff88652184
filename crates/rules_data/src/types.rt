//! Definitions alone: types, their attributes, how nodes are read as types, and the entrypoints of a parameter.
/// The types without arguments that have every attribute (Michelson reference, "Types").
#[derive(Clone, Copy, Debug)]
pub enum Simple {
    Unit,
    Never,
    Bool,
    Int,
    Nat,
    String,
    Bytes,
    Mutez,
    Timestamp,
    Key,
    KeyHash,
    Signature,
    ChainId,
    Address,
}

/// What makes a type of one argument (Michelson reference, "Types").
#[derive(Clone, Copy, Debug)]
pub enum OneArgument {
    Option,
    List,
    Set,
    Contract,
    Ticket,
}

/// What makes a type of two arguments; a pair may have more (Michelson reference, "Types").
#[derive(Clone, Copy, Debug)]
pub enum TwoArguments {
    Or,
    Map,
    BigMap,
    Lambda,
}
