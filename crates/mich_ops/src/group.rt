// What a source orders.
use mich_base::{Node, Rows};
use mich_forms::{Entrypoint, KeyHash, Place};

/// Contents that a source orders together (Octez "Operations", batches).
#[derive(Debug, Drop)]
pub struct Group {
    pub source: KeyHash,
    pub contents: Rows<Content>,
}

/// An action with its fee in mutez and the gas that it may use.
#[derive(Debug, Drop)]
pub struct Content {
    pub fee: u64,
    pub gas: i128,
    pub action: Action,
}

/// What a content does (Octez "Operations", manager operations). Amounts and balances are in mutez.
#[derive(Debug, Drop)]
pub enum Action {
    /// A script becomes a contract with a balance and a storage.
    Originate {
        balance: u64,
        script: Node,
        storage: Node,
    },
    /// Mutez go to a place, whose entrypoint is called with an argument.
    Call {
        amount: u64,
        to: Place,
        entry: Entrypoint,
        argument: Node,
    },
    /// Tickets that the source holds go to a place.
    Give {
        issuer: Place,
        ty: Node,
        content: Node,
        amount: i128,
        to: Place,
        entry: Entrypoint,
    },
}
