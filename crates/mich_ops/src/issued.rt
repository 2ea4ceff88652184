// Operations that were issued.
use mich_base::{Shared, Text, Ty};
use mich_forms::{Address, KeyHash};
use mich_instr::Script;
use mich_term::Value;

/// An operation that code issued, with its number: how many were issued before it in its group (Octez "operations",
/// internal operations).
#[derive(Drop)]
pub enum Issued {
    /// An argument and mutez that go to an address.
    Transfer {
        number: u32,
        argument: Value,
        amount: u64,
        to: Address,
    },
    /// A script that becomes the contract of these 20 bytes, with mutez and a storage.
    Origination {
        number: u32,
        delegate: Option<KeyHash>,
        amount: u64,
        script: Shared<Script>,
        storage: Value,
        hash: [u8; 20],
    },
    /// A value of a type that is told under a tag.
    Event {
        number: u32,
        tag: Text,
        ty: Ty,
        value: Value,
    },
}
