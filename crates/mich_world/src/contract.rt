// Contracts.
use mich_base::Shared;
use mich_instr::Script;
use mich_term::Value;

/// A contract: its balance in mutez, the bytes of storage that were paid for, its script, which others may hold too, and its storage
/// (Octez "Accounts and addresses").
#[derive(Drop)]
pub struct Contract {
    pub balance: u64,
    pub paid: u64,
    pub script: Shared<Script>,
    pub storage: Value,
}
