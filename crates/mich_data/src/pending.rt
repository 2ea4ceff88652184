// What is read, and what is still to be tried of it.
use mich_base::{Node, Rows, Ty};
use mich_forms::Address;
use mich_term::Value;

/// A value that was read, and what is still to be tried of it, in the order in which it stands.
#[derive(Debug, Drop)]
pub struct Read {
    pub value: Value,
    pub pending: Rows<Pending>,
}

/// What a literal leaves to be tried, with the location of its node.
#[derive(Debug, Drop)]
pub enum Pending {
    /// Whether the body of a lambda goes from its argument's type to its result's (Michelson reference, "LAMBDA" and
    /// "LAMBDA_REC").
    Body {
        location: u32,
        arg: Ty,
        ret: Ty,
        recursive: bool,
        node: Node,
    },
    /// Whether the address is one of a contract of this type (Michelson reference, "CONTRACT").
    Claim {
        location: u32,
        address: Address,
        ty: Ty,
    },
}
