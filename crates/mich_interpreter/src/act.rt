// What an instruction came to.
use crate::frame::Frame;
use mich_base::{Boxed, Link, Ty};
use mich_instr::Block;
use mich_step::Env;
use mich_term::Value;

/// Why a run fails (Michelson reference, "Failures").
#[derive(Debug, Drop)]
pub enum Failed {
    /// FAILWITH, with the type of the value and the value.
    With(Link<Ty>, Link<Value>),
    OutOfGas,
    IntegerLimit,
    MutezOverflow,
    ShiftLimit,
    SizeLimit,
    DepthLimit,
    TooManyOperations,
}

/// A view that opens: its code, the one value that it begins with, and where and for whom it runs.
#[derive(Drop)]
pub(crate) struct View {
    pub(crate) code: Block,
    pub(crate) value: Value,
    pub(crate) env: Env,
}

#[derive(Drop)]
pub(crate) enum Act {
    // The run goes on.
    On,
    // A block opens, over a frame or none.
    Open(Option<Frame>, Block),
    // A view opens.
    View(Boxed<View>),
    Failed(Failed),
}
