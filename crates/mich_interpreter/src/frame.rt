// What is left to do when the part above it has ended.
use crate::items::Items;
use crate::made::Making;
use mich_base::{Boxed, Rows};
use mich_instr::Block;
use mich_term::Value;

#[derive(Drop)]
pub(crate) enum Frame {
    // The instructions of a block from a place on.
    Rest(Block, usize),
    // The further turns of a LOOP.
    Turns(Block),
    // Those of a LOOP_LEFT.
    LeftTurns(Block),
    // ITER's body, and the items that are left.
    Each(Block, Items),
    // MAP's body, and what it has made, while one more result is made.
    Making(Block, Boxed<Making>),
    // The values above the stack that DIP works on.
    Under(Rows<Value>),
    // The stack below a call.
    Call(Rows<Value>),
}
