// Nodes and types by their texts.
use mich_base::{Node, Ty, size_within};
use mich_text::read_statement;
use mich_types::read_type;
use std::alloc::Global;
use std::test::Fail;

pub(crate) fn node(alloc: Global, text: &str) -> Result<Node, Fail> {
    let placed = read_statement(alloc, text.as_bytes(), 0)?.ok_or("no statement")?;
    Ok(placed.node)
}

pub(crate) fn ty(alloc: Global, text: &str) -> Result<Ty, Fail> {
    let node = node(alloc, text)?;
    if !size_within(&node, 10_000) {
        return Err(Fail::from("too large"));
    }
    Ok(read_type(alloc, &node)?)
}
