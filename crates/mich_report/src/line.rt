// Nodes as lines.
ghost use Rattle.std.specs.Prelude.{◌≡◌, ◌++◌, ◌∷◌, [], IfOk, OnOk, codes};
ghost use Rattle.rules_world.specs.lines.Nodes.{line};
ghost use Rattle.mich_base.specs.View.{tree};
ghost use Rattle.mich_report.specs.Pieces.{separator};

use mich_base::{Memory, Node, Text};
use mich_text::put_node;
use std::alloc::Global;

/// Puts bytes behind a line. Memory where there is no room for them.
pub(crate) fn put(line: &mut Vec<u8>, bytes: &[u8]) -> Result<(), Memory>
    ensures { OnOk result (line.new.items ≡ line.old.items ++ bytes.now) }
{
    line.extend_from_slice(bytes)?;
    Ok(())
}

/// Puts what stands before an element, where others are before it or it is the first.
pub(crate) fn put_separator(line: &mut Vec<u8>, begun: bool) -> Result<(), Memory>
    ensures { OnOk result (line.new.items ≡ line.old.items ++ separator begun) }
{
    if begun {
        return put(line, b" ; ");
    }
    put(line, b" ")
}

/// The line of a node.
pub fn node_line(alloc: Global, node: &Node) -> Result<Text, Memory>
    ensures { IfOk result (λ written. written ≡ line (tree node.now)) }
{
    let mut line = Vec::new(alloc);
    put_node(alloc, &mut line, node)?;
    put(&mut line, b"\n")?;
    Text::from_vec(line)
}
