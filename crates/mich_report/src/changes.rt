// Changes of tickets.
ghost use Rattle.std.specs.Prelude.{◌≡◌, ◌++◌, IfOk, OnOk, map};
ghost use Rattle.rules_world.specs.lines.Nodes.{change_node, changes_node};
ghost use Rattle.mich_base.specs.View.{tree};
ghost use Rattle.mich_ops.specs.View.{change};
ghost use Rattle.mich_report.specs.Pieces.{field};

use crate::fields::put_argument;
use crate::parts::{sequence_node, ticket_nodes};
use mich_base::{Memory, Node, Nodes, Rows};
use mich_term::Change;
use mich_types::application;
use std::alloc::Global;

// `Minted` or `Burnt` with the ticket's issuer, type, content and amount.
fn change_node(alloc: Global, made: &Change) -> Result<Node, Memory>
    ensures { IfOk result (λ n. tree n ≡ change_node (change made.now)) }
{
    match made {
        Change::Minted(id, amount) => {
            let fields = ticket_nodes(alloc, id, *amount)?;
            application(alloc, b"Minted", fields)
        }
        Change::Burnt(id, amount) => {
            let fields = ticket_nodes(alloc, id, *amount)?;
            application(alloc, b"Burnt", fields)
        }
    }
}

// Changes in their order.
fn changes_node(alloc: Global, changes: &Rows<Change>) -> Result<Node, Memory>
    ensures { IfOk result (λ n. tree n ≡ changes_node (map change changes.now)) }
{
    let mut nodes = Nodes::new(alloc);
    for made in changes.as_slice() {
        nodes.push(change_node(alloc, made)?)?;
    }
    Ok(sequence_node(nodes))
}

/// Puts changes behind a line, in their order, as an argument. Memory where there is no room for them.
pub(crate) fn put_changes(
    alloc: Global,
    line: &mut Vec<u8>,
    changes: &Rows<Change>,
) -> Result<(), Memory>
    ensures { OnOk result (line.new.items ≡ line.old.items ++ field (changes_node (map change changes.now))) }
{
    let node = changes_node(alloc, changes)?;
    put_argument(alloc, line, &node)
}
