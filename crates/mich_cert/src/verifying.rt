// Whether a node is a certificate.
ghost use Rattle.std.specs.Prelude.{◌≡◌, ◌<◌, ◌^◌, ◌↔◌, IfOk, IsTrue, MatchOption};
ghost use Rattle.rules_text.specs.nodes.Tree.{size};
ghost use Rattle.rules_code.specs.certificates.Certificates.{IsValid};
ghost use Rattle.rules_code.specs.typing.Nodes.{outline};
ghost use Rattle.mich_base.specs.View.{tree, trees};
ghost use Rattle.mich_cert.specs.Entries.{all_entries, entries_past};
ghost use Rattle.mich_cert.specs.Listed.{IsNotCertified, certified_with};
ghost use Rattle.mich_cert.specs.Scripts.{confirms, if_found, is_whole};

use crate::entry::Entry;
use crate::reading::read_entries;
use crate::scripts::{outline_in, script};
use crate::spelled::arguments;
use mich_base::{Memory, Node, Nodes};
use std::alloc::Global;

// The script of a certificate, and the nodes of its entries.
fn parts(node: &Node) -> Option<(&Node, &Nodes)>
    ensures { MatchOption result (IsNotCertified (tree node.now)) (λ p. tree node.now ≡ certified_with (tree p.0.now) (trees p.1.now)) }
{
    let Some(args) = arguments(node, b"Certified") else {
        return None;
    };
    let Some((written, listed)) = args.both() else {
        return None;
    };
    match listed {
        Node::Seq(entries) => Some((written, entries)),
        _ => None,
    }
}

// Whether these entries are those of the script that a node is, and no others stand behind them.
fn confirms(alloc: Global, node: &Node, entries: &[Entry]) -> Result<bool, Memory>
    requires { size (tree node.now) < 2 ^ 32 }
    ensures { IfOk result (λ q. q ≡ confirms (if_found (outline (tree node.now))) (all_entries entries.now)) }
{
    let Some(outline) = outline_in(alloc, node)? else {
        return Ok(false);
    };
    Ok(is_whole(script(alloc, &outline, 0, entries)?))
}

// Whether a walk went past each entry.
fn is_whole(past: Option<&[Entry]>) -> bool
    ensures { result ≡ is_whole (entries_past past.entry) }
{
    match past {
        Some(rest) => rest.is_empty(),
        None => false,
    }
}

/// Whether a node is a certificate: `Certified script { entry ; .. }` without annotations, where typing accepts the script and the
/// entries are its derivation (Michelson reference, "Typing"). Each instruction is tried against the stacks that are written
/// before and behind it; none is inferred. False for each other node. Memory where there is no room.
pub fn verify(alloc: Global, node: &Node) -> Result<bool, Memory>
    requires { size (tree node.now) < 2 ^ 32 }
    ensures { IfOk result (λ valid. IsTrue valid ↔ IsValid (tree node.now)) }
{
    let Some((written, listed)) = parts(node) else {
        return Ok(false);
    };
    let Some(entries) = read_entries(alloc, listed)? else {
        return Ok(false);
    };
    confirms(alloc, written, entries.as_slice())
}
