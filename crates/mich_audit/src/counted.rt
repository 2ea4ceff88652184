// Nodes by their number.
ghost use Rattle.std.specs.Prelude.{◌≡◌, ◌≢◌, ◌∷◌, [], length, MatchOption};

use mich_base::{Node, Nodes};

/// Four nodes.
pub(crate) type Four<'a> = (&'a Node, &'a Node, &'a Node, &'a Node);

/// Five nodes.
pub(crate) type Five<'a> = (&'a Node, &'a Node, &'a Node, &'a Node, &'a Node);

/// Six nodes.
pub(crate) type Six<'a> = (&'a Node, &'a Node, &'a Node, &'a Node, &'a Node, &'a Node);

/// Seven nodes.
pub(crate) type Seven<'a> = (
    &'a Node,
    &'a Node,
    &'a Node,
    &'a Node,
    &'a Node,
    &'a Node,
    &'a Node,
);

/// The four nodes, where there are just four.
pub(crate) fn four(nodes: &Nodes) -> Option<Four<'_>>
    ensures { MatchOption result (length nodes.now ≢ 4) (λ p. nodes.now ≡ p.0.now ∷ p.1.now ∷ p.2.now ∷ p.3.now ∷ []) }
{
    match nodes.as_slice() {
        [a, b, c, d] => Some((a, b, c, d)),
        _ => None,
    }
}

/// The five nodes, where there are just five.
pub(crate) fn five(nodes: &Nodes) -> Option<Five<'_>>
    ensures { MatchOption result (length nodes.now ≢ 5) (λ p. nodes.now ≡ p.0.now ∷ p.1.now ∷ p.2.now ∷ p.3.now ∷ p.4.now ∷ []) }
{
    match nodes.as_slice() {
        [a, b, c, d, e] => Some((a, b, c, d, e)),
        _ => None,
    }
}

/// The six nodes, where there are just six.
pub(crate) fn six(nodes: &Nodes) -> Option<Six<'_>>
    ensures { MatchOption result (length nodes.now ≢ 6) (λ p. nodes.now ≡ p.0.now ∷ p.1.now ∷ p.2.now ∷ p.3.now ∷ p.4.now ∷ p.5.now ∷ []) }
{
    match nodes.as_slice() {
        [a, b, c, d, e, f] => Some((a, b, c, d, e, f)),
        _ => None,
    }
}

/// The seven nodes, where there are just seven.
pub(crate) fn seven(nodes: &Nodes) -> Option<Seven<'_>>
    ensures { MatchOption result (length nodes.now ≢ 7) (λ p. nodes.now ≡ p.0.now ∷ p.1.now ∷ p.2.now ∷ p.3.now ∷ p.4.now ∷ p.5.now ∷ p.6.now ∷ []) }
{
    match nodes.as_slice() {
        [a, b, c, d, e, f, g] => Some((a, b, c, d, e, f, g)),
        _ => None,
    }
}
