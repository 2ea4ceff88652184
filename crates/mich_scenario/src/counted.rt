// Nodes by their number.
ghost use Rattle.std.specs.Prelude.{◌≡◌, ◌≢◌, ◌∷◌, [], length, MatchOption};

use mich_base::{Node, Rows};

/// Five nodes.
pub(crate) type Five<'a> = (&'a Node, &'a Node, &'a Node, &'a Node, &'a Node);

/// Eight nodes.
pub(crate) type Eight<'a> = (
    &'a Node,
    &'a Node,
    &'a Node,
    &'a Node,
    &'a Node,
    &'a Node,
    &'a Node,
    &'a Node,
);

/// The five nodes, where there are just five.
pub(crate) fn five(nodes: &Rows<Node>) -> Option<Five<'_>>
    ensures { MatchOption result (length nodes.now ≢ 5) (λ p. nodes.now ≡ p.0.now ∷ p.1.now ∷ p.2.now ∷ p.3.now ∷ p.4.now ∷ []) }
{
    match nodes.as_slice() {
        [a, b, c, d, e] => Some((a, b, c, d, e)),
        _ => None,
    }
}

/// The eight nodes, where there are just eight.
pub(crate) fn eight(nodes: &Rows<Node>) -> Option<Eight<'_>>
    ensures { MatchOption result (length nodes.now ≢ 8) (λ p. nodes.now ≡ p.0.now ∷ p.1.now ∷ p.2.now ∷ p.3.now ∷ p.4.now ∷ p.5.now ∷ p.6.now ∷ p.7.now ∷ []) }
{
    match nodes.as_slice() {
        [a, b, c, d, e, f, g, h] => Some((a, b, c, d, e, f, g, h)),
        _ => None,
    }
}
