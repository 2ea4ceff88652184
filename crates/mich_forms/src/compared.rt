// Equality and order of the forms, which are those of their bytes, a prefix first.
ghost use Rattle.std.specs.Prelude.{◌==◌};
ghost use Rattle.std.specs.Ordering.{nat_cmp, as_partial_cmp, on};
ghost use Rattle.std.specs.Cmp.{partial_order_from_own_ties};
ghost use Rattle.std.specs.Cmp.Lexicographic.{pointwise, slice_cmp};
ghost use Rattle.std.specs.Cmp.Rules.{comparing};
ghost use Rattle.std.proofs.Common.{rules};
ghost use Rattle.mich_forms.specs.Spelled.{address_bytes, place_bytes};

use crate::addresses::Address;
use crate::entrypoints::Entrypoint;
use crate::keys::{Key, KeyHash};
use crate::places::Place;
use crate::short_bytes::ShortBytes;
use crate::signatures::{ChainId, Signature};
use std::cmp::Ordering;

impl PartialEq for ShortBytes {
    ghost eq = { pointwise ◌==◌ };

    ghost laws = { Prim.search (comparing, rules) };

    fn eq(&self, other: &ShortBytes) -> bool {
        self.as_slice() == other.as_slice()
    }
}

impl Eq for ShortBytes {
    ghost laws = { Prim.search (comparing, rules) };
}

impl PartialOrd for ShortBytes {
    ghost partial_cmp = { as_partial_cmp (slice_cmp nat_cmp) };

    ghost laws = { partial_order_from_own_ties (Prim.search (comparing, rules)) (Prim.search (comparing, rules)) };

    fn partial_cmp(&self, other: &ShortBytes) -> Option<Ordering> {
        Some(self.cmp(other))
    }
}

impl Ord for ShortBytes {
    ghost cmp = { slice_cmp nat_cmp };

    ghost total = { Prim.search (comparing, rules) };

    ghost matches_partial_cmp = { Prim.search (comparing, rules) };

    ghost matches_eq = { Prim.search (comparing, rules) };

    fn cmp(&self, other: &ShortBytes) -> Ordering {
        self.as_slice().cmp(other.as_slice())
    }
}

impl PartialEq for Entrypoint {
    ghost eq = { pointwise ◌==◌ };

    ghost laws = { Prim.search (comparing, rules) };

    fn eq(&self, other: &Entrypoint) -> bool {
        self.as_slice() == other.as_slice()
    }
}

impl Eq for Entrypoint {
    ghost laws = { Prim.search (comparing, rules) };
}

impl PartialOrd for Entrypoint {
    ghost partial_cmp = { as_partial_cmp (slice_cmp nat_cmp) };

    ghost laws = { partial_order_from_own_ties (Prim.search (comparing, rules)) (Prim.search (comparing, rules)) };

    fn partial_cmp(&self, other: &Entrypoint) -> Option<Ordering> {
        Some(self.cmp(other))
    }
}

impl Ord for Entrypoint {
    ghost cmp = { slice_cmp nat_cmp };

    ghost total = { Prim.search (comparing, rules) };

    ghost matches_partial_cmp = { Prim.search (comparing, rules) };

    ghost matches_eq = { Prim.search (comparing, rules) };

    fn cmp(&self, other: &Entrypoint) -> Ordering {
        self.as_slice().cmp(other.as_slice())
    }
}

impl PartialEq for KeyHash {
    ghost eq = { pointwise ◌==◌ };

    ghost laws = { Prim.search (comparing, rules) };

    fn eq(&self, other: &KeyHash) -> bool {
        self.tag == other.tag && self.hash == other.hash
    }
}

impl Eq for KeyHash {
    ghost laws = { Prim.search (comparing, rules) };
}

impl PartialOrd for KeyHash {
    ghost partial_cmp = { as_partial_cmp (slice_cmp nat_cmp) };

    ghost laws = { partial_order_from_own_ties (Prim.search (comparing, rules)) (Prim.search (comparing, rules)) };

    fn partial_cmp(&self, other: &KeyHash) -> Option<Ordering> {
        Some(self.cmp(other))
    }
}

impl Ord for KeyHash {
    ghost cmp = { slice_cmp nat_cmp };

    ghost total = { Prim.search (comparing, rules) };

    ghost matches_partial_cmp = { Prim.search (comparing, rules) };

    ghost matches_eq = { Prim.search (comparing, rules) };

    fn cmp(&self, other: &KeyHash) -> Ordering {
        self.tag.cmp(&other.tag).then(self.hash.cmp(&other.hash))
    }
}

impl PartialEq for Key {
    ghost eq = { pointwise ◌==◌ };

    ghost laws = { Prim.search (comparing, rules) };

    fn eq(&self, other: &Key) -> bool {
        self.tag == other.tag && self.body == other.body
    }
}

impl Eq for Key {
    ghost laws = { Prim.search (comparing, rules) };
}

impl PartialOrd for Key {
    ghost partial_cmp = { as_partial_cmp (slice_cmp nat_cmp) };

    ghost laws = { partial_order_from_own_ties (Prim.search (comparing, rules)) (Prim.search (comparing, rules)) };

    fn partial_cmp(&self, other: &Key) -> Option<Ordering> {
        Some(self.cmp(other))
    }
}

impl Ord for Key {
    ghost cmp = { slice_cmp nat_cmp };

    ghost total = { Prim.search (comparing, rules) };

    ghost matches_partial_cmp = { Prim.search (comparing, rules) };

    ghost matches_eq = { Prim.search (comparing, rules) };

    fn cmp(&self, other: &Key) -> Ordering {
        self.tag.cmp(&other.tag).then(self.body.cmp(&other.body))
    }
}

impl PartialEq for Signature {
    ghost eq = { pointwise ◌==◌ };

    ghost laws = { Prim.search (comparing, rules) };

    fn eq(&self, other: &Signature) -> bool {
        self.body == other.body
    }
}

impl Eq for Signature {
    ghost laws = { Prim.search (comparing, rules) };
}

impl PartialOrd for Signature {
    ghost partial_cmp = { as_partial_cmp (slice_cmp nat_cmp) };

    ghost laws = { partial_order_from_own_ties (Prim.search (comparing, rules)) (Prim.search (comparing, rules)) };

    fn partial_cmp(&self, other: &Signature) -> Option<Ordering> {
        Some(self.cmp(other))
    }
}

impl Ord for Signature {
    ghost cmp = { slice_cmp nat_cmp };

    ghost total = { Prim.search (comparing, rules) };

    ghost matches_partial_cmp = { Prim.search (comparing, rules) };

    ghost matches_eq = { Prim.search (comparing, rules) };

    fn cmp(&self, other: &Signature) -> Ordering {
        self.body.cmp(&other.body)
    }
}

impl PartialEq for ChainId {
    ghost eq = { pointwise ◌==◌ };

    ghost laws = { Prim.search (comparing, rules) };

    fn eq(&self, other: &ChainId) -> bool {
        self.body == other.body
    }
}

impl Eq for ChainId {
    ghost laws = { Prim.search (comparing, rules) };
}

impl PartialOrd for ChainId {
    ghost partial_cmp = { as_partial_cmp (slice_cmp nat_cmp) };

    ghost laws = { partial_order_from_own_ties (Prim.search (comparing, rules)) (Prim.search (comparing, rules)) };

    fn partial_cmp(&self, other: &ChainId) -> Option<Ordering> {
        Some(self.cmp(other))
    }
}

impl Ord for ChainId {
    ghost cmp = { slice_cmp nat_cmp };

    ghost total = { Prim.search (comparing, rules) };

    ghost matches_partial_cmp = { Prim.search (comparing, rules) };

    ghost matches_eq = { Prim.search (comparing, rules) };

    fn cmp(&self, other: &ChainId) -> Ordering {
        self.body.cmp(&other.body)
    }
}

impl PartialEq for Place {
    ghost eq = { on place_bytes (pointwise ◌==◌) };

    ghost laws = { Prim.search (comparing, rules) };

    fn eq(&self, other: &Place) -> bool {
        match (self, other) {
            (Place::Implicit(a), Place::Implicit(b)) => a == b,
            (Place::Contract(a), Place::Contract(b)) => a == b,
            _ => false,
        }
    }
}

impl Eq for Place {
    ghost laws = { Prim.search (comparing, rules) };
}

impl PartialOrd for Place {
    ghost partial_cmp = { as_partial_cmp (on place_bytes (slice_cmp nat_cmp)) };

    ghost laws = { partial_order_from_own_ties (Prim.search (comparing, rules)) (Prim.search (comparing, rules)) };

    fn partial_cmp(&self, other: &Place) -> Option<Ordering> {
        Some(self.cmp(other))
    }
}

impl Ord for Place {
    ghost cmp = { on place_bytes (slice_cmp nat_cmp) };

    ghost total = { Prim.search (comparing, rules) };

    ghost matches_partial_cmp = { Prim.search (comparing, rules) };

    ghost matches_eq = { Prim.search (comparing, rules) };

    fn cmp(&self, other: &Place) -> Ordering {
        match (self, other) {
            (Place::Implicit(a), Place::Implicit(b)) => a.cmp(b),
            (Place::Contract(a), Place::Contract(b)) => a.cmp(b),
            (Place::Implicit(_), Place::Contract(_)) => Ordering::Less,
            (Place::Contract(_), Place::Implicit(_)) => Ordering::Greater,
        }
    }
}

impl PartialEq for Address {
    ghost eq = { on address_bytes (pointwise ◌==◌) };

    ghost laws = { Prim.search (comparing, rules) };

    fn eq(&self, other: &Address) -> bool {
        self.bytes() == other.bytes()
    }
}

impl Eq for Address {
    ghost laws = { Prim.search (comparing, rules) };
}

impl PartialOrd for Address {
    ghost partial_cmp = { as_partial_cmp (on address_bytes (slice_cmp nat_cmp)) };

    ghost laws = { partial_order_from_own_ties (Prim.search (comparing, rules)) (Prim.search (comparing, rules)) };

    fn partial_cmp(&self, other: &Address) -> Option<Ordering> {
        Some(self.cmp(other))
    }
}

impl Ord for Address {
    ghost cmp = { on address_bytes (slice_cmp nat_cmp) };

    ghost total = { Prim.search (comparing, rules) };

    ghost matches_partial_cmp = { Prim.search (comparing, rules) };

    ghost matches_eq = { Prim.search (comparing, rules) };

    fn cmp(&self, other: &Address) -> Ordering {
        self.bytes().cmp(&other.bytes())
    }
}
