// The fields of statements.
ghost use Rattle.std.specs.Prelude.{◌≡◌, ◌<◌, ◌≤◌, ◌^◌, ◌-◌, ℕ, ℤ, pos, neg_ℤ, unsigned_abs, Some, None, IfSome, option_map};
ghost use Rattle.mich_base.specs.View.{tree};
ghost use Rattle.mich_forms.specs.Spelled.{place_bytes};
ghost use Rattle.rules_files.specs.statements.Statements.{within, number_of, moment_of, gas_of, ticket_amount_of, bytes_of, entrypoint_of};
ghost use Rattle.rules_data.specs.forms.Spelling.{is_chain_id, is_contract, is_key_hash, is_place};

use mich_base::Node;
use mich_forms::{ChainId, Entrypoint, KeyHash, Place};

// A number from one to another.
pub(crate) fn within(node: &Node, low: i128, high: i128) -> Option<i128>
    ensures { result ≡ within low high (tree node.now) }
{
    match node {
        Node::Int(n) if low <= *n && *n <= high => Some(*n),
        _ => None,
    }
}

// A number from 0 to so much.
pub(crate) fn number(node: &Node, most: u64) -> Option<u64>
    ensures value { result ≡ number_of most (tree node.now) }
    ensures within { IfSome result (λ n. n ≤ most) }
{
    let n = within(node, 0, i128::from(most))?;
    Some(n as u64)
}

// A moment, in seconds.
pub(crate) fn moment(node: &Node) -> Option<i64>
    ensures { result ≡ moment_of (tree node.now) }
{
    let n = within(node, i128::from(i64::MIN), i128::from(i64::MAX))?;
    Some(n as i64)
}

// A number that isn't negative.
pub(crate) fn gas(node: &Node) -> Option<i128>
    ensures { result ≡ gas_of (tree node.now) }
{
    match node {
        Node::Int(n) if 0 <= *n => Some(*n),
        _ => None,
    }
}

// An amount of tickets, 1 to 2^127-1.
pub(crate) fn ticket_amount(node: &Node) -> Option<i128>
    ensures { result ≡ ticket_amount_of (tree node.now) }
{
    within(node, 1, i128::MAX)
}

pub(crate) fn chain_id(node: &Node) -> Option<ChainId>
    ensures { option_map (λ id. id) result ≡ bytes_of is_chain_id (tree node.now) }
{
    match node {
        Node::Bytes(bytes) => ChainId::read(bytes.as_slice()),
        _ => None,
    }
}

pub(crate) fn key_hash(node: &Node) -> Option<KeyHash>
    ensures { option_map (λ who. who) result ≡ bytes_of is_key_hash (tree node.now) }
{
    match node {
        Node::Bytes(bytes) => KeyHash::read(bytes.as_slice()),
        _ => None,
    }
}

pub(crate) fn place(node: &Node) -> Option<Place>
    ensures { option_map place_bytes result ≡ bytes_of is_place (tree node.now) }
{
    match node {
        Node::Bytes(bytes) => Place::read(bytes.as_slice()),
        _ => None,
    }
}

// The place of a contract.
pub(crate) fn contract_place(node: &Node) -> Option<Place>
    ensures { option_map place_bytes result ≡ bytes_of is_contract (tree node.now) }
{
    match place(node) {
        Some(Place::Contract(hash)) => Some(Place::Contract(hash)),
        _ => None,
    }
}

pub(crate) fn entrypoint(node: &Node) -> Option<Entrypoint>
    ensures { option_map (λ name. name) result ≡ entrypoint_of (tree node.now) }
{
    match node {
        Node::Str(name) => Entrypoint::read(name.as_slice()),
        _ => None,
    }
}
