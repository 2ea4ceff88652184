// Contents: a fee, gas, and what is done.
ghost use Rattle.std.specs.Prelude.{◌≡◌, ◌∷◌, ◌++◌, [], codes, length, option_map, Some, None, take, MatchOption};
ghost use Rattle.rules_text.specs.nodes.Tree.{Tree};
ghost use Rattle.rules_files.specs.statements.Statements.{content_by, nodes_of};
ghost use Rattle.mich_base.specs.View.{tree, trees};
ghost use Rattle.mich_ops.specs.View.{content};
ghost use Rattle.mich_scenario.specs.Fronts.{call_with, called, gift_with, given, originated, IsGift, origin_with};

use crate::counted::{eight, five};
use crate::fields::{contract_place, entrypoint, gas, number, place, ticket_amount};
use mich_base::{MOST_MUTEZ, Node, Rows};
use mich_forms::{Entrypoint, Place};
use mich_ops::{Action, Content};

/// What stands before a script and a storage.
#[derive(Clone, Copy, Debug)]
pub(crate) struct Origin {
    pub fee: u64,
    pub gas: i128,
    pub balance: u64,
}

/// What stands before an argument.
#[derive(Clone, Copy, Debug)]
pub(crate) struct Order {
    pub fee: u64,
    pub gas: i128,
    pub amount: u64,
    pub to: Place,
    pub entry: Entrypoint,
}

/// What stands round a type and a content.
#[derive(Clone, Copy, Debug)]
pub(crate) struct Gift {
    pub fee: u64,
    pub gas: i128,
    pub issuer: Place,
    pub amount: i128,
    pub to: Place,
    pub entry: Entrypoint,
}

// fee gas balance
#[tactic(auto, using(crate::proofs::Counts::origin_fields))]
fn read_origin(front: &Rows<Node>) -> Option<Origin>
    ensures { (script storage : Tree) → option_map (originated script storage) result ≡ origin_with front.now script storage }
{
    let Some((fee, limit, balance)) = front.three() else {
        return None;
    };
    let fee = number(fee, MOST_MUTEZ)?;
    let gas = gas(limit)?;
    let balance = number(balance, MOST_MUTEZ)?;
    Some(Origin { fee, gas, balance })
}

// fee gas balance script storage
fn originate(fields: Rows<Node>) -> Option<Content>
    ensures { option_map content result ≡ content_by (codes "Originate") (nodes_of (trees fields)) }
{
    let mut fields = fields;
    let storage = fields.pop()?;
    let script = fields.pop()?;
    let origin = read_origin(&fields)?;
    Some(originated(origin, script, storage))
}

fn originated(origin: Origin, script: Node, storage: Node) -> Content
    ensures { content result ≡ originated (tree script) (tree storage) origin }
{
    Content {
        fee: origin.fee,
        gas: origin.gas,
        action: Action::Originate {
            balance: origin.balance,
            script,
            storage,
        },
    }
}

// fee gas amount destination "entrypoint"
fn order_of(fee: &Node, limit: &Node, amount: &Node, to: &Node, entry: &Node) -> Option<Order>
    ensures { (argument : Tree) → option_map (called argument) result ≡ call_with fee.now limit.now amount.now to.now entry.now argument }
{
    let fee = number(fee, MOST_MUTEZ)?;
    let gas = gas(limit)?;
    let amount = number(amount, MOST_MUTEZ)?;
    let to = place(to)?;
    let entry = entrypoint(entry)?;
    Some(Order {
        fee,
        gas,
        amount,
        to,
        entry,
    })
}

#[tactic(auto, using(crate::proofs::Counts::order_fields))]
fn read_order(front: &Rows<Node>) -> Option<Order>
    ensures { (argument : Tree) → option_map (called argument) result ≡ content_by (codes "Call") (nodes_of (trees front.now) ++ argument ∷ []) }
{
    match five(front) {
        Some((fee, limit, amount, to, entry)) => order_of(fee, limit, amount, to, entry),
        None => None,
    }
}

// fee gas amount destination "entrypoint" argument
fn call(fields: Rows<Node>) -> Option<Content>
    ensures { option_map content result ≡ content_by (codes "Call") (nodes_of (trees fields)) }
{
    let mut fields = fields;
    let argument = fields.pop()?;
    let order = read_order(&fields)?;
    Some(called(order, argument))
}

fn called(order: Order, argument: Node) -> Content
    ensures { content result ≡ called (tree argument) order }
{
    let Order {
        fee,
        gas,
        amount,
        to,
        entry,
    } = order;
    Content {
        fee,
        gas,
        action: Action::Call {
            amount,
            to,
            entry,
            argument,
        },
    }
}

// A gift by the fields round the type and the content.
fn gift_of(
    fee: &Node,
    limit: &Node,
    issuer: &Node,
    amount: &Node,
    to: &Node,
    entry: &Node,
) -> Option<Gift>
    ensures { (kind content : Tree) → option_map (given kind content) result ≡ gift_with fee.now limit.now issuer.now amount.now to.now entry.now kind content }
{
    let fee = number(fee, MOST_MUTEZ)?;
    let gas = gas(limit)?;
    let issuer = contract_place(issuer)?;
    let amount = ticket_amount(amount)?;
    let to = place(to)?;
    let entry = entrypoint(entry)?;
    Some(Gift {
        fee,
        gas,
        issuer,
        amount,
        to,
        entry,
    })
}

// fee gas issuer type content amount destination "entrypoint"
#[tactic(auto, using(crate::proofs::Counts::gift_fields))]
fn read_gift(fields: &Rows<Node>) -> Option<Gift>
    ensures { MatchOption result (content_by (codes "Give") (nodes_of (trees fields.now)) ≡ None) (λ g. IsGift fields.now g) }
{
    match eight(fields) {
        Some(all) => gift_of(all.0, all.1, all.2, all.5, all.6, all.7),
        None => None,
    }
}

// The same, with the type and the content as they are.
fn give(fields: Rows<Node>) -> Option<Content>
    ensures { option_map content result ≡ content_by (codes "Give") (nodes_of (trees fields)) }
{
    let gift = read_gift(&fields)?;
    let mut fields = fields;
    fields.truncate(5);
    let content = fields.pop()?;
    let ty = fields.pop()?;
    Some(given(gift, ty, content))
}

fn given(gift: Gift, ty: Node, literal: Node) -> Content
    ensures { content result ≡ given (tree ty) (tree literal) gift }
{
    let Gift {
        fee,
        gas,
        issuer,
        amount,
        to,
        entry,
    } = gift;
    Content {
        fee,
        gas,
        action: Action::Give {
            issuer,
            ty,
            content: literal,
            amount,
            to,
            entry,
        },
    }
}

/// The content of a name with fields.
pub(crate) fn content_by(name: &[u8], fields: Rows<Node>) -> Option<Content>
    ensures { option_map content result ≡ content_by name.now (nodes_of (trees fields)) }
{
    if name == b"Originate".as_slice() {
        originate(fields)
    } else if name == b"Call".as_slice() {
        call(fields)
    } else if name == b"Give".as_slice() {
        give(fields)
    } else {
        None
    }
}
