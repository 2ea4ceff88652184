// Literals of types without arguments.
ghost use Rattle.std.specs.Prelude.{◌≡◌, ◌≤◌, IfOk, IfSome, length, nat_le, option_map};
ghost use Rattle.std.specs.List.{list_all};
ghost use Rattle.rules_data.specs.numbers.Limits.{is_int};
ghost use Rattle.rules_data.specs.values.Literals.{bare_value, bytes_value, is_amount, is_nat, is_short, is_text, is_text_byte, number_value, simple_value, text_value, truth_of_word, unit_of_word};
ghost use Rattle.mich_base.specs.View.{tree};
ghost use Rattle.mich_term.specs.ValueView.{val};
ghost use Rattle.mich_term.specs.declared.value.Value.{out-Value};
ghost use Rattle.mich_data.specs.View.{byte_test};
ghost use Rattle.mich_data.specs.Whole.{IsSimple};

use crate::words::{Word, word_of_name};
use mich_base::{BYTE_LIMIT, MOST_MUTEZ, Memory, Node};
use mich_forms::{Address, ChainId, Key, KeyHash, Signature};
use mich_term::Value;
use rules_data::types::Simple;
use std::alloc::Global;

#[tactic(auto, using(crate::proofs::Whole::unit_simple))]
fn unit_value(node: &Node) -> Option<Value>
    ensures value { option_map val result ≡ bare_value unit_of_word (tree node.now) }
    ensures simple { IfSome result (λ v. IsSimple (out-Value v)) }
{
    let Node::Prim(app) = node else {
        return None;
    };
    if !app.args.is_empty() {
        return None;
    }
    match word_of_name(&app.name) {
        Word::Unit => Some(Value::Unit),
        _ => None,
    }
}

#[tactic(auto, using(crate::proofs::Whole::bool_simple))]
fn truth_value(node: &Node) -> Option<Value>
    ensures value { option_map val result ≡ bare_value truth_of_word (tree node.now) }
    ensures simple { IfSome result (λ v. IsSimple (out-Value v)) }
{
    let Node::Prim(app) = node else {
        return None;
    };
    if !app.args.is_empty() {
        return None;
    }
    match word_of_name(&app.name) {
        Word::True => Some(Value::Bool(true)),
        Word::False => Some(Value::Bool(false)),
        _ => None,
    }
}

#[tactic(auto, using(crate::proofs::Whole::number_simple))]
fn int_value(node: &Node) -> Option<Value>
    ensures value { option_map val result ≡ number_value is_int (tree node.now) }
    ensures simple { IfSome result (λ v. IsSimple (out-Value v)) }
{
    match node {
        Node::Int(n) => Some(Value::Number(*n)),
        _ => None,
    }
}

#[tactic(auto, using(crate::proofs::Whole::number_simple))]
fn nat_value(node: &Node) -> Option<Value>
    ensures value { option_map val result ≡ number_value is_nat (tree node.now) }
    ensures simple { IfSome result (λ v. IsSimple (out-Value v)) }
{
    match node {
        Node::Int(n) if *n >= 0 => Some(Value::Number(*n)),
        _ => None,
    }
}

#[tactic(auto, using(crate::proofs::Whole::number_simple))]
fn amount_value(node: &Node) -> Option<Value>
    ensures value { option_map val result ≡ number_value is_amount (tree node.now) }
    ensures simple { IfSome result (λ v. IsSimple (out-Value v)) }
{
    match node {
        Node::Int(n) if 0 <= *n && *n <= MOST_MUTEZ as i128 => Some(Value::Number(*n)),
        _ => None,
    }
}

fn is_short(bytes: &[u8]) -> bool
    ensures { result ≡ is_short bytes.now }
{
    bytes.len() <= BYTE_LIMIT
}

fn is_text_byte(byte: u8) -> bool
    ensures { result ≡ is_text_byte byte }
{
    32 <= byte && byte <= 126 || byte == b'\n'
}

fn are_text_bytes(bytes: &[u8]) -> bool
    ensures { result ≡ list_all is_text_byte bytes.now }
{
    bytes.iter().all(|byte| is_text_byte(*byte))
}

fn is_text(bytes: &[u8]) -> bool
    ensures { result ≡ is_text bytes.now }
{
    is_short(bytes) && are_text_bytes(bytes)
}

#[tactic(auto, using(crate::proofs::Whole::text_simple))]
fn text_value(alloc: Global, node: &Node) -> Result<Option<Value>, Memory>
    ensures value { IfOk result (λ o. option_map val o ≡ text_value is_text (tree node.now)) }
    ensures simple { IfOk result (λ o. IfSome o (λ v. IsSimple (out-Value v))) }
{
    match node {
        Node::Str(text) if is_text(text.as_slice()) => Ok(Some(Value::Text(text.copy(alloc)?))),
        _ => Ok(None),
    }
}

// Whether these bytes are a literal of a type whose literals are bytes.
#[tactic(auto, using(crate::proofs::Spellings::address_told))]
fn passes(simple: Simple, bytes: &[u8]) -> bool
    ensures { result ≡ byte_test simple bytes.now }
{
    match simple {
        Simple::Bytes => is_short(bytes),
        Simple::Key => Key::read(bytes).is_some(),
        Simple::KeyHash => KeyHash::read(bytes).is_some(),
        Simple::Signature => Signature::read(bytes).is_some(),
        Simple::ChainId => ChainId::read(bytes).is_some(),
        Simple::Address => Address::read(bytes).is_some(),
        _ => false,
    }
}

#[tactic(auto, using(crate::proofs::Whole::bytes_simple))]
fn bytes_value(alloc: Global, simple: Simple, node: &Node) -> Result<Option<Value>, Memory>
    ensures value { IfOk result (λ o. option_map val o ≡ bytes_value (byte_test simple) (tree node.now)) }
    ensures simple { IfOk result (λ o. IfSome o (λ v. IsSimple (out-Value v))) }
{
    match node {
        Node::Bytes(bytes) if passes(simple, bytes.as_slice()) => {
            Ok(Some(Value::Bytes(bytes.copy(alloc)?)))
        }
        _ => Ok(None),
    }
}

/// The value of a type without arguments that a node spells (Michelson reference, "Types", the literals of each). None where it
/// spells none, and Memory where there is no room for it.
pub fn simple_value(alloc: Global, simple: Simple, node: &Node) -> Result<Option<Value>, Memory>
    ensures value { IfOk result (λ o. option_map val o ≡ simple_value simple (tree node.now)) }
    ensures simple { IfOk result (λ o. IfSome o (λ v. IsSimple (out-Value v))) }
{
    match simple {
        Simple::Unit => Ok(unit_value(node)),
        Simple::Never => Ok(None),
        Simple::Bool => Ok(truth_value(node)),
        Simple::Int | Simple::Timestamp => Ok(int_value(node)),
        Simple::Nat => Ok(nat_value(node)),
        Simple::Mutez => Ok(amount_value(node)),
        Simple::String => text_value(alloc, node),
        Simple::Bytes
        | Simple::Key
        | Simple::KeyHash
        | Simple::Signature
        | Simple::ChainId
        | Simple::Address => bytes_value(alloc, simple, node),
    }
}
