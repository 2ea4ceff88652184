// The forms of statements.
ghost use Rattle.std.specs.Prelude.{◌≡◌, ◌^◌, ℕ, [], Some, None, IfOk, option_map, MatchOption};
ghost use Rattle.rules_text.specs.nodes.Tree.{prim, seq};
ghost use Rattle.rules_files.specs.statements.Statements.{account_of, block_of, chain_of, contents_of, content_by, costs_of, counted, each_content, form, group_of, named, nodes_of, profile_of, statement_by};
ghost use Rattle.mich_base.specs.View.{tree, trees};
ghost use Rattle.mich_ops.specs.View.{content};
ghost use Rattle.mich_scenario.specs.View.{IsForm, IsNoPlain, IsNoSequence, IsNoSource, IsSource, contents_said, said};

use crate::actions::content_by;
use crate::error::FormError;
use crate::fields::{chain_id, key_hash, moment, number, within};
use crate::statement::Statement;
use mich_base::{
    App, MOST_CONTENTS, MOST_LEVEL, MOST_MUTEZ, MOST_RATE, Memory, Node, Nodes, Rows, Text,
    copy_node,
};
use mich_forms::KeyHash;
use mich_gas::is_table;
use mich_ops::{Content, Group};
use std::alloc::Global;

// id level moment
#[tactic(auto, using(crate::proofs::Counts::chain_fields))]
fn chain(fields: &Rows<Node>) -> Option<Statement>
    ensures { option_map said result ≡ chain_of (nodes_of (trees fields.now)) }
{
    let Some((id, level, moment_node)) = fields.three() else {
        return None;
    };
    let id = chain_id(id)?;
    let level = number(level, MOST_LEVEL)?;
    let moment = moment(moment_node)?;
    Some(Statement::Chain(id, level as u32, moment))
}

// key_hash mutez
#[tactic(auto, using(crate::proofs::Counts::account_fields))]
fn account(fields: &Rows<Node>) -> Option<Statement>
    ensures { option_map said result ≡ account_of (nodes_of (trees fields.now)) }
{
    let Some((who, mutez)) = fields.both() else {
        return None;
    };
    let who = key_hash(who)?;
    let mutez = number(mutez, MOST_MUTEZ)?;
    Some(Statement::Account(who, mutez))
}

// level moment
#[tactic(auto, using(crate::proofs::Counts::block_fields))]
fn block(fields: &Rows<Node>) -> Option<Statement>
    ensures { option_map said result ≡ block_of (nodes_of (trees fields.now)) }
{
    let Some((level, moment_node)) = fields.both() else {
        return None;
    };
    let level = number(level, MOST_LEVEL)?;
    let moment = moment(moment_node)?;
    Some(Statement::Block(level as u32, moment))
}

// 2 rate
#[tactic(auto, using(crate::proofs::Counts::profile_fields))]
fn profile(fields: &Rows<Node>) -> Option<Statement>
    ensures { option_map said result ≡ profile_of (nodes_of (trees fields.now)) }
{
    let Some((version, rate)) = fields.both() else {
        return None;
    };
    let _version = within(version, 2, 2)?;
    let rate = number(rate, MOST_RATE)?;
    Some(Statement::Profile(rate))
}

// { Cost NAME base coefficient ; .. }
fn costs(fields: Rows<Node>) -> Option<Statement>
    ensures { option_map said result ≡ costs_of (nodes_of (trees fields)) }
{
    let mut fields = fields;
    let table = fields.pop()?;
    if !fields.is_empty() {
        return None;
    }
    if !is_table(&table) {
        return None;
    }
    Some(Statement::Costs(table))
}

// The name and the arguments of an application without annotations.
fn plain(node: Node) -> Option<(Text, Nodes)>
    ensures { MatchOption result (IsNoPlain (tree node)) (λ p. tree node ≡ prim p.0 [] (trees p.1)) }
{
    match node {
        Node::Prim(App { name, annots, args }) => {
            if annots.is_empty() {
                Some((name, args))
            } else {
                None
            }
        }
        _ => None,
    }
}

fn one_content(node: Node) -> Result<Option<Content>, Memory>
    ensures { IfOk result (λ read. option_map content read ≡ named content_by (tree node)) }
{
    match plain(node) {
        Some((name, fields)) => Ok(content_by(name.as_slice(), fields.into_rows()?)),
        None => Ok(None),
    }
}

// The contents that nodes are, in order.
#[tactic(auto, using(crate::proofs::Each::one_more, crate::proofs::Each::none_more, crate::proofs::Each::all_read, crate::proofs::Each::none_read))]
fn each_content(alloc: Global, nodes: Nodes) -> Result<Rows<Content>, FormError>
    ensures { IsForm contents_said (each_content (nodes_of (trees nodes))) result }
{
    let mut contents = Rows::new(alloc);
    for node in nodes.into_vec()? {
        let Some(content) = one_content(node)? else {
            return Err(FormError::BadStatement);
        };
        contents.push(content)?;
    }
    Ok(contents)
}

// The elements of a sequence.
fn elements(node: Node) -> Option<Nodes>
    ensures { MatchOption result (IsNoSequence (tree node)) (λ nodes. tree node ≡ seq (trees nodes)) }
{
    match node {
        Node::Seq(nodes) => Some(nodes),
        _ => None,
    }
}

// One content or more, but not too many.
fn counted(alloc: Global, nodes: Nodes) -> Result<Rows<Content>, FormError>
    ensures { IsForm contents_said (counted (nodes_of (trees nodes))) result }
{
    if nodes.is_empty() {
        return Err(FormError::BadStatement);
    }
    if nodes.len() > MOST_CONTENTS {
        return Err(FormError::BadStatement);
    }
    each_content(alloc, nodes)
}

fn contents(alloc: Global, node: Node) -> Result<Rows<Content>, FormError>
    ensures { IsForm contents_said (contents_of (tree node)) result }
{
    match elements(node) {
        Some(nodes) => counted(alloc, nodes),
        None => Err(FormError::BadStatement),
    }
}

// The source, before the contents.
#[tactic(auto, using(crate::proofs::Counts::group_fields))]
fn source(front: &Rows<Node>) -> Option<KeyHash>
    ensures { MatchOption result (IsNoSource (nodes_of (trees front.now))) (IsSource (nodes_of (trees front.now))) }
{
    match front.only() {
        Some(who) => key_hash(who),
        None => None,
    }
}

// The source and the contents.
fn group(alloc: Global, fields: Rows<Node>) -> Result<Statement, FormError>
    ensures { IsForm said (group_of (nodes_of (trees fields))) result }
{
    let mut fields = fields;
    let Some(orders) = fields.pop() else {
        return Err(FormError::BadStatement);
    };
    let Some(source) = source(&fields) else {
        return Err(FormError::BadStatement);
    };
    match contents(alloc, orders) {
        Ok(contents) => Ok(Statement::Group(Group { source, contents })),
        Err(error) => Err(error),
    }
}

fn statement_by(alloc: Global, name: &[u8], fields: Rows<Node>) -> Result<Statement, FormError>
    ensures { IsForm said (statement_by name.now (nodes_of (trees fields))) result }
{
    if name == b"Chain".as_slice() {
        chain(&fields).ok_or(FormError::BadStatement)
    } else if name == b"Profile".as_slice() {
        profile(&fields).ok_or(FormError::BadStatement)
    } else if name == b"Costs".as_slice() {
        costs(fields).ok_or(FormError::BadStatement)
    } else if name == b"Account".as_slice() {
        account(&fields).ok_or(FormError::BadStatement)
    } else if name == b"Block".as_slice() {
        block(&fields).ok_or(FormError::BadStatement)
    } else if name == b"Group".as_slice() {
        group(alloc, fields)
    } else {
        Err(FormError::BadStatement)
    }
}

/// The statement that a node is: `Chain id level moment`, `Profile 2 rate`, `Costs { Cost NAME base coefficient ; .. }`, `Account key_hash mutez`,
/// `Block level moment`, or `Group source { content ; .. }` of 1 to 1,000 contents, each `Originate fee gas balance script
/// storage`, `Call fee gas amount destination "entrypoint" argument` or `Give fee gas issuer type content amount destination
/// "entrypoint"`, with amounts in mutez and moments in seconds. BadStatement of another node; Memory where there is no room for
/// the list of contents. No part of the node is copied that nothing else holds.
pub fn take_form(alloc: Global, node: Node) -> Result<Statement, FormError>
    ensures { IsForm said (form (tree node)) result }
{
    match plain(node) {
        Some((name, fields)) => statement_by(alloc, name.as_slice(), fields.into_rows()?),
        None => Err(FormError::BadStatement),
    }
}

/// The same of a copy of the node.
pub fn read_form(alloc: Global, node: &Node) -> Result<Statement, FormError>
    ensures { IsForm said (form (tree node.now)) result }
{
    let node = copy_node(alloc, node)?;
    take_form(alloc, node)
}
