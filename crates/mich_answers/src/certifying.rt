// A script that is certified, and a certificate that is verified.
ghost use Rattle.std.specs.Prelude.{◌≡◌, ◌<◌, ◌-◌, ◌^◌, [], ◌∷◌, IfOk, codes, length};
ghost use Rattle.rules_text.specs.nodes.Tree.{size};
ghost use Rattle.rules_code.specs.certificates.Certificates.{certifying};
ghost use Rattle.rules_files.specs.commands.Answers.{done_with};
ghost use Rattle.rules_files.specs.commands.Certificates.{IsVerified, IsVerifyAnswer, certifying_answer};
ghost use Rattle.rules_world.specs.lines.Nodes.{line, word};
ghost use Rattle.mich_base.specs.View.{tree};
ghost use Rattle.mich_answers.specs.Listed.{IsKeptVerified, IsSmall};
ghost use Rattle.mich_answers.specs.View.{answer_seen, IsDoneOrRefused};

use crate::answer::{Answer, done, misplaced, refused};
use crate::checking::ill_typed;
use crate::lines::{node_line, text_kind_name};
use crate::statements::{Listed, list_file};
use mich_base::{Memory, Node, Texts};
use mich_cert::{CertError, certify, verify};
use mich_types::bare;
use std::alloc::Global;

/// The answer of `certify` to a script.
pub(crate) fn certify_node(alloc: Global, node: &Node) -> Result<Answer, Memory>
    requires { size (tree node.now) < 2 ^ 32 }
    ensures { IfOk result (λ a. answer_seen a ≡ certifying_answer (certifying (tree node.now))) }
{
    match certify(alloc, node) {
        Ok(certificate) => done(alloc, node_line(alloc, &certificate)?),
        Err(CertError::IllTyped(location)) => ill_typed(alloc, location),
        Err(CertError::TooDeep(location)) => refused(alloc, "TooDeep", u64::from(location)),
        Err(CertError::TooLong) => refused(alloc, "TooLong", 0),
        Err(CertError::Memory) => Err(Memory),
    }
}

fn valid(alloc: Global) -> Result<Answer, Memory>
    ensures { IfOk result (λ a. answer_seen a ≡ done_with (line (word (codes "Valid")))) }
{
    let node = bare(alloc, b"Valid")?;
    done(alloc, node_line(alloc, &node)?)
}

fn invalid(alloc: Global) -> Result<Answer, Memory>
    ensures { IfOk result (λ a. answer_seen a ≡ record { status = 2; lines = line (word (codes "Invalid")) ∷ [] }) }
{
    let node = bare(alloc, b"Invalid")?;
    let mut lines = Texts::new(alloc);
    lines.push(node_line(alloc, &node)?)?;
    Ok(Answer { status: 2, lines })
}

// The answer of `verify` to a node.
fn verify_node(alloc: Global, node: &Node) -> Result<Answer, Memory>
    requires { size (tree node.now) < 2 ^ 32 }
    ensures { IfOk result (λ a. IsVerified (tree node.now) (answer_seen a)) }
{
    if verify(alloc, node)? {
        valid(alloc)
    } else {
        invalid(alloc)
    }
}

// The answer to what a file of so many bytes lists.
fn verify_listed(alloc: Global, listed: &Listed, size: u64) -> Result<Answer, Memory>
    requires { IsSmall (2 ^ 32 - 1) listed.now.first }
    ensures { IfOk result (λ a. IsKeptVerified listed.now.fault size listed.now.first listed.now.second (answer_seen a)) }
{
    if let Some((kind, at)) = listed.fault {
        return refused(alloc, text_kind_name(kind), at);
    }
    let Some(placed) = &listed.first else {
        return misplaced(alloc, size);
    };
    match listed.second {
        Some(at) => misplaced(alloc, at),
        None => verify_node(alloc, &placed.node),
    }
}

/// The answer of `verify` to a file: whether its one node is a valid certificate, or why the file is refused. Memory where there
/// is no room for it.
pub fn answer_verify(alloc: Global, file: &[u8]) -> Result<Answer, Memory>
    requires { length file.now < 2 ^ 32 }
    ensures exact { IfOk result (λ a. IsVerifyAnswer file.now (answer_seen a)) }
    ensures status { IfOk result (λ a. IsDoneOrRefused a.status) }
{
    let listed = list_file(alloc, file)?;
    verify_listed(alloc, &listed, file.len() as u64)
}
