// A file whose script is typed, or certified.
ghost use Rattle.std.specs.Prelude.{◌≡◌, ◌<◌, ◌^◌, ◌+◌, IfOk, length, map, codes};
ghost use Rattle.rules_text.specs.nodes.Tree.{size, sizes};
ghost use Rattle.rules_files.specs.commands.Codec.{of_text};
ghost use Rattle.rules_files.specs.commands.Answers.{done_with};
ghost use Rattle.rules_world.specs.lines.Nodes.{line, word};
ghost use Rattle.rules_files.specs.commands.Scripts.{checking_answer, script_of};
ghost use Rattle.rules_code.specs.instructions.Arguments.{fault};
ghost use Rattle.rules_code.specs.typing.Nodes.{script};
ghost use Rattle.mich_base.specs.View.{tree, trees};
ghost use Rattle.mich_answers.specs.Checked.{IsWhole, is_one_sequence};
ghost use Rattle.mich_answers.specs.View.{answer_seen, IsDoneOrRefused, IsScriptAnswer, script_answer};

use crate::answer::{Answer, done, refused};
use crate::certifying::certify_node;
use crate::lines::{node_line, text_kind_name};
use crate::statements::{Next, read_next};
use mich_base::{Memory, Node, Nodes, Rows, Texts};
use mich_check::{CheckError, check_script};
use mich_types::{bare, over_one};
use rules_text::text::TextKind;
use std::alloc::Global;

/// A command that takes the script of a file.
#[derive(Clone, Copy)]
pub enum ScriptCommand {
    /// Whether the script is typed (Michelson reference, "Typing").
    Check,
    /// The script with the derivation of its typing beside it.
    Certify,
}

/// The nodes of a file, and the first fault of its text.
#[derive(Drop)]
pub struct Statements {
    pub nodes: Rows<Node>,
    pub fault: Option<(TextKind, u64)>,
}

// What a file lists, which is read to its end or to its first fault.
fn list_nodes(alloc: Global, file: &[u8]) -> Result<Statements, Memory>
    ensures { IfOk result (λ listed. IsWhole file.now listed) }
{
    let mut nodes = Rows::new(alloc);
    let mut place = 0u64;
    'statements: loop {
        match read_next(alloc, file, place)? {
            Next::Statement(placed) => {
                place = placed.end;
                nodes.push(placed.node)?;
            }
            Next::End => {
                return Ok(Statements { nodes, fault: None });
            }
            Next::Fault(kind, at) => {
                return Ok(Statements {
                    nodes,
                    fault: Some((kind, at)),
                });
            }
        }
    }
}

// The one node, where it is a sequence; else the sequence of all.
fn script_of(nodes: Rows<Node>) -> Result<Node, Memory>
    ensures { IfOk result (λ node. tree node ≡ script_of (map tree nodes)) }
{
    let mut nodes = nodes;
    if is_one_sequence(&nodes) {
        if let Some(node) = nodes.pop() {
            return Ok(node);
        }
    }
    Ok(Node::Seq(Nodes::from_rows(nodes)?))
}

fn is_one_sequence(nodes: &Rows<Node>) -> bool
    ensures { result ≡ is_one_sequence (map tree nodes.now) }
{
    match nodes.only() {
        Some(Node::Seq(_)) => true,
        _ => false,
    }
}

fn well_typed(alloc: Global) -> Result<Answer, Memory>
    ensures { IfOk result (λ a. answer_seen a ≡ done_with (line (word (codes "WellTyped")))) }
{
    let node = bare(alloc, b"WellTyped")?;
    done(alloc, node_line(alloc, &node)?)
}

/// The answer where the first fault of the typing is at a location.
pub(crate) fn ill_typed(alloc: Global, location: u32) -> Result<Answer, Memory>
    ensures { IfOk result (λ a. answer_seen a ≡ checking_answer (fault location)) }
{
    let location = Node::Int(i128::from(location));
    let node = over_one(alloc, b"IllTyped", location)?;
    let mut lines = Texts::new(alloc);
    lines.push(node_line(alloc, &node)?)?;
    Ok(Answer { status: 2, lines })
}

// The answer to a script.
fn check_node(alloc: Global, node: &Node) -> Result<Answer, Memory>
    requires { size (tree node.now) < 2 ^ 32 }
    ensures { IfOk result (λ a. answer_seen a ≡ checking_answer (script (tree node.now))) }
{
    match check_script(alloc, node) {
        Ok(script) => {
            drop(script);
            well_typed(alloc)
        }
        Err(CheckError::IllTyped(location)) => ill_typed(alloc, location),
        Err(CheckError::Memory) => Err(Memory),
    }
}

// The answer of a command to a script.
fn answer_node(alloc: Global, command: ScriptCommand, node: &Node) -> Result<Answer, Memory>
    requires { size (tree node.now) < 2 ^ 32 }
    ensures { IfOk result (λ a. answer_seen a ≡ script_answer command (tree node.now)) }
{
    match command {
        ScriptCommand::Check => check_node(alloc, node),
        ScriptCommand::Certify => certify_node(alloc, node),
    }
}

// The answer of a command to what a file lists.
fn answer_statements(
    alloc: Global,
    command: ScriptCommand,
    listed: Statements,
) -> Result<Answer, Memory>
    requires { sizes (trees listed.nodes) + 1 < 2 ^ 32 }
    ensures { IfOk result (λ a. answer_seen a ≡ of_text listed.fault (script_answer command (script_of (map tree listed.nodes)))) }
{
    let Statements { nodes, fault } = listed;
    if let Some((kind, at)) = fault {
        return refused(alloc, text_kind_name(kind), at);
    }
    let script = script_of(nodes)?;
    answer_node(alloc, command, &script)
}

/// The answer of a command to the script that a file holds: that it is typed, or its certificate, or the location of its first
/// fault, or where there are too many levels, or that the certificate is too long; the first fault of the text comes before all
/// else (Michelson reference, "Typing"). Memory where there is no room for it.
pub fn answer_script(alloc: Global, command: ScriptCommand, file: &[u8]) -> Result<Answer, Memory>
    requires { length file.now + 1 < 2 ^ 32 }
    ensures exact { IfOk result (λ a. IsScriptAnswer command file.now (answer_seen a)) }
    ensures status { IfOk result (λ a. IsDoneOrRefused a.status) }
{
    let listed = list_nodes(alloc, file)?;
    answer_statements(alloc, command, listed)
}
