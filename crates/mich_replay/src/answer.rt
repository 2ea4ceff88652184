// The commands that read their file whole before they write.
ghost use Rattle.std.specs.Prelude.{◌≡◌, ◌⊎◌, ◌≤◌, ◌<◌, ◌++◌, ℕ, List, Option, length, Contains, IfOk, OnOk, OnErr, IsErrOf};
ghost use Rattle.std.specs.Io.KnownBytes.{IsAtEnd};
ghost use Rattle.rules_text.specs.nodes.Limits.{file_limit};
ghost use Rattle.rules_text.specs.streams.Causes.{HasCause};
ghost use Rattle.rules_text.specs.streams.Known.{SameFiles};
ghost use Rattle.rules_files.specs.commands.Commands.{OnFile, NoCommand, IsVerbAnswer};
ghost use Rattle.mich_answers.specs.View.{answer_seen, IsDoneOrRefused};
ghost use Rattle.mich_replay.specs.Coming.{Comes, IsAnswerIfTold};
ghost use Rattle.mich_replay.specs.Fronts.{IsRest};
ghost use Rattle.mich_replay.specs.Output.{output};
ghost use Rattle.mich_replay.specs.Taken.{HasTaken, TakesFile, read_limit};
ghost use Rattle.mich_replay.specs.View.{status_in, whole_seen};

use crate::command::WholeVerb;
use crate::lines::usage_line;
use crate::reading::read_file;
use crate::writing::{write_line, write_lines};
use mich_answers::{
    Answer, NodeCommand, ScriptCommand, answer_audit, answer_node, answer_script, answer_verify,
};
use mich_base::Memory;
use mich_io::{Files, Sink, Stop};
use std::alloc::Global;

/// Writes the usage, for words that are no command.
pub(crate) fn usage<K: Sink>(alloc: Global, out: &mut K) -> Result<u8, Stop>
    ensures comes { (content : List ℕ → Option (List ℕ)) → Comes NoCommand content (output (K.written out.old) (K.handed out.old)) (output (K.written out.new) (K.handed out.new)) result }
    ensures status { IfOk result (λ status. status ≡ 1) }
    ensures no_read { IsErrOf result Stop.Read → ⊥ }
    ensures cause { HasCause Stop.Write (K.faults out.old) (K.faults out.new) result }
{
    let line = usage_line(alloc)?;
    write_line(out, line.as_bytes())?;
    Ok(1)
}

// The answer of a command to the bytes of its file.
fn answer_file(alloc: Global, verb: WholeVerb, file: &[u8]) -> Result<Answer, Memory>
    requires { length file.now ≤ read_limit }
    ensures exact { IfOk result (λ a. IsVerbAnswer (whole_seen verb) file.now (answer_seen a)) }
    ensures status { IfOk result (λ a. IsDoneOrRefused a.status) }
{
    match verb {
        WholeVerb::Check => answer_script(alloc, ScriptCommand::Check, file),
        WholeVerb::Encode => answer_node(alloc, NodeCommand::Encode, file),
        WholeVerb::Decode => answer_node(alloc, NodeCommand::Decode, file),
        WholeVerb::Pack => answer_node(alloc, NodeCommand::Pack, file),
        WholeVerb::Certify => answer_script(alloc, ScriptCommand::Certify, file),
        WholeVerb::Verify => answer_verify(alloc, file),
        WholeVerb::Audit => answer_audit(alloc, file),
    }
}

// The answer to a file of which so much was read.
fn answer_read(alloc: Global, verb: WholeVerb, read: &[u8]) -> Result<Answer, Memory>
    requires { length read.now ≤ read_limit }
    ensures exact { IfOk result (λ a. (more : List ℕ) → IsRest read.now more → IsVerbAnswer (whole_seen verb) (read.now ++ more) (answer_seen a)) }
    ensures end { IfOk result (λ a. a.status ≡ 0 → length read.now ≤ file_limit) }
    ensures status { IfOk result (λ a. IsDoneOrRefused a.status) }
{
    answer_file(alloc, verb, read)
}

// The answer to a file.
fn answer_path<F: Files>(
    alloc: Global,
    verb: WholeVerb,
    path: &str,
    files: &mut F,
) -> Result<Answer, Stop>
    requires { Contains (F.lent files.old) path.now }
    ensures exact { IfOk result (λ a. IsAnswerIfTold (OnFile (whole_seen verb) path.now) (F.content files.old) (answer_seen a)) }
    ensures status { IfOk result (λ a. IsDoneOrRefused a.status) }
    ensures end { IfOk result (λ a. a.status ≡ 0 → IsAtEnd (F.left files.new)) }
    ensures taken { OnOk result (HasTaken (F.content files.old path.now) (F.left files.new)) }
    ensures given_up { OnErr result ((F.left files.new ≡ F.left files.old) ⊎ HasTaken (F.content files.old path.now) (F.left files.new)) }
    ensures same { SameFiles (F.lent files.old) (F.lent files.new) (F.content files.old) (F.content files.new) }
    ensures no_write { IsErrOf result Stop.Write → ⊥ }
    ensures cause { HasCause Stop.Read (F.faults files.old) (F.faults files.new) result }
{
    let file = read_file(alloc, files, path)?;
    let answer = answer_read(alloc, verb, file.as_slice())?;
    Ok(answer)
}

/// Writes the answer to a file that is read whole, and answers the status.
pub(crate) fn answer_whole<F: Files, K: Sink>(
    alloc: Global,
    verb: WholeVerb,
    path: &str,
    files: &mut F,
    out: &mut K,
) -> Result<u8, Stop>
    requires { Contains (F.lent files.old) path.now }
    ensures comes { Comes (OnFile (whole_seen verb) path.now) (F.content files.old) (output (K.written out.old) (K.handed out.old)) (output (K.written out.new) (K.handed out.new)) result }
    ensures taken { TakesFile (F.content files.old path.now) (F.left files.old) (F.left files.new)
        (K.written out.old) (K.written out.new) (status_in result) }
    ensures same { SameFiles (F.lent files.old) (F.lent files.new) (F.content files.old) (F.content files.new) }
    ensures end { IfOk result (λ status. status ≡ 0 → IsAtEnd (F.left files.new)) }
    ensures reads { HasCause Stop.Read (F.faults files.old) (F.faults files.new) result }
    ensures writes { HasCause Stop.Write (K.faults out.old) (K.faults out.new) result }
{
    let answer = answer_path(alloc, verb, path, files)?;
    write_lines(out, &answer.lines)?;
    Ok(answer.status)
}
