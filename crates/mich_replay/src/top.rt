// The top call.
ghost use Rattle.std.specs.Prelude.{◌≡◌, ◌<◌, drop, Contains, None, IfOk, IsErrOf, IsSome};
ghost use Rattle.std.specs.Io.KnownBytes.{IsAtEnd};
ghost use Rattle.rules_text.specs.streams.Causes.{HasCause};
ghost use Rattle.rules_text.specs.streams.Known.{SameFiles};
ghost use Rattle.rules_files.specs.commands.Commands.{OnFile, command_of, file_of};
ghost use Rattle.rules_files.specs.commands.Promise.{Meets};
ghost use Rattle.mich_replay.specs.Coming.{Comes};
ghost use Rattle.mich_replay.specs.Output.{HandsLines, output};
ghost use Rattle.mich_replay.specs.Pace.{PacesResuming, PacesVerb, PacesWords};
ghost use Rattle.mich_replay.specs.Taken.{NoneFalls, TakesFile, TakesResuming, TakesWords};
ghost use Rattle.mich_replay.specs.View.{status_in, verb_seen};

use crate::answer::{answer_whole, usage};
use crate::command::{Command, Verb, read_words};
use crate::generating::generate;
use crate::replaying::replay_file;
use crate::resuming::resume;
use crate::snapshotting::snapshot_file;
use mich_base::Texts;
use mich_io::{Files, Sink, Stop, status_of};
use std::alloc::Global;

// Does what a command with a file asks for, and answers the status.
fn answer_on_file<F: Files, K: Sink>(
    alloc: Global,
    verb: Verb,
    path: &str,
    files: &mut F,
    out: &mut K,
) -> Result<u8, Stop>
    requires { Contains (F.lent files.old) path.now }
    ensures comes { Comes (OnFile (verb_seen verb) path.now) (F.content files.old) (output (K.written out.old) (K.handed out.old)) (output (K.written out.new) (K.handed out.new)) result }
    ensures pace { PacesVerb (verb_seen verb) (F.content files.old path.now) (F.left files.old) (F.left files.new)
        (K.written out.old) (K.written out.new) (status_in result) }
    ensures taken { TakesFile (F.content files.old path.now) (F.left files.old) (F.left files.new)
        (K.written out.old) (K.written out.new) (status_in result) }
    ensures same { SameFiles (F.lent files.old) (F.lent files.new) (F.content files.old) (F.content files.new) }
    ensures end { IfOk result (λ status. status ≡ 0 → IsAtEnd (F.left files.new)) }
    ensures reads { HasCause Stop.Read (F.faults files.old) (F.faults files.new) result }
    ensures writes { HasCause Stop.Write (K.faults out.old) (K.faults out.new) result }
{
    match verb {
        Verb::Replay => replay_file(alloc, path, files, out),
        Verb::Snapshot => snapshot_file(alloc, path, files, out),
        Verb::Whole(verb) => answer_whole(alloc, verb, path, files, out),
    }
}

// Does what the words ask for, and answers the status.
fn answer_words<F: Files, K: Sink>(
    alloc: Global,
    words: &Texts,
    files: &mut F,
    out: &mut K,
) -> Result<u8, Stop>
    requires { F.lent files.old ≡ drop 1 words.now }
    ensures comes { Comes (command_of words.now) (F.content files.old) (output (K.written out.old) (K.handed out.old)) (output (K.written out.new) (K.handed out.new)) result }
    ensures pace { PacesWords words.now (F.content files.old) (F.left files.old) (F.left files.new)
        (K.written out.old) (K.written out.new) (status_in result) }
    ensures taken { TakesWords words.now (F.content files.old) (F.left files.old) (F.left files.new)
        (K.written out.old) (K.written out.new) (status_in result) }
    ensures resumed { PacesResuming words.now (F.content files.old) (F.left files.new) (K.written out.old) (K.written out.new) (status_in result) }
    ensures both { TakesResuming words.now (F.content files.old) (F.left files.old) (F.left files.new)
        (K.written out.old) (K.written out.new) (status_in result) }
    ensures same { SameFiles (F.lent files.old) (F.lent files.new) (F.content files.old) (F.content files.new) }
    ensures untouched { file_of (command_of words.now) ≡ None → files.new ≡ files.old }
    ensures end { IfOk result (λ status. status ≡ 0 → IsSome (file_of (command_of words.now)) → IsAtEnd (F.left files.new)) }
    ensures file { IsErrOf result Stop.Read → IsSome (file_of (command_of words.now)) }
    ensures reads { HasCause Stop.Read (F.faults files.old) (F.faults files.new) result }
    ensures writes { HasCause Stop.Write (K.faults out.old) (K.faults out.new) result }
{
    match read_words(words.as_slice()) {
        Command::OnFile(verb, path) => answer_on_file(alloc, verb, path, files, out),
        Command::Resume(snapshot, path) => resume(alloc, snapshot, path, files, out),
        Command::Generate(calls) => generate(alloc, calls, out),
        Command::NoCommand => usage(alloc, out),
    }
}

/// Does what the words ask for, and answers the status: 0 done, 1 usage, 2 refused, 3 a read fault, 4 a write fault,
/// 5 out of memory.
///
/// The words are the command line without the program's name, and the files that are lent are those behind the first.
/// Each line is one `write_all`. Where the words name no file, the files aren't touched. Of a file at most 65,536 bytes more
/// are read than it may have. `replay` reads pieces of at most 65,536 bytes, and writes the line of each group before it
/// reads on; so does `resume` behind the snapshot, which it reads whole. Where the snapshot can't be loaded, the file isn't read.
pub fn mich<F: Files, K: Sink>(alloc: Global, words: &Texts, files: &mut F, out: &mut K) -> u8
    requires { F.lent files.old ≡ drop 1 words.now }
    ensures meets { Meets words.now (F.content files.old) (F.faults files.old) (F.faults files.new) (K.faults out.old) (K.faults out.new)
        (F.left files.new) (K.written out.old) (K.written out.new) result }
    ensures lines { HandsLines words.now (F.content files.old) (K.handed out.old) (K.handed out.new) result }
    ensures pace { PacesWords words.now (F.content files.old) (F.left files.old) (F.left files.new) (K.written out.old) (K.written out.new) result }
    ensures taken { TakesWords words.now (F.content files.old) (F.left files.old) (F.left files.new) (K.written out.old) (K.written out.new) result }
    ensures resumed { PacesResuming words.now (F.content files.old) (F.left files.new) (K.written out.old) (K.written out.new) result }
    ensures both { TakesResuming words.now (F.content files.old) (F.left files.old) (F.left files.new) (K.written out.old) (K.written out.new) result }
    ensures files { SameFiles (F.lent files.old) (F.lent files.new) (F.content files.old) (F.content files.new) }
    ensures counts { NoneFalls (F.faults files.old) (F.faults files.new) (K.faults out.old) (K.faults out.new) }
    ensures untouched { file_of (command_of words.now) ≡ None → files.new ≡ files.old }
{
    status_of(answer_words(alloc, words, files, out))
}
