// What the words ask for.
ghost use Rattle.std.specs.Prelude.{◌≡◌, ◌≤◌, ◌∷◌, [], Some, None, length, option_map, if◌then◌else◌};
ghost use Rattle.std.specs.Str.{is_utf8};
ghost use Rattle.rules_files.specs.commands.Commands.{is_path, verb_of, on_file, on_files, digits_behind, calls_of, on_calls, command_of};
ghost use Rattle.mich_replay.specs.View.{verb_seen, command_seen, IsInRange};

use mich_base::Text;
use std::str;

/// A command that reads its file whole before it writes.
#[derive(Clone, Copy)]
pub enum WholeVerb {
    Check,
    Encode,
    Decode,
    Pack,
    Certify,
    Verify,
    Audit,
}

/// A command that takes a file.
#[derive(Clone, Copy)]
pub enum Verb {
    Replay,
    Snapshot,
    Whole(WholeVerb),
}

/// A command with its file, a snapshot and the file that goes on from it, a workload of so many calls, or none.
#[derive(Clone, Copy)]
pub enum Command<'a> {
    OnFile(Verb, &'a str),
    Resume(&'a str, &'a str),
    Generate(u32),
    NoCommand,
}

// The bytes as text, where they are UTF-8.
fn as_text(bytes: &[u8]) -> Option<&str>
    ensures { option_map (λ s. s.now) result ≡ (if is_utf8 bytes.now then Some bytes.now else None) }
{
    match str::from_utf8(bytes) {
        Ok(text) => Some(text),
        Err(_) => None,
    }
}

fn verb_of(word: &[u8]) -> Option<Verb>
    ensures { option_map verb_seen result ≡ verb_of word.now }
{
    if word == b"replay".as_slice() {
        Some(Verb::Replay)
    } else if word == b"check".as_slice() {
        Some(Verb::Whole(WholeVerb::Check))
    } else if word == b"encode".as_slice() {
        Some(Verb::Whole(WholeVerb::Encode))
    } else if word == b"decode".as_slice() {
        Some(Verb::Whole(WholeVerb::Decode))
    } else if word == b"pack".as_slice() {
        Some(Verb::Whole(WholeVerb::Pack))
    } else if word == b"certify".as_slice() {
        Some(Verb::Whole(WholeVerb::Certify))
    } else if word == b"verify".as_slice() {
        Some(Verb::Whole(WholeVerb::Verify))
    } else if word == b"audit".as_slice() {
        Some(Verb::Whole(WholeVerb::Audit))
    } else if word == b"snapshot".as_slice() {
        Some(Verb::Snapshot)
    } else {
        None
    }
}

// The word as a path.
fn path_of(word: &[u8]) -> Option<&str>
    ensures { option_map (λ s. s.now) result ≡ (if is_path word.now then Some word.now else None) }
{
    match as_text(word) {
        Some(path) if !path.starts_with('-') => Some(path),
        _ => None,
    }
}

// The command with its file.
fn on_file<'a>(verb: &[u8], path: &'a [u8]) -> Command<'a>
    ensures seen { command_seen result ≡ on_file (verb_of verb.now) path.now }
    ensures range { IsInRange result }
{
    match (verb_of(verb), path_of(path)) {
        (Some(verb), Some(path)) => Command::OnFile(verb, path),
        _ => Command::NoCommand,
    }
}

// The command with its two files.
fn on_files<'a>(snapshot: &'a [u8], path: &'a [u8]) -> Command<'a>
    ensures seen { command_seen result ≡ on_files snapshot.now path.now }
    ensures range { IsInRange result }
{
    match (path_of(snapshot), path_of(path)) {
        (Some(snapshot), Some(path)) => Command::Resume(snapshot, path),
        _ => Command::NoCommand,
    }
}

// The value of at most six digits.
fn value_of(word: &[u8]) -> Option<u32>
    requires { length word.now ≤ 6 }
    ensures { result ≡ digits_behind 0 word.now }
{
    let mut value = 0;
    'digits: for digit in word {
        if !digit.is_ascii_digit() {
            return None;
        }
        value = value * 10 + u32::from(*digit - b'0');
    }
    Some(value)
}

// The number of calls that the word tells.
fn calls_of(word: &[u8]) -> Option<u32>
    ensures { result ≡ calls_of word.now }
{
    if word.len() > 6 {
        return None;
    }
    match value_of(word) {
        Some(calls) if (1..=100_000).contains(&calls) => Some(calls),
        _ => None,
    }
}

// The workload of so many calls.
fn on_calls(calls: Option<u32>) -> Command<'static>
    ensures { command_seen result ≡ on_calls calls }
{
    match calls {
        Some(calls) => Command::Generate(calls),
        None => Command::NoCommand,
    }
}

// The command of two words.
fn by_two<'a>(verb: &[u8], word: &'a [u8]) -> Command<'a>
    ensures seen { command_seen result ≡ command_of (verb.now ∷ word.now ∷ []) }
    ensures range { IsInRange result }
{
    if verb == b"generate".as_slice() {
        on_calls(calls_of(word))
    } else {
        on_file(verb, word)
    }
}

// The command of three words.
fn by_three<'a>(verb: &[u8], snapshot: &'a [u8], path: &'a [u8]) -> Command<'a>
    ensures seen { command_seen result ≡ command_of (verb.now ∷ snapshot.now ∷ path.now ∷ []) }
    ensures range { IsInRange result }
{
    if verb == b"resume".as_slice() {
        on_files(snapshot, path)
    } else {
        Command::NoCommand
    }
}

/// The command that the words are.
pub(crate) fn read_words(words: &[Text]) -> Command<'_>
    ensures seen { command_seen result ≡ command_of words.now }
    ensures range { IsInRange result }
{
    match words {
        [verb, word] => by_two(verb.as_slice(), word.as_slice()),
        [verb, snapshot, path] => by_three(verb.as_slice(), snapshot.as_slice(), path.as_slice()),
        _ => Command::NoCommand,
    }
}
