// The replay of a file and a sink that never fail.
ghost use Rattle.std.specs.Prelude.{◌≡◌, ◌⊎◌, ◌<◌, [], ◌∷◌, IfOk, codes};
ghost use Rattle.rules_files.specs.commands.Lines.{text_of};
ghost use Rattle.rules_files.specs.commands.Answers.{Answer};
ghost use Rattle.rules_files.specs.commands.Commands.{Replaying, IsVerbAnswer};

use crate::mich;
use mich_base::{Bytes, Memory, Text, Texts};
use mich_io::{HonestFiles, HonestSink};
use std::alloc::Global;

// The words `replay file`.
fn words(alloc: Global) -> Result<Texts, Memory>
    ensures { IfOk result (λ words. words ≡ codes "replay" ∷ codes "file" ∷ []) }
{
    let mut words = Texts::new(alloc);
    words.push(Text::from_slice(alloc, b"replay")?)?;
    words.push(Text::from_slice(alloc, b"file")?)?;
    Ok(words)
}

// The status for the file that is lent, by its bytes, and what is written.
#[tactic(auto, using(crate::proofs::Truth::file_is_text))]
fn answer_file(alloc: Global, words: &Texts, files: &mut HonestFiles, out: &mut HonestSink) -> u8
    requires words { words.now ≡ codes "replay" ∷ codes "file" ∷ [] }
    requires path { files.old.path ≡ codes "file" }
    requires empty { out.old ≡ [] }
    ensures { (result ≡ 5) ⊎ ((answer : Answer) × IsVerbAnswer Replaying files.old.content answer × (result ≡ answer.status) × (out.new ≡ text_of answer.lines)) }
{
    mich(alloc, words, files, out)
}

/// The status for a file of these bytes, and what is written. The status is 0 or 2 as the file's rules give it, and the
/// whole text is written, or it is 5, where memory ran out.
pub fn replay_bytes(alloc: Global, content: Bytes) -> Result<(u8, HonestSink), Memory>
    ensures { IfOk result (λ done. (done.0 ≡ 5) ⊎ ((answer : Answer) × IsVerbAnswer Replaying content answer × (done.0 ≡ answer.status) × (done.1 ≡ text_of answer.lines))) }
{
    let words = words(alloc)?;
    let mut files = HonestFiles::new(Text::from_slice(alloc, b"file")?, content);
    let mut out = HonestSink::new(alloc);
    let status = answer_file(alloc, &words, &mut files, &mut out);
    Ok((status, out))
}
