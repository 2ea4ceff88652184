// What a command answers.
ghost use Rattle.std.specs.Prelude.{◌≡◌, IfOk};
ghost use Rattle.rules_files.specs.commands.Answers.{done_with, refused_with, misplaced};
ghost use Rattle.mich_answers.specs.View.{answer_seen};

use crate::lines::{as_text, refusal_line};
use mich_base::{Memory, Text, Texts};
use std::alloc::Global;

/// A status, and the lines that are written.
#[derive(Drop)]
pub struct Answer {
    pub status: u8,
    pub lines: Texts,
}

/// The answer of one line where a command is done.
pub fn done(alloc: Global, line: Text) -> Result<Answer, Memory>
    ensures { IfOk result (λ a. answer_seen a ≡ done_with line) }
{
    let mut lines = Texts::new(alloc);
    lines.push(line)?;
    Ok(Answer { status: 0, lines })
}

/// The answer of one line where a command refuses its file.
pub fn refused(alloc: Global, name: &str, place: u64) -> Result<Answer, Memory>
    ensures { IfOk result (λ a. answer_seen a ≡ refused_with name.now place) }
{
    let mut lines = Texts::new(alloc);
    lines.push(as_text(refusal_line(alloc, name, place)?)?)?;
    Ok(Answer { status: 2, lines })
}

/// The answer where no statement of the command's form stands at a place.
pub fn misplaced(alloc: Global, place: u64) -> Result<Answer, Memory>
    ensures { IfOk result (λ a. answer_seen a ≡ misplaced place) }
{
    refused(alloc, "BadStatement", place)
}
