// The verdict on a text that a run printed.
ghost use Rattle.std.specs.Prelude.{◌≡◌, ◌+◌, ◌<◌, ◌≤◌, ◌^◌, List, IfOk, MatchOption, take};
ghost use Rattle.rules_audit.specs.Form.{audit_limit};
ghost use Rattle.rules_audit.specs.Lines.{Line};
ghost use Rattle.rules_audit.specs.Audits.{IsVerdict};
ghost use Rattle.mich_audit.specs.Answers.{IsEndVerdict};
ghost use Rattle.mich_audit.specs.Tallies.{IsPieceTaken, IsTally};
ghost use Rattle.mich_audit.specs.Pieces.{HasNoFeed, IsFirstFeed};
ghost use Rattle.mich_audit.specs.View.{verdict_seen};

use crate::lines::line_of;
use crate::tally::Tally;
use mich_base::{FILE_LIMIT, Memory};
use mich_text::read_alone;
use std::alloc::Global;

/// Whether the numbers of a printed run agree.
#[derive(Clone, Copy, Debug, PartialEq, Eq)]
pub enum Verdict {
    /// All numbers agree.
    Agrees,
    /// The first line, from 1, that can't follow those before it, or the number of lines and 1 where only the end is missing.
    BadForm(u64),
    /// The supply isn't the sum of all balances, the fees and the storage burn.
    Supply,
    /// The first line of a ticket, from 1, whose numbers aren't the sums of what is told of it, or where what is held isn't what was
    /// minted less what was burnt.
    Tickets(u64),
    /// A ticket that is told has no line.
    Missing,
}

// How many bytes a text may have: one less than a file.
const AUDIT_LIMIT: usize = FILE_LIMIT - 1;

// Takes the line of a piece, where it is one that can follow those before it.
fn take_piece(alloc: Global, tally: &mut Tally, piece: &[u8]) -> Result<bool, Memory>
    requires count { tally.old.count + 1 < 2 ^ 64 }
    requires tickets { tally.old.tickets ≤ tally.old.count }
    ensures { (before : List Line) → IsTally before tally.old → IfOk result (λ taken. IsPieceTaken before piece.now tally.new taken) }
{
    let Some(node) = read_alone(alloc, piece)? else {
        return Ok(false);
    };
    match line_of(alloc, &node)? {
        Some(line) => tally.take(alloc, &line),
        None => Ok(false),
    }
}

// The bytes that may be read, of which the last line may be cut off.
fn within_limit(bytes: &[u8]) -> &[u8]
    ensures { result.now ≡ take audit_limit bytes.now }
{
    if bytes.len() > AUDIT_LIMIT {
        &bytes[..AUDIT_LIMIT]
    } else {
        bytes
    }
}

// The place of the first line feed.
fn line_end(bytes: &[u8]) -> Option<usize>
    ensures { MatchOption result (HasNoFeed bytes.now) (IsFirstFeed bytes.now) }
{
    'bytes: for (i, c) in bytes.iter().enumerate() {
        if *c == b'\n' {
            return Some(i);
        }
    }
    None
}

// The verdict where a text ends behind a line, or within one.
fn end_verdict(tally: &Tally, rest: &[u8], longer: bool) -> Verdict
    requires { tally.now.count + 1 < 2 ^ 64 }
    ensures { (before : List Line) → IsTally before tally.now → HasNoFeed rest.now → IsEndVerdict before longer rest.now result }
{
    if longer {
        return Verdict::BadForm(tally.count + 1);
    }
    if rest.is_empty() {
        tally.verdict()
    } else {
        Verdict::BadForm(tally.count + 1)
    }
}

/// The verdict on the text that a run printed, from its numbers alone. The text is cut at its line feeds, and each line is one
/// statement without `;`: the groups, numbered from 1; the accounts, contracts and tickets, each ticket once; the fees, the storage
/// burn where contracts have a fourth argument, and the supply. A text of more than 1,073,741,823 bytes hasn't the form. Amounts
/// are added up without limit. Memory where there is no room for a line or for what is told of the tickets.
pub fn audit(alloc: Global, bytes: &[u8]) -> Result<Verdict, Memory>
    ensures { IfOk result (λ verdict. IsVerdict bytes.now (verdict_seen verdict)) }
{
    let mut tally = Tally::new(alloc);
    let mut rest = within_limit(bytes);
    'lines: while let Some(end) = line_end(rest) {
        let (piece, behind) = rest.split_at(end);
        if !take_piece(alloc, &mut tally, piece)? {
            return Ok(Verdict::BadForm(tally.count + 1));
        }
        rest = &behind[1..];
    }
    Ok(end_verdict(&tally, rest, bytes.len() > AUDIT_LIMIT))
}
