// The verdict on a printed run.
ghost use Rattle.std.specs.Prelude.{◌≡◌, ◌++◌, IfOk, codes, decimal};
ghost use Rattle.rules_files.specs.commands.Answers.{done_with};
ghost use Rattle.rules_files.specs.commands.Audits.{IsAuditAnswer, differing, verdict_answer};
ghost use Rattle.mich_audit.specs.View.{verdict_seen};
ghost use Rattle.mich_answers.specs.View.{answer_seen, IsDoneOrRefused};

use crate::answer::{Answer, done, refused};
use crate::lines::as_text;
use mich_audit::{Verdict, audit};
use mich_base::{Memory, Texts};
use std::alloc::Global;

fn agreeing(alloc: Global) -> Result<Answer, Memory>
    ensures { IfOk result (λ a. answer_seen a ≡ done_with (codes "Agrees\n")) }
{
    done(alloc, as_text(String::from_str(alloc, "Agrees\n")?)?)
}

// The answer where these numbers differ.
fn differing(alloc: Global, what: &str) -> Result<Answer, Memory>
    ensures { IfOk result (λ a. answer_seen a ≡ differing what.now) }
{
    let line = format!(in alloc; "Differs {what}\n")?;
    let mut lines = Texts::new(alloc);
    lines.push(as_text(line)?)?;
    Ok(Answer { status: 2, lines })
}

fn differing_tickets(alloc: Global, number: u64) -> Result<Answer, Memory>
    ensures { IfOk result (λ a. answer_seen a ≡ differing (codes "Tickets " ++ decimal number)) }
{
    let what = format!(in alloc; "Tickets {number}")?;
    differing(alloc, what.as_str())
}

fn verdict_answer(alloc: Global, verdict: Verdict) -> Result<Answer, Memory>
    ensures { IfOk result (λ a. answer_seen a ≡ verdict_answer (verdict_seen verdict)) }
{
    match verdict {
        Verdict::Agrees => agreeing(alloc),
        Verdict::BadForm(line) => refused(alloc, "BadForm", line),
        Verdict::Supply => differing(alloc, "Supply"),
        Verdict::Tickets(number) => differing_tickets(alloc, number),
        Verdict::Missing => differing(alloc, "Missing"),
    }
}

/// The answer of `audit` to the text of a run. Memory where there is no room for it.
pub fn answer_audit(alloc: Global, file: &[u8]) -> Result<Answer, Memory>
    ensures exact { IfOk result (λ a. IsAuditAnswer file.now (answer_seen a)) }
    ensures status { IfOk result (λ a. IsDoneOrRefused a.status) }
{
    let verdict = audit(alloc, file)?;
    verdict_answer(alloc, verdict)
}
