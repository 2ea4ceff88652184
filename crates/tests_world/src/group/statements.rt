// Statements of a file, by their texts.
ghost use Rattle.std.specs.Prelude.{IfOk};
ghost use Rattle.rules_files.specs.course.Ranges.{IsStatement};
ghost use Rattle.mich_scenario.specs.View.{said};

use mich_base::size_within;
use mich_scenario::{Statement, take_form};
use mich_text::read_statement;
use std::alloc::Global;
use std::test::Fail;

pub(crate) fn statement(alloc: Global, text: &str) -> Result<Statement, Fail>
    ensures { IfOk result (λ s. IsStatement (said s)) }
{
    let placed = read_statement(alloc, text.as_bytes(), 0)?.ok_or("no statement")?;
    let node = placed.node;
    if !size_within(&node, 10_000) {
        return Err(Fail::from("too large"));
    }
    match take_form(alloc, node) {
        Ok(statement) => Ok(statement),
        Err(_) => Err(Fail::from("no statement of a file")),
    }
}
