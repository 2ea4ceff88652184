// What is told of all tickets.
ghost use Rattle.std.specs.Prelude.{◌≡◌, List};
ghost use Rattle.std.specs.List.{list_all};
ghost use Rattle.rules_audit.specs.Fields as fields;
ghost use Rattle.rules_audit.specs.Lines.{Line};
ghost use Rattle.rules_audit.specs.Verdicts.{has_line};
ghost use Rattle.mich_audit.specs.Answers.{AddsLine, AddsPart, AddsParts};
ghost use Rattle.mich_audit.specs.Tallies.{AreFound, AreKept, found};

use crate::key::key_of;
use crate::part::{Identity, Part};
use crate::sums::Sums;
use mich_base::{Memory, Text};
use std::alloc::Global;
use std::collections::BTreeMap;

/// What is told of each ticket, by its key.
pub(crate) type Book = BTreeMap<Text, Sums>;

/// Adds a part. Memory where there is no room for it.
pub(crate) fn add_part(alloc: Global, book: &mut Book, part: &Part<'_>) -> Result<(), Memory>
    ensures { AddsPart part.now book.old.entries book.new.entries result }
{
    let key = key_of(alloc, &part.identity)?;
    let sums = sums_at(book, &key).with(part.sort, part.amount);
    book.insert(key, sums)?;
    Ok(())
}

/// Adds all parts. Memory where there is no room for them.
pub(crate) fn add_parts(alloc: Global, book: &mut Book, parts: &[Part<'_>]) -> Result<(), Memory>
    ensures { AddsParts parts.now book.old.entries book.new.entries result }
{
    'parts: for part in parts {
        add_part(alloc, book, part)?;
    }
    Ok(())
}

// What is told of the ticket of a key.
fn sums_at(book: &Book, key: &Text) -> Sums
    ensures { AreFound (found key.now book.now.entries) result }
{
    match book.get(key) {
        Some(sums) => *sums,
        None => Sums::none(),
    }
}

/// Notes that a ticket has a line, and gives what is told of it, or none where it has a line already. Memory where there is no room
/// for it.
pub(crate) fn take_line(
    alloc: Global,
    book: &mut Book,
    id: &Identity<'_>,
) -> Result<Option<Sums>, Memory>
    ensures { AddsLine id.now book.old.entries book.new.entries result }
{
    let key = key_of(alloc, id)?;
    let sums = sums_at(book, &key);
    if sums.has_line {
        return Ok(None);
    }
    let lined = Sums {
        has_line: true,
        ..sums
    };
    book.insert(key, lined)?;
    Ok(Some(sums))
}

/// Whether each ticket has a line.
pub(crate) fn all_lined(book: &Book) -> bool
    ensures { (ps : List fields.Part) (ls : List Line) → AreKept ps ls book.now.entries → result ≡ list_all (has_line ls) ps }
{
    'tickets: for (_key, sums) in book {
        if !sums.has_line {
            return false;
        }
    }
    true
}
