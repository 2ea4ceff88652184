// The statements of a file.
ghost use Rattle.std.specs.Prelude.{◌≤◌, ℕ, List, length, IfOk};
ghost use Rattle.mich_answers.specs.Listed.{Fits, IsAt, IsListed, IsNext, Passed};

use mich_base::Memory;
use mich_text::{Placed, TextError, read_statement};
use rules_text::text::TextKind;
use std::alloc::Global;

/// What stands in a file from a place on.
#[derive(Debug, Drop)]
pub enum Next {
    /// White space and comments alone.
    End,
    Statement(Placed),
    /// The first fault of the text, and its place.
    Fault(TextKind, u64),
}

/// What stands in a file from a place on.
#[tactic(auto, using(crate::proofs::Shorter::further))]
pub fn read_next(alloc: Global, file: &[u8], place: u64) -> Result<Next, Memory>
    requires { place ≤ length file.now }
    ensures { IfOk result (λ next. IsNext file.now place next) }
{
    match read_statement(alloc, file, place) {
        Ok(None) => Ok(Next::End),
        Ok(Some(placed)) => Ok(Next::Statement(placed)),
        Err(TextError::Fault(kind, at)) => Ok(Next::Fault(kind, at)),
        Err(TextError::Memory) => Err(Memory),
    }
}

/// The first statement of a file, the place of the second, and the first fault of the text.
#[derive(Drop)]
pub struct Listed {
    pub first: Option<Placed>,
    pub second: Option<u64>,
    pub fault: Option<(TextKind, u64)>,
}

// Keeps a statement where it is the first, and its place where it is the second.
#[tactic(auto, using(crate::proofs::Listing::passed_first, crate::proofs::Listing::passed_second, crate::proofs::Listing::passed_more))]
fn keep(first: &mut Option<Placed>, second: &mut Option<u64>, placed: Placed)
    ensures { (file : List ℕ) (place : ℕ) → IsAt file place placed → Fits place placed
        → Passed file place first.old second.old → Passed file placed.end first.new second.new }
{
    match first {
        None => *first = Some(placed),
        Some(_) => match second {
            None => *second = Some(placed.start),
            Some(_) => {}
        },
    }
}

/// What a file lists, which is read to its end or to its first fault.
pub(crate) fn list_file(alloc: Global, file: &[u8]) -> Result<Listed, Memory>
    ensures { IfOk result (λ listed. IsListed file.now listed) }
{
    let mut first = None;
    let mut second = None;
    let mut place = 0u64;
    'statements: loop {
        match read_next(alloc, file, place)? {
            Next::Statement(placed) => {
                place = placed.end;
                keep(&mut first, &mut second, placed);
            }
            Next::End => {
                return Ok(Listed {
                    first,
                    second,
                    fault: None,
                });
            }
            Next::Fault(kind, at) => {
                return Ok(Listed {
                    first,
                    second,
                    fault: Some((kind, at)),
                });
            }
        }
    }
}
