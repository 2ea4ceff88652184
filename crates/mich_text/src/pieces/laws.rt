//! Laws of texts whose end isn't known yet.
ghost use Rattle.std.specs.Prelude.{◌<◌, ◌≤◌, ℕ, List, length, Bool, Option, Result};
ghost use Rattle.rules_text.specs.nodes.Limits.{file_limit};
ghost use Rattle.rules_text.specs.text.Text.{IsLimit, IsEnd};
ghost use Rattle.mich_text.specs.declared.reader.Placed.{Placed};
ghost use Rattle.mich_text.specs.declared.fault.TextError.{TextError};
ghost use Rattle.mich_text.specs.pieces.Fronts.{ClosesStatements, GainsNoStatement, KeepsCounted, KeepsFaults, KeepsStatements};
ghost use Rattle.mich_text.specs.pieces.Held.{Held};
ghost use Rattle.mich_text.specs.pieces.Reading.{AnswersAsFile, IsStillText};
ghost use Rattle.mich_text.specs.declared.pieces.reader.Next.{Next};

/// What the front of a text decides, whatever follows it.
pub fn a_front_decides()
    // a statement whose `;` it has
    ensures statements { (before : ℕ) (front more : List ℕ) → KeepsStatements before front more }
    // and it has each statement whose `;` lies in it
    ensures within { (before : ℕ) (front more : List ℕ) → GainsNoStatement before front more }
    // a fault that counts
    ensures counted { (before : ℕ) (front more : List ℕ) → KeepsCounted before front more }
    // where it has a byte past a limit, its fault
    ensures faults { (before : ℕ) (front more : List ℕ) (limit : ℕ) → IsLimit before front limit → KeepsFaults before front more }
    // and there it has a fault, or a statement with its `;`
    ensures signs { (before : ℕ) (front : List ℕ) (limit : ℕ) → IsLimit before front limit → ClosesStatements before front }
    ensures ends { (before : ℕ) (front : List ℕ) (limit : ℕ) → IsLimit before front limit → IsEnd before front → ⊥ }
{}

/// What stands in a file at a place doesn't depend on bytes behind the first one past a file's limit: it may be cut there.
pub fn a_file_is_decided_by_its_front()
    ensures { (bytes more : List ℕ) (place : ℕ) (r : Result (Option Placed) TextError) → place ≤ file_limit → file_limit < length bytes → IsStillText bytes more place r }
{}

/// What is read of pieces is what stands in the file, whatever the pieces were: these bytes were taken, then come those that the
/// reader keeps, and then those that will be fed, of which there are none where it was said that the input ends.
pub fn pieces_are_read_as_the_file()
    ensures { (before more : List ℕ) (r s : Held) (last : Bool) (answer : Result Next TextError) → AnswersAsFile before more r s last answer }
{}
