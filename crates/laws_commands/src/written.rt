//! Laws of what runs print: it can be read.
ghost use Rattle.laws_commands.specs.written.Agreement.{RunsHaveForms, RunsAreRead, ReadRunsAgree, ShortRunsAgree};

/// All names, annotations, numbers, strings and bytes that are printed of a file that is applied to its end have the forms that a
/// text can give (Octez "Micheline").
pub fn runs_have_forms()
    ensures { RunsHaveForms }
{}

/// Each line that is printed of a file that is applied to its end is read as one statement without `;` exactly where its node is
/// within the limits of a statement.
pub fn runs_are_read()
    ensures { RunsAreRead }
{}

/// What is printed of a file that is applied to its end agrees with its own numbers, where each of its lines is read as one
/// statement without `;`.
pub fn read_runs_agree()
    ensures { ReadRunsAgree }
{}

/// What is printed of a file that is applied to its end agrees with its own numbers, where each of its nodes is within the limits of
/// a statement.
pub fn short_runs_agree()
    ensures { ShortRunsAgree }
{}
