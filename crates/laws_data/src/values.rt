//! Laws of literals: a value is read again from its canonical literal.
ghost use Rattle.laws_data.specs.values.Laws.{ReadAgain};

/// A value that has the form of a type, and holds no ticket and no operation, is read again from its canonical literal
/// (Michelson reference, "PACK" and "UNPACK").
pub fn values_are_read_again()
    ensures { ReadAgain }
{}
