//! Laws of packing: each name in typed code is a primitive's, so that what has a packable type can be packed.
ghost use Rattle.laws_typing.specs.packing.Laws.{FittingIsPackable, LiteralIsPackable, TypedCodeHasCodes};

/// Each name in code that is typed is a primitive's (Octez "data encoding", the primitives).
pub fn typed_code_has_codes()
    ensures { TypedCodeHasCodes }
{}

/// A value that fits a packable type can be packed (Michelson reference, "PACK").
pub fn fitting_values_are_packable()
    ensures { FittingIsPackable }
{}

/// The value of a literal of a packable type, whose bodies are typed, can be packed.
pub fn literals_are_packable()
    ensures { LiteralIsPackable }
{}
