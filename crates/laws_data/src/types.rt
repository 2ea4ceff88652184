//! Laws of reading types: what is read, and that a type is read again from the node that is written for it.
ghost use Rattle.laws_data.specs.types.Laws.{AreRead, WellFormed};

/// A well formed type within the limit is read, at each location, from the node that is written for it (Michelson reference, "Types").
pub fn types_are_read_again()
    ensures { AreRead }
{}

/// A type that is read has at most 2,000 nodes, and its arguments have the attributes that they must have
/// (Michelson reference, "Types").
pub fn read_types_are_well_formed()
    ensures { WellFormed }
{}
