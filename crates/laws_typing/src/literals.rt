//! Laws of typing: where the bodies of lambdas in a literal stand, that PUSH takes what literals are, that these fit
//! their types, and that they have their form and hold no ticket before anything is tried of them.
ghost use Rattle.laws_typing.specs.literals.Laws.{BodiesAreWithin, BodiesStand, LiteralsFit, LiteralsHaveForm, LiteralsHoldNoTicket, PushedAsLiterals};

/// The bodies that are still to be tried of a literal stand at their locations (Octez "Micheline", locations).
pub fn bodies_stand_at_their_locations()
    ensures { BodiesStand }
{}

/// A body that is still to be tried has at most as many nodes as its literal.
pub fn bodies_are_within_their_literals()
    ensures { BodiesAreWithin }
{}

/// PUSH takes exactly the literals of its type whose bodies are typed (Michelson reference, "PUSH").
pub fn pushed_literals_are_literals()
    ensures { PushedAsLiterals }
{}

/// A literal whose bodies are typed and whose contracts are there has its type (Michelson reference, "Types").
pub fn literals_fit()
    ensures { LiteralsFit }
{}

/// A literal that is read has the form of its type, before its bodies and claims are tried (Michelson reference, "Types").
pub fn literals_have_form()
    ensures { LiteralsHaveForm }
{}

/// A literal that is read holds no ticket: there is no literal of a type of tickets (Octez "Tickets").
pub fn literals_hold_no_ticket()
    ensures { LiteralsHoldNoTicket }
{}
