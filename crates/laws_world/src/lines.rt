//! Laws of the lines of a world: what is told of tickets has one order and one text.
ghost use Rattle.laws_world.specs.lines.Laws.{OneTelling, TicketsAreTold};

/// The tickets that were ever minted are told once each, in their order, with what was minted of them (Octez "Tickets").
pub fn tickets_are_told()
    ensures { TicketsAreTold }
{}

/// There is one list in the order of tickets that tells positive amounts of each, where the contents are of comparable types.
pub fn one_telling()
    ensures { OneTelling }
{}
