// Laws of what big maps stand for.
ghost use Rattle.mich_bigmap.specs.Laws.{BigMapsStay, KeptBasesStand, ValuesStay, PlainValuesStand, TicketsLieInValues, KeptValuesStand, KeptAreReached};

/// A big map whose base was in the store is so, and stands for what it stood for, when bases were added.
#[tactic(auto, using(crate::proofs::Remaining::big_maps_stay))]
pub fn big_maps_stay()
    ensures { BigMapsStay }
{}

/// A base that was noted is kept, and stands for what it stood for.
pub fn kept_bases_stand()
    ensures { KeptBasesStand }
{}

/// A value whose bases were in the store stands for what it stood for when bases were added, and its bases are there.
pub fn values_stay()
    ensures { ValuesStay }
{}

/// A value without big maps stands in every store for what it is.
pub fn plain_values_stand()
    ensures { PlainValuesStand }
{}

/// Over a store that holds no tickets, the tickets of what a value stands for are those that lie in the value.
pub fn tickets_lie_in_values()
    ensures { TicketsLieInValues }
{}

/// A value whose bases were noted stands for what it stood for when the other bases are given up.
pub fn kept_values_stand()
    ensures { KeptValuesStand }
{}

/// The bases that are kept are those of the numbers that were noted, and those that such a one is over, directly or through others.
pub fn kept_are_reached()
    ensures { KeptAreReached }
{}
