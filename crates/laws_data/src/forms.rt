//! Laws of byte forms: how long a place is, and that a place alone is an address.
ghost use Rattle.laws_data.specs.forms.Laws.{PlacesAreAddresses, PlacesHaveTheirLength};

/// Each place is 22 bytes long (Octez documentation, "Data encoding", contract id).
pub fn places_have_22_bytes()
    ensures { PlacesHaveTheirLength }
{}

/// Each place is the address of its default entrypoint (Michelson reference, address).
pub fn places_are_addresses()
    ensures { PlacesAreAddresses }
{}
