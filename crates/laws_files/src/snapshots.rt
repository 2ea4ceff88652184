//! Laws of snapshots.

ghost use Rattle.laws_files.specs.snapshots.Laws.{ValuesAreSpelt, StatesAreSpelt, OneSpelling, SpeltAreRead, ReadHaveSpelling, PartsAreTheSpelling, SavedAreLoaded, LoadedAreSound, StoredFit, SoundAreInOrder};

/// A value of a type that is read stands in the bytes as it is spelt.
pub fn values_are_spelt()
    ensures { ValuesAreSpelt }
{}

/// Bytes that are read as a state are its spelling.
pub fn states_are_spelt()
    ensures { StatesAreSpelt }
{}

/// No two lists of bytes are read as one state.
pub fn one_spelling()
    ensures { OneSpelling }
{}

/// A state that has a spelling is read from it, where it isn't too long for a snapshot.
pub fn spelt_are_read()
    ensures { SpeltAreRead }
{}

/// A state that is read has a spelling.
pub fn read_have_spelling()
    ensures { ReadHaveSpelling }
{}

/// The parts whose rules are tried are those of the spelling.
pub fn parts_are_the_spelling()
    ensures { PartsAreTheSpelling }
{}

/// A sound state that is saved is loaded again.
pub fn saved_are_loaded()
    ensures { SavedAreLoaded }
{}

/// A state that is loaded has a spelling, which is the bytes, and is sound.
pub fn loaded_are_sound()
    ensures { LoadedAreSound }
{}

/// A value that has a spelling and passes the test on stored values has its type.
pub fn stored_fit()
    ensures { StoredFit }
{}

/// Accounts, contracts and tickets of a sound state stand once, in their order.
pub fn sound_are_in_order()
    ensures { SoundAreInOrder }
{}
