//! Laws of snapshots and of the files that go on from them: what `replay` writes of two files, one behind the other, is what it writes of
//! the first one's groups, and then what `resume` writes for the snapshot of the first one and for the second.
ghost use Rattle.laws_commands.specs.resuming.Laws.{CoursesGoOn, OneEnd, SoundStatesGoOn, ResumingGoesOn};

/// A file goes on from the state that another one came to as it goes on behind that file.
pub fn courses_go_on()
    ensures { CoursesGoOn }
{}

/// A file comes to one end where it goes on from a course.
pub fn one_end()
    ensures { OneEnd }
{}

/// A file goes on from a sound state where it is given the snapshot of that state.
pub fn sound_states_go_on()
    ensures { SoundStatesGoOn }
{}

/// A file goes on from the snapshot of another one as it goes on behind that file.
pub fn resuming_goes_on()
    ensures { ResumingGoesOn }
{}
