// Files that are read from their beginning.
ghost use Rattle.std.specs.Prelude.{◌≡◌, ◌<◌, ◌≤◌, ℕ, List, length, Contains, OnOk, OnErr};
ghost use Rattle.std.specs.declared.option.Option.{Option};
ghost use Rattle.std.specs.Io.{ReadsAtMost};
ghost use Rattle.std.specs.Io.KnownBytes.{ReadConsumes};
ghost use Rattle.rules_text.specs.streams.Causes.{HasCause};
ghost use Rattle.rules_text.specs.streams.Known.{SameFiles};

use thiserror::Error;

/// Why a call on files gave up. What is left of the file stays.
#[derive(Clone, Copy, Debug, PartialEq, Eq, Error)]
pub enum FilesFault {
    /// The file could not be started or read. The count of faults rose.
    #[error("the file could not be read")]
    Failed,
    /// There was no memory.
    #[error("out of memory")]
    Memory,
}

/// Files that are lent by their paths, and read one at a time.
pub trait Files {
    /// What the file at a path holds, where that is known.
    ghost content: { Self → List ℕ → Option (List ℕ) };

    /// What is left of the file that was started, where that is known.
    ghost left: { Self → Option (List ℕ) };

    /// The paths that may be started.
    ghost lent: { Self → List (List ℕ) };

    /// How many calls have failed, at most 2^64-1. It never falls.
    ghost faults: { Self → ℕ };

    /// Goes to the beginning of a file that is lent. After an `Err` what is left of the former file stays.
    fn start(&mut self, path: &str) -> Result<(), FilesFault>
        requires { Contains (lent self.old) path.now }
        ensures started { OnOk result (left self.new ≡ content self.old path.now) }
        ensures stays { OnErr result (left self.new ≡ left self.old) }
        ensures same { SameFiles (lent self.old) (lent self.new) (content self.old) (content self.new) }
        ensures cause { HasCause FilesFault.Failed (faults self.old) (faults self.new) result };

    /// Reads the next bytes, and says how many: none only at the end of the file, or where there is no room for any. An
    /// `Err` leaves what is left.
    fn read(&mut self, buf: &mut [u8]) -> Result<usize, FilesFault>
        ensures bound { ReadsAtMost result buf.new }
        ensures bytes { ReadConsumes (left self.old) (left self.new) result buf.new }
        ensures same { SameFiles (lent self.old) (lent self.new) (content self.old) (content self.new) }
        ensures cause { HasCause FilesFault.Failed (faults self.old) (faults self.new) result };
}
