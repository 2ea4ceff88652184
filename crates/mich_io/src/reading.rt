// Files that are read in pieces by a command, which is given up where they fail.
ghost use Rattle.std.specs.Prelude.{◌≡◌, Contains, OnOk, OnErr, IsErrOf};
ghost use Rattle.std.specs.Io.{ReadsAtMost};
ghost use Rattle.std.specs.Io.KnownBytes.{ReadConsumes};
ghost use Rattle.rules_text.specs.streams.Causes.{HasCause};
ghost use Rattle.rules_text.specs.streams.Known.{SameFiles};

use crate::files::{Files, FilesFault};
use crate::stop::Stop;

/// Goes to the beginning of a file.
pub fn start<F: Files>(files: &mut F, path: &str) -> Result<(), Stop>
    requires { Contains (F.lent files.old) path.now }
    ensures started { OnOk result (F.left files.new ≡ F.content files.old path.now) }
    ensures stays { OnErr result (F.left files.new ≡ F.left files.old) }
    ensures same { SameFiles (F.lent files.old) (F.lent files.new) (F.content files.old) (F.content files.new) }
    ensures no_write { IsErrOf result Stop.Write → ⊥ }
    ensures cause { HasCause Stop.Read (F.faults files.old) (F.faults files.new) result }
{
    match files.start(path) {
        Ok(()) => Ok(()),
        Err(FilesFault::Failed) => Err(Stop::Read),
        Err(FilesFault::Memory) => Err(Stop::Memory),
    }
}

/// Reads the next bytes, and says how many: none only at the end of the file, or where there is no room for any.
pub fn read<F: Files>(files: &mut F, buf: &mut [u8]) -> Result<usize, Stop>
    ensures bound { ReadsAtMost result buf.new }
    ensures bytes { ReadConsumes (F.left files.old) (F.left files.new) result buf.new }
    ensures same { SameFiles (F.lent files.old) (F.lent files.new) (F.content files.old) (F.content files.new) }
    ensures no_write { IsErrOf result Stop.Write → ⊥ }
    ensures cause { HasCause Stop.Read (F.faults files.old) (F.faults files.new) result }
{
    match files.read(buf) {
        Ok(count) => Ok(count),
        Err(FilesFault::Failed) => Err(Stop::Read),
        Err(FilesFault::Memory) => Err(Stop::Memory),
    }
}
