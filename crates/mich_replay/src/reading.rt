// Files that are read whole.
ghost use Rattle.std.specs.Prelude.{◌≡◌, ◌⊎◌, ◌≤◌, ◌<◌, ◌-◌, length, Contains, IfOk, OnOk, OnErr, IsErrOf};
ghost use Rattle.std.specs.Io.KnownBytes.{IsAtEnd};
ghost use Rattle.rules_text.specs.nodes.Limits.{file_limit};
ghost use Rattle.rules_text.specs.streams.Causes.{HasCause};
ghost use Rattle.rules_text.specs.streams.Known.{SameFiles};
ghost use Rattle.mich_replay.specs.Fronts.{IsReadOf};
ghost use Rattle.mich_replay.specs.Taken.{HasTaken, read_limit};

use mich_base::FILE_LIMIT;
use mich_io::{Files, Stop, read, start};
use std::alloc::Global;

/// All bytes of a file, or where it has more than a file may have, some of them that are more already.
pub(crate) fn read_file<F: Files>(alloc: Global, files: &mut F, path: &str) -> Result<Vec<u8>, Stop>
    requires { Contains (F.lent files.old) path.now }
    ensures front { IfOk result (λ bytes. IsReadOf (F.content files.old path.now) bytes.items) }
    ensures end { IfOk result (λ bytes. length bytes.items ≤ file_limit → IsAtEnd (F.left files.new)) }
    ensures short { IfOk result (λ bytes. length bytes.items ≤ read_limit) }
    ensures taken { OnOk result (HasTaken (F.content files.old path.now) (F.left files.new)) }
    ensures given_up { OnErr result ((F.left files.new ≡ F.left files.old) ⊎ HasTaken (F.content files.old path.now) (F.left files.new)) }
    ensures same { SameFiles (F.lent files.old) (F.lent files.new) (F.content files.old) (F.content files.new) }
    ensures no_write { IsErrOf result Stop.Write → ⊥ }
    ensures cause { HasCause Stop.Read (F.faults files.old) (F.faults files.new) result }
{
    start(files, path)?;
    let mut bytes = Vec::new(alloc);
    let mut buf = [0u8; 65_536];
    'read: while bytes.len() <= FILE_LIMIT {
        let count = read(files, &mut buf)?;
        if count == 0 {
            return Ok(bytes);
        }
        if bytes.extend_from_slice(buf.split_at(count).0).is_err() {
            return Err(Stop::Memory);
        }
    }
    Ok(bytes)
}
