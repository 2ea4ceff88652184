// Pieces of a file that are read and fed to a replay.
ghost use Rattle.std.specs.Prelude.{◌≤◌, ℕ, List, false, IsErrOf, IfOk, Option};
ghost use Rattle.std.specs.Io.KnownBytes.{Consumes};
ghost use Rattle.rules_files.specs.course.Course.{Course as PlainCourse};
ghost use Rattle.rules_text.specs.streams.Causes.{HasCause};
ghost use Rattle.rules_text.specs.streams.Known.{SameFiles};
ghost use Rattle.rules_world.specs.world.Receipts.{Receipt};
ghost use Rattle.mich_replay.specs.Coming.{CameTo, Feeds};
ghost use Rattle.mich_replay.specs.Pace.{piece_limit};

use crate::session::Session;
use mich_io::{Files, Stop, read};

/// Reads the next piece of a file and feeds it, and says how many bytes it has: none only at the end of the file.
pub(crate) fn feed_piece<F: Files>(session: &mut Session, files: &mut F) -> Result<usize, Stop>
    requires { (from : Option PlainCourse) × (fed : List ℕ) × (receipts : List Receipt) × CameTo from fed false session.old receipts }
    ensures feeds { (content : Option (List ℕ)) (fed : List ℕ) → Consumes content (F.left files.old) fed
        → Feeds content (F.left files.new) fed session.old session.new result }
    ensures short { IfOk result (λ count. count ≤ piece_limit) }
    ensures same { SameFiles (F.lent files.old) (F.lent files.new) (F.content files.old) (F.content files.new) }
    ensures no_write { IsErrOf result Stop.Write → ⊥ }
    ensures cause { HasCause Stop.Read (F.faults files.old) (F.faults files.new) result }
{
    let mut buf = [0u8; 65_536];
    let count = read(files, &mut buf)?;
    session.feed(buf.split_at(count).0)?;
    Ok(count)
}
