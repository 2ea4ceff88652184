// A sink over one of std's writers.
ghost use Rattle.std.specs.Prelude.{◌≡◌, ◌<◌, ◌≤◌, ℕ, List, [], None, take, length, OnOk, OnErr, IfOk, IsErrOf};
ghost use Rattle.std.specs.Io.{WritesAtMost};
ghost use Rattle.std.specs.Io.KnownBytes.{Appends, Keeps};
ghost use Rattle.rules_text.specs.streams.Causes.{HasCause};
ghost use Rattle.rules_text.specs.streams.Held.{one_more};
ghost use Rattle.rules_text.specs.streams.Known.{AppendsFront};
ghost use Rattle.mich_io.specs.Handed.{WriteHands};

use crate::{Sink, SinkFault};
use std::io::{self, Write};

/// A sink that hands each piece to a writer, and flushes it.
#[derive(Drop)]
pub struct WriterSink<W: Write + Drop> {
    out: W,
    faults: u64,
}

impl<W: Write + Drop> WriterSink<W> {
    /// The sink, where no write has failed yet.
    pub fn over(out: W) -> Self
        ensures out { result.out ≡ out }
        ensures faults { result.faults ≡ 0 }
    {
        WriterSink { out, faults: 0 }
    }
}

// Hands a piece on, and flushes it. Where that fails, the piece may have been taken.
#[tactic(auto, using(crate::proofs::Fronts::nothing_written, crate::proofs::Fronts::piece_kept))]
fn put<W: Write>(out: &mut W, bytes: &[u8]) -> Result<usize, SinkFault>
    ensures bound { WritesAtMost result bytes.now }
    ensures some { IfOk result (λ n. n ≡ 0 → bytes.now ≡ []) }
    ensures ok { IfOk result (λ n. Appends (W.contents out.old) (W.contents out.new) (take n bytes.now)) }
    ensures front { OnErr result (AppendsFront (W.contents out.old) (W.contents out.new) bytes.now) }
    ensures memory { IsErrOf result SinkFault.Memory → Keeps (W.contents out.old) (W.contents out.new) }
{
    match out.write(bytes) {
        Ok(count) => {
            let flushed = out.flush().is_ok();
            if flushed && (count > 0 || bytes.is_empty()) {
                Ok(count)
            } else {
                Err(SinkFault::Failed)
            }
        }
        Err(e) if e.kind() == io::ErrorKind::OutOfMemory => Err(SinkFault::Memory),
        Err(_) => Err(SinkFault::Failed),
    }
}

impl<W: Write + Drop> Sink for WriterSink<W> {
    ghost written = { λ s. W.contents s.out };

    ghost handed = { λ _. None };

    ghost faults = { λ s. s.faults };

    fn write(&mut self, bytes: &[u8]) -> Result<usize, SinkFault>
        ensures taken { OnOk result (self.new.faults ≡ self.old.faults) }
        ensures counted { IsErrOf result SinkFault.Failed → self.new.faults ≡ one_more self.old.faults }
        ensures refused { IsErrOf result SinkFault.Memory → self.new.faults ≡ self.old.faults }
        ensures bound { WritesAtMost result bytes.now }
        ensures some { IfOk result (λ n. n ≡ 0 → bytes.now ≡ []) }
        ensures ok { IfOk result (λ n. Appends (W.contents self.old.out) (W.contents self.new.out) (take n bytes.now)) }
        ensures failed { OnErr result (AppendsFront (W.contents self.old.out) (W.contents self.new.out) bytes.now) }
        ensures memory { IsErrOf result SinkFault.Memory → Keeps (W.contents self.old.out) (W.contents self.new.out) }
        ensures handed { WriteHands None None result bytes.now }
        ensures cause { HasCause SinkFault.Failed self.old.faults self.new.faults result }
    {
        match put(&mut self.out, bytes) {
            Ok(count) => Ok(count),
            Err(SinkFault::Memory) => Err(SinkFault::Memory),
            Err(SinkFault::Failed) => {
                self.faults = self.faults.saturating_add(1);
                Err(SinkFault::Failed)
            }
        }
    }
}
