// A sink that bytes are written to.
ghost use Rattle.std.specs.Prelude.{◌≡◌, ◌<◌, ◌≤◌, ℕ, List, [], ◌∷◌, take, length, IfOk, OnOk, OnErr, IsErrOf};
ghost use Rattle.std.specs.declared.option.Option.{Option};
ghost use Rattle.std.specs.Io.{WritesAtMost};
ghost use Rattle.std.specs.Io.KnownBytes.{Appends, Keeps};
ghost use Rattle.rules_text.specs.streams.Causes.{HasCause};
ghost use Rattle.rules_text.specs.streams.Known.{AppendsFront};
ghost use Rattle.mich_io.specs.Handed.{HandsAll, HandsFront, WriteHands};

use thiserror::Error;

/// Why a write gave up.
#[derive(Clone, Copy, Debug, PartialEq, Eq, Error)]
pub enum SinkFault {
    /// The bytes could not be written. The sink's count of faults rose.
    #[error("the bytes could not be written")]
    Failed,
    /// The sink found no memory. It took nothing.
    #[error("out of memory")]
    Memory,
}

/// Takes bytes, in pieces.
pub trait Sink {
    /// All that was written, where that is known.
    ghost written: { Self → Option (List ℕ) };

    /// The pieces that were handed over in writes that ended well, each as it was handed over, where those are known.
    ghost handed: { Self → Option (List (List ℕ)) };

    /// How many writes have failed, at most 2^64-1. It never falls.
    ghost faults: { Self → ℕ };

    /// Takes a front of the piece, and says how many bytes that is: none only where the piece is empty. After `Failed` a
    /// front of the piece, which may be empty, was taken.
    fn write(&mut self, bytes: &[u8]) -> Result<usize, SinkFault>
        ensures bound { WritesAtMost result bytes.now }
        ensures some { IfOk result (λ n. n ≡ 0 → bytes.now ≡ []) }
        ensures ok { IfOk result (λ n. Appends (written self.old) (written self.new) (take n bytes.now)) }
        ensures failed { OnErr result (AppendsFront (written self.old) (written self.new) bytes.now) }
        ensures memory { IsErrOf result SinkFault.Memory → Keeps (written self.old) (written self.new) }
        ensures handed { WriteHands (handed self.old) (handed self.new) result bytes.now }
        ensures cause { HasCause SinkFault.Failed (faults self.old) (faults self.new) result };
}

/// Writes the whole piece, in as many writes as it takes: each is handed all that is left of it. After an `Err`, which is the
/// sink's own, a front of the piece was taken. It takes no memory of its own.
pub fn write_all<K: Sink>(out: &mut K, bytes: &[u8]) -> Result<(), SinkFault>
    ensures ok { OnOk result (Appends (K.written out.old) (K.written out.new) bytes.now) }
    ensures err { OnErr result (AppendsFront (K.written out.old) (K.written out.new) bytes.now) }
    ensures whole { OnOk result (HandsAll (K.handed out.old) (K.handed out.new) (bytes.now ∷ [])) }
    ensures cut { OnErr result (HandsFront (K.handed out.old) (K.handed out.new) (bytes.now ∷ [])) }
    ensures cause { HasCause SinkFault.Failed (K.faults out.old) (K.faults out.new) result }
{
    let mut rest = bytes;
    'pieces: while !rest.is_empty() {
        let count = out.write(rest)?;
        (_, rest) = rest.split_at(count);
    }
    Ok(())
}
