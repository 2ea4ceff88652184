// A sink in memory that keeps its pieces apart.
ghost use Rattle.std.specs.Prelude.{◌≡◌, ◌≤◌, ℕ, List, [], ◌∷◌, ◌++◌, take, length, IfOk, OnErr, Some, IfErr, IsErrOf};
ghost use Rattle.std.specs.Io.{WritesAtMost};
ghost use Rattle.std.specs.Io.KnownBytes.{Appends, Keeps};
ghost use Rattle.rules_text.specs.streams.Causes.{HasCause};
ghost use Rattle.rules_text.specs.streams.Known.{AppendsFront};
ghost use Rattle.mich_io.specs.Handed.{WriteHands, pieces_text};

use crate::{Sink, SinkFault};
use mich_base::{Bytes, Memory, Rows};
use std::alloc::Global;
use std::marker::Model;

/// A sink that holds the pieces that it was handed. It takes each whole, and no call fails.
#[derive(Drop)]
pub struct PieceSink {
    alloc: Global,
    pieces: Rows<Bytes>,
}

impl Model for PieceSink {
    ghost use Rattle.std.specs.Prelude.{List, ℕ};

    ghost Value = { List (List ℕ) };

    ghost view = { λ s. s.pieces };
}

impl PieceSink {
    /// A sink that was handed nothing.
    pub fn new(alloc: Global) -> Self
        ensures { result ≡ [] }
    {
        PieceSink {
            alloc,
            pieces: Rows::new(alloc),
        }
    }

    /// The pieces, in the order in which they were handed over.
    pub fn pieces(&self) -> &[Bytes]
        ensures { result.now ≡ self.now }
    {
        self.pieces.as_slice()
    }

    // Holds a piece more.
    fn hold(&mut self, piece: &[u8]) -> Result<(), Memory>
        ensures held { IfOk result (λ _. self.new ≡ self.old ++ piece.now ∷ []) }
        ensures stays { OnErr result (self.new ≡ self.old) }
    {
        let piece = Bytes::from_slice(self.alloc, piece)?;
        self.pieces.push(piece)
    }
}

impl Sink for PieceSink {
    ghost written = { λ s. Some (pieces_text s) };

    ghost handed = { λ s. Some s };

    ghost faults = { λ _. 0 };

    #[tactic(auto, using(crate::proofs::Handed::text_grows, crate::proofs::Handed::text_stays, crate::proofs::Handed::text_kept, crate::proofs::Handed::none_handed))]
    fn write(&mut self, bytes: &[u8]) -> Result<usize, SinkFault>
        ensures exact { IfOk result (λ n. (n ≡ length bytes.now) × (self.new ≡ self.old ++ bytes.now ∷ [])) }
        ensures fault { IfErr result (λ e. e ≡ SinkFault.Memory) }
        ensures stays { OnErr result (self.new ≡ self.old) }
        ensures bound { WritesAtMost result bytes.now }
        ensures some { IfOk result (λ n. n ≡ 0 → bytes.now ≡ []) }
        ensures ok { IfOk result (λ n. Appends (Some (pieces_text self.old)) (Some (pieces_text self.new)) (take n bytes.now)) }
        ensures failed { OnErr result (AppendsFront (Some (pieces_text self.old)) (Some (pieces_text self.new)) bytes.now) }
        ensures memory { IsErrOf result SinkFault.Memory → Keeps (Some (pieces_text self.old)) (Some (pieces_text self.new)) }
        ensures handed { WriteHands (Some self.old) (Some self.new) result bytes.now }
        ensures cause { HasCause SinkFault.Failed 0 0 result }
    {
        match self.hold(bytes) {
            Ok(()) => Ok(bytes.len()),
            Err(_) => Err(SinkFault::Memory),
        }
    }
}
