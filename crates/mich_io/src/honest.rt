// A file that is as it says, and a sink that takes all that it is given: no call of either fails.
ghost use Rattle.std.specs.Prelude.{◌≡◌, ◌<◌, ◌≤◌, ℕ, List, [], ◌∷◌, ◌++◌, drop, take, min, length, IsOk, OnOk, IfOk, OnErr, Contains, None, Some, IfErr, IsOkAnd, IsErrOf};
ghost use Rattle.std.specs.Io.{ReadsAtMost, WritesAtMost};
ghost use Rattle.std.specs.Io.KnownBytes.{Appends, Keeps, ReadConsumes};
ghost use Rattle.rules_text.specs.streams.Causes.{HasCause};
ghost use Rattle.rules_text.specs.streams.Known.{AppendsFront, SameFiles, content_at};
ghost use Rattle.mich_io.specs.Handed.{WriteHands};

use crate::{Files, FilesFault, Sink, SinkFault};
use mich_base::{Bytes, Text};
use std::alloc::Global;
use std::marker::Model;

// Copies as much of the front as there is room for.
pub(crate) fn copy_front(rest: &[u8], buf: &mut [u8]) -> usize
    ensures count { result ≡ min (length rest.now) (length buf.new) }
    ensures bytes { take result buf.new ≡ take result rest.now }
{
    let count = rest.len().min(buf.len());
    buf[..count].copy_from_slice(&rest[..count]);
    count
}

/// One file, which is lent. No call fails.
#[derive(Drop)]
pub struct HonestFiles {
    path: Text,
    content: Bytes,
    at: usize,
}

impl Model for HonestFiles {
    ghost use Rattle.std.specs.Prelude.{◌≤◌, drop, length};
    ghost use Rattle.rules_text.specs.streams.Held.{HeldFile};

    ghost Value = { HeldFile };

    ghost view = { λ s. record { path = s.path; content = s.content; left = drop s.at s.content } };

    ghost invariant = { λ s. s.at ≤ length s.content };
}

impl HonestFiles {
    /// The file at its beginning.
    pub fn new(path: Text, content: Bytes) -> Self
        ensures { result ≡ record { path = path; content = content; left = content } }
    {
        HonestFiles {
            path,
            content,
            at: 0,
        }
    }
}

impl Files for HonestFiles {
    ghost content = { λ s path. content_at s.path s.content path };

    ghost left = { λ s. Some s.left };

    ghost lent = { λ s. s.path ∷ [] };

    ghost faults = { λ _. 0 };

    fn start(&mut self, _path: &str) -> Result<(), FilesFault>
        requires { Contains (self.old.path ∷ []) _path.now }
        ensures exact { self.new ≡ record self.old { left = self.old.content } }
        ensures done { IsOk result }
        ensures started { OnOk result (Some self.new.left ≡ content_at self.old.path self.old.content _path.now) }
        ensures stays { OnErr result (Some self.new.left ≡ Some self.old.left) }
        ensures same { SameFiles (self.old.path ∷ []) (self.new.path ∷ []) (content_at self.old.path self.old.content) (content_at self.new.path self.new.content) }
        ensures cause { HasCause FilesFault.Failed 0 0 result }
    {
        self.at = 0;
        Ok(())
    }

    fn read(&mut self, buf: &mut [u8]) -> Result<usize, FilesFault>
        ensures exact { IsOkAnd result (λ n. (n ≡ min (length self.old.left) (length buf.new)) × (self.new ≡ record self.old { left = drop n self.old.left })) }
        ensures bound { ReadsAtMost result buf.new }
        ensures bytes { ReadConsumes (Some self.old.left) (Some self.new.left) result buf.new }
        ensures same { SameFiles (self.old.path ∷ []) (self.new.path ∷ []) (content_at self.old.path self.old.content) (content_at self.new.path self.new.content) }
        ensures cause { HasCause FilesFault.Failed 0 0 result }
    {
        let count = copy_front(&self.content.as_slice()[self.at..], buf);
        self.at += count;
        Ok(count)
    }
}

/// A sink that holds all that was written. It takes each piece whole, and no call fails.
#[derive(Drop)]
pub struct HonestSink {
    bytes: Vec<u8>,
}

impl Model for HonestSink {
    ghost use Rattle.std.specs.Prelude.{List, ℕ};

    ghost Value = { List ℕ };

    ghost view = { λ s. s.bytes.items };
}

impl HonestSink {
    /// A sink to which nothing was written.
    pub fn new(alloc: Global) -> Self
        ensures { result ≡ [] }
    {
        HonestSink {
            bytes: Vec::new(alloc),
        }
    }

    /// All that was written.
    pub fn as_slice(&self) -> &[u8]
        ensures { result.now ≡ self.now }
    {
        self.bytes.as_slice()
    }
}

impl Sink for HonestSink {
    ghost written = { λ s. Some s };

    ghost handed = { λ _. None };

    ghost faults = { λ _. 0 };

    fn write(&mut self, bytes: &[u8]) -> Result<usize, SinkFault>
        ensures exact { IfOk result (λ n. (n ≡ length bytes.now) × (self.new ≡ self.old ++ bytes.now)) }
        ensures fault { IfErr result (λ e. e ≡ SinkFault.Memory) }
        ensures stays { OnErr result (self.new ≡ self.old) }
        ensures bound { WritesAtMost result bytes.now }
        ensures some { IfOk result (λ n. n ≡ 0 → bytes.now ≡ []) }
        ensures ok { IfOk result (λ n. Appends (Some self.old) (Some self.new) (take n bytes.now)) }
        ensures front { OnErr result (AppendsFront (Some self.old) (Some self.new) bytes.now) }
        ensures memory { IsErrOf result SinkFault.Memory → Keeps (Some self.old) (Some self.new) }
        ensures handed { WriteHands None None result bytes.now }
        ensures cause { HasCause SinkFault.Failed 0 0 result }
    {
        match self.bytes.extend_from_slice(bytes) {
            Ok(()) => Ok(bytes.len()),
            Err(_) => Err(SinkFault::Memory),
        }
    }
}
