// Files and a sink in memory, some of whose calls fail: those whose numbers are listed, counted from 0.
ghost use Rattle.std.specs.Prelude.{◌≡◌, ◌<◌, ◌≤◌, ◌+◌, ℕ, List, [], ◌++◌, drop, take, min, length, Some, None, IfOk, IfErr, OnErr, IsErrOf, is_ok, is_err, is_none, slice_get, IsTrue, ◌↔◌, OnOk, if◌then◌else◌};
ghost use Rattle.std.specs.Str.{bytes_eq};
ghost use Rattle.std.specs.Option.{option_map, option_copied};
ghost use Rattle.std.specs.Io.{ReadsAtMost, WritesAtMost};
ghost use Rattle.std.specs.Io.KnownBytes.{Appends, Keeps, ReadConsumes};
ghost use Rattle.rules_text.specs.streams.Causes.{HasCause};
ghost use Rattle.mich_io.specs.Handed.{WriteHands};
ghost use Rattle.rules_text.specs.streams.Known.{AppendsFront, SameFiles, content_in, held_at, known_from};
ghost use Rattle.rules_text.specs.streams.Held.{is_listed, one_more, start_fails, read_fails, call_failed, started, count_given, read_from, write_fails, write_failed, written_to};

use crate::honest::copy_front;
use crate::{Files, FilesFault, Sink, SinkFault};
use mich_base::{Bytes, Rows, Text, Texts};
use std::alloc::Global;
use std::marker::Model;

fn is_listed(fails: &[u64], number: u64) -> bool
    ensures { result ≡ is_listed fails.now number }
{
    fails.contains(&number)
}

// Counts a call, and says whether it fails.
fn fails_now(fails: &[u64], calls: &mut u64) -> bool
    ensures answer { result ≡ is_listed fails.now calls.old }
    ensures count { calls.new ≡ one_more calls.old }
{
    let number = *calls;
    *calls = number.saturating_add(1);
    is_listed(fails, number)
}

// The place of the first file of that path.
fn place_of(files: &[(Text, Bytes)], path: &str) -> Option<usize>
    ensures held { held_at files.now result ≡ content_in files.now path.now }
    ensures missing { is_none result ≡ is_none (content_in files.now path.now) }
{
    'files: for (place, file) in files.iter().enumerate() {
        if path.as_bytes() == file.0.as_slice() {
            return Some(place);
        }
    }
    None
}

// What the file at a place holds.
fn held_by(files: &[(Text, Bytes)], place: Option<usize>) -> Option<&[u8]>
    ensures { option_copied result ≡ held_at files.now place }
{
    match place {
        Some(place) => match files.get(place) {
            Some(file) => Some(file.1.as_slice()),
            None => None,
        },
        None => None,
    }
}

// Reads on from some place.
fn read_on(content: &[u8], at: &mut usize, buf: &mut [u8]) -> usize
    ensures count { result ≡ min (length (drop at.old content.now)) (length buf.new) }
    ensures bytes { drop at.old content.now ≡ take result buf.new ++ drop at.new content.now }
    ensures rest { drop at.new content.now ≡ drop result (drop at.old content.now) }
    ensures end { result ≡ 0 → 0 < length buf.new → drop at.new content.now ≡ [] }
{
    if *at >= content.len() {
        return 0;
    }
    let count = copy_front(&content[*at..], buf);
    *at += count;
    count
}

/// Files that are held in memory, of which some are lent. Their calls are counted from 0, and those whose numbers are
/// listed fail.
#[derive(Drop)]
pub struct MemFiles {
    lent: Texts,
    files: Rows<(Text, Bytes)>,
    fails: Rows<u64>,
    calls: u64,
    faults: u64,
    place: Option<usize>,
    at: usize,
}

impl Model for MemFiles {
    ghost use Rattle.rules_text.specs.streams.Held.{HeldFiles};
    ghost use Rattle.rules_text.specs.streams.Known.{held_at, known_from};

    ghost Value = { HeldFiles };

    ghost view = { λ s. record { lent = s.lent; files = s.files; fails = s.fails; calls = s.calls; faults = s.faults; left = known_from s.at (held_at s.files s.place) } };
}

impl MemFiles {
    /// Files of which none was started.
    pub fn new(lent: Texts, files: Rows<(Text, Bytes)>, fails: Rows<u64>) -> Self
        ensures { result ≡ record { lent = lent; files = files; fails = fails; calls = 0; faults = 0; left = None } }
    {
        MemFiles {
            lent,
            files,
            fails,
            calls: 0,
            faults: 0,
            place: None,
            at: 0,
        }
    }
}

impl Files for MemFiles {
    ghost content = { λ s path. content_in s.files path };

    ghost left = { λ s. s.left };

    ghost lent = { λ s. s.lent };

    ghost faults = { λ s. s.faults };

    fn start(&mut self, path: &str) -> Result<(), FilesFault>
        ensures fails { is_err result ≡ start_fails self.old path.now }
        ensures fault { IfErr result (λ e. e ≡ FilesFault.Failed) }
        ensures exact { self.new ≡ (if is_err result then call_failed self.old else started self.old path.now) }
        ensures started { OnOk result (self.new.left ≡ content_in self.old.files path.now) }
        ensures stays { OnErr result (self.new.left ≡ self.old.left) }
        ensures same { SameFiles self.old.lent self.new.lent (content_in self.old.files) (content_in self.new.files) }
        ensures cause { HasCause FilesFault.Failed self.old.faults self.new.faults result }
    {
        let failed = fails_now(self.fails.as_slice(), &mut self.calls);
        let place = place_of(self.files.as_slice(), path);
        if failed || place.is_none() {
            self.faults = self.faults.saturating_add(1);
            return Err(FilesFault::Failed);
        }
        self.place = place;
        self.at = 0;
        Ok(())
    }

    fn read(&mut self, buf: &mut [u8]) -> Result<usize, FilesFault>
        ensures fails { is_err result ≡ read_fails self.old }
        ensures fault { IfErr result (λ e. e ≡ FilesFault.Failed) }
        ensures count { IfOk result (λ n. n ≡ count_given self.old (length buf.new)) }
        ensures exact { IfOk result (λ n. self.new ≡ read_from self.old n) }
        ensures failed { OnErr result (self.new ≡ call_failed self.old) }
        ensures bound { ReadsAtMost result buf.new }
        ensures bytes { ReadConsumes self.old.left self.new.left result buf.new }
        ensures same { SameFiles self.old.lent self.new.lent (content_in self.old.files) (content_in self.new.files) }
        ensures cause { HasCause FilesFault.Failed self.old.faults self.new.faults result }
    {
        if fails_now(self.fails.as_slice(), &mut self.calls) {
            self.faults = self.faults.saturating_add(1);
            return Err(FilesFault::Failed);
        }
        match held_by(self.files.as_slice(), self.place) {
            Some(content) => Ok(read_on(content, &mut self.at, buf)),
            None => Ok(0),
        }
    }
}

/// A sink that holds all that was written. Its calls are counted from 0, and those whose numbers are listed fail and
/// take nothing.
#[derive(Drop)]
pub struct MemSink {
    bytes: Vec<u8>,
    fails: Rows<u64>,
    calls: u64,
    faults: u64,
}

impl Model for MemSink {
    ghost use Rattle.rules_text.specs.streams.Held.{HeldSink};

    ghost Value = { HeldSink };

    ghost view = { λ s. record { bytes = s.bytes.items; fails = s.fails; calls = s.calls; faults = s.faults } };
}

impl MemSink {
    /// A sink to which nothing was written.
    pub fn new(alloc: Global, fails: Rows<u64>) -> Self
        ensures { result ≡ record { bytes = []; fails = fails; calls = 0; faults = 0 } }
    {
        MemSink {
            bytes: Vec::new(alloc),
            fails,
            calls: 0,
            faults: 0,
        }
    }

    /// All that was written.
    pub fn as_slice(&self) -> &[u8]
        ensures { result.now ≡ self.now.bytes }
    {
        self.bytes.as_slice()
    }
}

impl Sink for MemSink {
    ghost written = { λ s. Some s.bytes };

    ghost handed = { λ _. None };

    ghost faults = { λ s. s.faults };

    fn write(&mut self, bytes: &[u8]) -> Result<usize, SinkFault>
        ensures exact { IfOk result (λ n. (n ≡ length bytes.now) × (self.new ≡ written_to self.old bytes.now)) }
        ensures fails { IsErrOf result SinkFault.Failed ↔ IsTrue (write_fails self.old) }
        ensures failed { IsErrOf result SinkFault.Failed → self.new ≡ write_failed self.old }
        ensures refused { IsErrOf result SinkFault.Memory → self.new ≡ self.old }
        ensures bound { WritesAtMost result bytes.now }
        ensures some { IfOk result (λ n. n ≡ 0 → bytes.now ≡ []) }
        ensures ok { IfOk result (λ n. Appends (Some self.old.bytes) (Some self.new.bytes) (take n bytes.now)) }
        ensures front { OnErr result (AppendsFront (Some self.old.bytes) (Some self.new.bytes) bytes.now) }
        ensures memory { IsErrOf result SinkFault.Memory → Keeps (Some self.old.bytes) (Some self.new.bytes) }
        ensures handed { WriteHands None None result bytes.now }
        ensures cause { HasCause SinkFault.Failed self.old.faults self.new.faults result }
    {
        if is_listed(self.fails.as_slice(), self.calls) {
            self.calls = self.calls.saturating_add(1);
            self.faults = self.faults.saturating_add(1);
            return Err(SinkFault::Failed);
        }
        match self.bytes.extend_from_slice(bytes) {
            Ok(()) => {
                self.calls = self.calls.saturating_add(1);
                Ok(bytes.len())
            }
            Err(_) => Err(SinkFault::Memory),
        }
    }
}
