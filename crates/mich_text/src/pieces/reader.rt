//! A reader of a text that comes in pieces.
ghost use Rattle.std.specs.Prelude.{◌≡◌, ◌+◌, ◌-◌, ◌≤◌, ◌<◌, ◌^◌, ◌⊎◌, ◌++◌, ℕ, List, length, drop, true, false, None, Some, Ok, Err, MatchBool, MatchResult};
ghost use Rattle.rules_text.specs.nodes.Limits.{file_limit};
ghost use Rattle.rules_text.specs.declared.text.TextKind.{TextKind};
ghost use Rattle.mich_text.specs.Parts.{IsPart};
ghost use Rattle.mich_text.specs.pieces.Held.{fresh, fed};
ghost use Rattle.mich_text.specs.pieces.Reading.{size, NeedsMore, HasFault, asked, taken, failed, IsNext};
ghost use Rattle.mich_text.specs.pieces.Scans.{since_first, IsScanned};
ghost use Rattle.mich_text.specs.pieces.Sound.{NeverClosed, IsTried, IsFound, IsPast, IsShort, IsDecided};

use crate::pieces::scan::Scan;
use crate::{Placed, TextError, TextKind, read_part};
use mich_base::{FILE_LIMIT, Memory, STATEMENT_LIMIT};
use std::alloc::Global;
use std::marker::Model;

/// What a reader answers.
#[derive(Debug, Drop)]
pub enum Next {
    /// A statement.
    Placed(Placed),
    /// There is none before more is fed.
    More,
    /// Nothing but white space and comments is left.
    End,
}

/// A reader of a file that comes in pieces. It keeps the bytes that were fed and not yet taken.
#[derive(Drop)]
pub struct Reader {
    alloc: Global,
    // The first of these bytes were taken.
    buffer: Vec<u8>,
    taken: usize,
    place: u64,
    // What was seen of the others.
    scan: Scan,
    // Whether a `;` was seen that ends no statement.
    hopeless: bool,
    ended: bool,
    fault: Option<(TextKind, u64)>,
}

impl Model for Reader {
    ghost use Rattle.std.specs.Prelude.{◌≤◌, length};
    ghost use Rattle.rules_text.specs.nodes.Limits.{file_limit};
    ghost use Rattle.mich_text.specs.pieces.Held.{Held, kept};
    ghost use Rattle.mich_text.specs.pieces.Sound.{IsSound};

    ghost Value = { Held };

    ghost view = { λ r. kept r.place r.taken r.buffer.items r.ended r.fault };

    ghost invariant = { λ r. (r.taken ≤ length r.buffer.items) × IsSound (kept r.place r.taken r.buffer.items r.ended r.fault) r.scan r.hopeless };
}

// Drops the first bytes of a buffer.
fn drop_first(buffer: &mut Vec<u8>, n: usize)
    requires { n ≤ length buffer.old.items }
    ensures { buffer.new.items ≡ drop n buffer.old.items }
{
    let rest = buffer.len() - n;
    buffer.copy_within(n.., 0);
    buffer.truncate(rest);
}

// The statement at the front of the bytes, if its `;` is the one that was found. It is read without what follows.
fn closed_in(
    alloc: Global,
    held: &[u8],
    place: u64,
    scan: Scan,
    hopeless: bool,
) -> Result<Option<Placed>, Memory>
    requires place { place ≤ file_limit }
    requires scanned { IsScanned held.now scan }
    requires done { scan.found ≡ false → scan.seen ≡ length held.now }
    requires hopeless { hopeless ≡ true → NeverClosed place held.now }
    ensures { IsTried place held.now scan.found result }
{
    if hopeless || !scan.found {
        return Ok(None);
    }
    match read_part(alloc, &held[..scan.seen], place) {
        Ok(Some(placed)) => Ok(Some(placed)),
        Ok(None) => Ok(None),
        Err(TextError::Memory) => Err(Memory),
        Err(TextError::Fault(_, _)) => Ok(None),
    }
}

// Whether a `;` was found that ends no statement.
fn is_hopeless(closed: &Option<Placed>, found: bool) -> bool
    ensures { (place : ℕ) (held : List ℕ) → IsTried place held found (Ok closed.now) → result ≡ true → NeverClosed place held }
{
    match closed {
        None => found,
        Some(_) => false,
    }
}

// How many bytes of the statement there are.
fn statement_size(held: &[u8], scan: Scan) -> usize
    requires { IsScanned held.now scan }
    ensures { result ≡ since_first scan (drop scan.seen held.now) }
{
    if scan.since == 0 {
        0
    } else {
        scan.since + (held.len() - scan.seen)
    }
}

// Whether the statement or the file is longer than it may be.
fn is_past(held: &[u8], place: u64, scan: Scan) -> bool
    requires place { place ≤ file_limit }
    requires scanned { IsScanned held.now scan }
    requires done { scan.found ≡ false → scan.seen ≡ length held.now }
    ensures { MatchBool result (IsPast place held.now) (IsShort place held.now) }
{
    if statement_size(held, scan) > STATEMENT_LIMIT {
        return true;
    }
    place + held.len() as u64 > FILE_LIMIT as u64
}

impl Reader {
    /// A reader that was fed nothing. It takes no memory, and keeps the allocator.
    pub fn new(alloc: Global) -> Reader
        ensures { result ≡ fresh }
    {
        Reader {
            alloc,
            buffer: Vec::new(alloc),
            taken: 0,
            place: 0,
            scan: Scan::new(),
            hopeless: false,
            ended: false,
            fault: None,
        }
    }

    // Drops the bytes that were taken, where they are no fewer than the others.
    fn compact(&mut self)
        ensures { self.new ≡ self.old }
    {
        if self.taken >= self.buffer.len() - self.taken {
            drop_first(&mut self.buffer, self.taken);
            self.taken = 0;
        }
    }

    /// Feeds a piece, before it was said that the input ends. After Memory the reader is as it was.
    pub fn feed(&mut self, bytes: &[u8]) -> Result<(), Memory>
        requires { self.old.ended ≡ false }
        ensures fed { MatchResult result (λ _. self.new ≡ fed self.old bytes.now) (λ _. self.new ≡ self.old) }
        ensures going { self.new.ended ≡ false }
    {
        self.compact();
        self.buffer.extend_from_slice(bytes)?;
        Ok(())
    }

    // The statement that has its `;`, if one has.
    fn closed(&mut self) -> Result<Option<Placed>, Memory>
        ensures same { self.new ≡ self.old }
        ensures found { IsFound self.old result }
        ensures place { self.old.place ≤ file_limit }
    {
        let held = &self.buffer.as_slice()[self.taken..];
        let scan = self.scan.look(held);
        let closed = closed_in(self.alloc, held, self.place, scan, self.hopeless)?;
        self.hopeless = is_hopeless(&closed, scan.found);
        self.scan = scan;
        Ok(closed)
    }

    // Whether the statement or the file is longer than it may be, where no statement has its `;`.
    fn is_past(&self) -> bool
        ensures { MatchBool result (IsPast self.now.place self.now.bytes) (IsShort self.now.place self.now.bytes) }
    {
        let held = &self.buffer.as_slice()[self.taken..];
        let scan = self.scan.look(held);
        is_past(held, self.place, scan)
    }

    // What the rest of the file is, where it ends here.
    fn read(&self) -> Result<Option<Placed>, TextError>
        ensures part { IsPart self.now.place self.now.bytes result }
        ensures place { self.now.place ≤ file_limit }
    {
        read_part(
            self.alloc,
            &self.buffer.as_slice()[self.taken..],
            self.place,
        )
    }

    fn ask(&mut self, last: bool)
        ensures { self.new ≡ asked self.old last }
    {
        self.ended = self.ended || last;
    }

    // Takes the bytes up to a place.
    fn take(&mut self, end: u64)
        requires from { self.old.place ≤ end }
        requires to { end ≤ size self.old }
        requires file { end ≤ file_limit }
        requires sound { self.old.fault ≡ None }
        ensures { self.new ≡ taken self.old end }
    {
        self.taken += (end - self.place) as usize;
        self.place = end;
        self.scan = Scan::new();
        self.hopeless = false;
    }

    fn fail(&mut self, kind: TextKind, place: u64)
        requires { HasFault self.old kind place }
        ensures { self.new ≡ failed self.old kind place }
    {
        self.fault = Some((kind, place));
    }

    // Reads what is decided: the input ends here, or a byte past a limit was fed.
    fn decide(&mut self, last: bool) -> Result<Next, TextError>
        requires decided { IsDecided self.old last }
        requires sound { self.old.fault ≡ None }
        ensures { IsNext self.old last self.new result }
    {
        match self.read() {
            Ok(None) => {
                self.ask(last);
                Ok(Next::End)
            }
            Ok(Some(placed)) => {
                self.ask(last);
                self.take(placed.end);
                Ok(Next::Placed(placed))
            }
            Err(TextError::Memory) => Err(TextError::Memory),
            Err(TextError::Fault(kind, place)) => {
                self.ask(last);
                self.fail(kind, place);
                Err(TextError::Fault(kind, place))
            }
        }
    }

    // Reads on where more may come.
    fn go_on(&mut self) -> Result<Next, TextError>
        requires { self.old.fault ≡ None }
        ensures { IsNext self.old false self.new result }
    {
        match self.closed() {
            Err(_) => Err(TextError::Memory),
            Ok(Some(placed)) => {
                self.take(placed.end);
                Ok(Next::Placed(placed))
            }
            Ok(None) => {
                if self.is_past() {
                    self.decide(false)
                } else {
                    Ok(Next::More)
                }
            }
        }
    }

    /// The statement at the reader's place (Octez "Micheline"), where its `;` was fed or the input ends here, and takes it. A fault
    /// where nothing that is fed can mend it, then always the same one. After Memory the reader is as it was.
    #[tactic(auto, using(crate::proofs::pieces_lemmas::Holding::next_going))]
    pub fn next(&mut self, last: bool) -> Result<Next, TextError>
        ensures going { last ≡ false → self.new.ended ≡ self.old.ended }
        ensures next { IsNext self.old last self.new result }
        ensures again { (kind : TextKind) (place : ℕ) → self.old.fault ≡ Some (kind, place) → result ≡ Err (TextError.Fault kind place) }
    {
        if let Some((kind, place)) = self.fault {
            self.ask(last);
            return Err(TextError::Fault(kind, place));
        }
        if last {
            self.decide(true)
        } else {
            self.go_on()
        }
    }
}
