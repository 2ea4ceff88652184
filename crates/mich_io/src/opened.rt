// Files that are opened by their paths, and read by std's readers.
ghost use Rattle.std.specs.Prelude.{◌≡◌, ◌<◌, ◌≤◌, ℕ, List, None, take, length, Contains, OnOk, OnErr, IfOk, IsErrOf};
ghost use Rattle.std.specs.declared.option.Option.{Option};
ghost use Rattle.std.specs.Io.{ReadsAtMost};
ghost use Rattle.std.specs.Io.KnownBytes.{ReadConsumes};
ghost use Rattle.rules_text.specs.streams.Causes.{HasCause};
ghost use Rattle.rules_text.specs.streams.Held.{one_more};
ghost use Rattle.rules_text.specs.streams.Known.{SameFiles};
ghost use Rattle.mich_io.specs.Opened.{left_of};

use crate::{Files, FilesFault};
use mich_base::Texts;
use std::io::{self, Read};

/// Opens files by their paths.
pub trait Opener {
    /// An open file.
    type File: Read + Drop;

    /// What the file at a path holds, where that is known.
    ghost content: { Self → List ℕ → Option (List ℕ) };

    /// Opens the file at a path, at its beginning.
    fn open(&self, path: &str) -> io::Result<Self::File>
        ensures { IfOk result (λ file. Self.File.remaining file ≡ content self.now path.now) };
}

/// Files that an opener opens, of which some are lent.
#[derive(Drop)]
pub struct OpenedFiles<O: Opener + Drop> {
    opener: O,
    lent: Texts,
    file: Option<O::File>,
    faults: u64,
}

impl<O: Opener + Drop> OpenedFiles<O> {
    /// Files of which none was started.
    pub fn over(opener: O, lent: Texts) -> Self
        ensures opener { result.opener ≡ opener }
        ensures lent { result.lent ≡ lent }
        ensures left { result.file ≡ None }
        ensures faults { result.faults ≡ 0 }
    {
        OpenedFiles {
            opener,
            lent,
            file: None,
            faults: 0,
        }
    }
}

// Reads on in the file that was started. Nothing is left where none was.
fn read_on<F: Read>(file: &mut Option<F>, buf: &mut [u8]) -> io::Result<usize>
    ensures bound { ReadsAtMost result buf.new }
    ensures bytes { ReadConsumes (left_of F.remaining file.old) (left_of F.remaining file.new) result buf.new }
{
    match file {
        Some(file) => file.read(buf),
        None => Ok(0),
    }
}

impl<O: Opener + Drop> Files for OpenedFiles<O> {
    ghost content = { λ s path. O.content s.opener path };

    ghost left = { λ s. left_of O.File.remaining s.file };

    ghost lent = { λ s. s.lent };

    ghost faults = { λ s. s.faults };

    fn start(&mut self, path: &str) -> Result<(), FilesFault>
        ensures ok { OnOk result (self.new.faults ≡ self.old.faults) }
        ensures failed { IsErrOf result FilesFault.Failed → self.new.faults ≡ one_more self.old.faults }
        ensures refused { IsErrOf result FilesFault.Memory → self.new.faults ≡ self.old.faults }
        ensures file { OnErr result (self.new.file ≡ self.old.file) }
        ensures started { OnOk result (left_of O.File.remaining self.new.file ≡ O.content self.old.opener path.now) }
        ensures stays { OnErr result (left_of O.File.remaining self.new.file ≡ left_of O.File.remaining self.old.file) }
        ensures same { SameFiles self.old.lent self.new.lent (O.content self.old.opener) (O.content self.new.opener) }
        ensures cause { HasCause FilesFault.Failed self.old.faults self.new.faults result }
    {
        match self.opener.open(path) {
            Ok(file) => {
                self.file = Some(file);
                Ok(())
            }
            Err(e) if e.kind() == io::ErrorKind::OutOfMemory => Err(FilesFault::Memory),
            Err(_) => {
                self.faults = self.faults.saturating_add(1);
                Err(FilesFault::Failed)
            }
        }
    }

    fn read(&mut self, buf: &mut [u8]) -> Result<usize, FilesFault>
        ensures ok { OnOk result (self.new.faults ≡ self.old.faults) }
        ensures failed { IsErrOf result FilesFault.Failed → self.new.faults ≡ one_more self.old.faults }
        ensures refused { IsErrOf result FilesFault.Memory → self.new.faults ≡ self.old.faults }
        ensures bound { ReadsAtMost result buf.new }
        ensures bytes { ReadConsumes (left_of O.File.remaining self.old.file) (left_of O.File.remaining self.new.file) result buf.new }
        ensures same { SameFiles self.old.lent self.new.lent (O.content self.old.opener) (O.content self.new.opener) }
        ensures cause { HasCause FilesFault.Failed self.old.faults self.new.faults result }
    {
        match read_on(&mut self.file, buf) {
            Ok(count) => Ok(count),
            Err(e) if e.kind() == io::ErrorKind::OutOfMemory => Err(FilesFault::Memory),
            Err(_) => {
                self.faults = self.faults.saturating_add(1);
                Err(FilesFault::Failed)
            }
        }
    }
}
