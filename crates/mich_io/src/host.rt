// The files and the standard output of the system. Nothing is told of what they hold.
ghost use Rattle.std.specs.Prelude.{◌≡◌, ◌<◌, ◌≤◌, ℕ, List, None, take, length, IfOk, OnErr};
ghost use Rattle.std.specs.declared.option.Option.{Option};
ghost use Rattle.std.specs.Io.{ReadsAtMost, WritesAtMost};
ghost use Rattle.std.specs.Io.KnownBytes.{Keeps, ReadConsumes, WriteAppends};

use crate::opened::{OpenedFiles, Opener};
use crate::written::WriterSink;
use mich_base::Texts;
use std::io::{self, Read, Write};
use std::{fs, rt};

/// Opens files of the system.
#[derive(Drop)]
pub struct System<R: rt::Files + Drop> {
    rt: R,
}

/// A file of the system.
#[derive(Drop)]
pub struct SystemFile<F: Read + Drop> {
    file: F,
}

impl<F: Read + Drop> Read for SystemFile<F> {
    fn read(&mut self, buf: &mut [u8]) -> io::Result<usize>
        ensures bound { ReadsAtMost result buf.new }
        ensures bytes { ReadConsumes (F.remaining self.old.file) (F.remaining self.new.file) result buf.new }
    {
        self.file.read(buf)
    }
}

impl<R: rt::Files + Drop> Opener for System<R> {
    type File = SystemFile<R::File>;

    ghost content = { λ _ _. None };

    fn open(&self, path: &str) -> io::Result<SystemFile<R::File>> {
        let file = fs::open(&self.rt, path)?;
        Ok(SystemFile { file })
    }
}

/// Files of the system, of which some are lent.
pub type HostFiles<R> = OpenedFiles<System<R>>;

impl<R: rt::Files + Clone + Drop> OpenedFiles<System<R>> {
    /// Files of which none was started.
    pub fn new(rt: R, lent: Texts) -> Self
        ensures lent { result.lent ≡ lent }
        ensures faults { result.faults ≡ 0 }
    {
        OpenedFiles::over(System { rt }, lent)
    }
}

/// The standard output, as a writer.
#[derive(Drop)]
pub struct Output<R: Print + Drop> {
    rt: R,
}

impl<R: Print + Drop> Write for Output<R> {
    fn write(&mut self, buf: &[u8]) -> io::Result<usize> {
        io::writer(&self.rt).write(buf)
    }

    fn flush(&mut self) -> io::Result<()> {
        io::writer(&self.rt).flush()
    }
}

/// The standard output. Each piece is flushed.
pub type HostSink<R> = WriterSink<Output<R>>;

impl<R: Print + Clone + Drop> WriterSink<Output<R>> {
    /// The output, where no write has failed yet.
    pub fn new(rt: R) -> Self
        ensures { result.faults ≡ 0 }
    {
        WriterSink::over(Output { rt })
    }
}
