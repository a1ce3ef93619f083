//! The streams and the outlets of the system.

ghost use Rattle.std.specs.Prelude.{◌≡◌, [], false};
ghost use Rattle.std.specs.Option.{ForSome};
ghost use Rattle.fdr_storage_system.specs.Apart.{IsApart};

use crate::apart::open_apart;
use crate::refused::{opened, told};
use fdr_storage::{Outlet, Refusal, Stream};
use std::alloc::Global;
use std::fs::{File, OpenOptions};
use std::io;
use std::io::{BufReader, ErrorKind, Read, Write};
use std::rt::Files;

/// An input that is read as it is pulled, or ahead of that. It never waits for more than one read gives.
#[derive(Drop)]
pub enum LineReader<L: Read + Drop> {
    /// What a pull doesn't ask for stays with the reader.
    Exact(L),
    /// A read may take more than a pull asks for, which the next pulls get.
    Ahead(BufReader<L, Global>),
}

impl<L: Read + Drop> Read for LineReader<L> {
    fn read(&mut self, buf: &mut [u8]) -> io::Result<usize> {
        match self {
            LineReader::Exact(line) => line.read(buf),
            LineReader::Ahead(line) => line.read(buf),
        }
    }
}

/// What a reader such as standard input gives. It tells nothing.
#[derive(Drop)]
pub struct SystemStream<L: Read + Drop> {
    reader: L,
    error: Option<ErrorKind>,
}

impl<L: Read + Drop> SystemStream<L> {
    /// What this reader gives.
    pub fn new(reader: L) -> Self {
        SystemStream {
            reader,
            error: None,
        }
    }
}

impl<L: Read + Drop> Stream for SystemStream<L> {
    ghost tells = { false };

    ghost rest = { λ stream. [] };

    fn open(&mut self) -> Result<(), Refusal> {
        Ok(())
    }

    fn read(&mut self, buf: &mut [u8]) -> Result<usize, Refusal> {
        let outcome = self.reader.read(buf);
        told(&mut self.error, outcome)
    }

    fn last_error(&self) -> Option<ErrorKind> {
        self.error
    }
}

/// A file of the system that is read from its front, once. It tells nothing.
#[derive(Drop)]
pub struct SystemTable<'a, R: Files<File = File>> {
    files: &'a R,
    path: &'a str,
    file: Option<File>,
    error: Option<ErrorKind>,
    ghost apart: { ForSome file IsApart },
}

impl<'a, R: Files<File = File>> SystemTable<'a, R> {
    /// The file at this path, which isn't open yet.
    pub fn new(files: &'a R, path: &'a str) -> Self {
        SystemTable {
            files,
            path,
            file: None,
            error: None,
        }
    }
}

impl<R: Files<File = File>> Stream for SystemTable<'_, R> {
    ghost tells = { false };

    ghost rest = { λ table. [] };

    fn open(&mut self) -> Result<(), Refusal> {
        let mut how = OpenOptions::new();
        let outcome = open_apart(self.files, how.read(true), self.path);
        self.file = Some(told(&mut self.error, outcome)?);
        Ok(())
    }

    fn read(&mut self, buf: &mut [u8]) -> Result<usize, Refusal> {
        let file = opened(&self.file, &mut self.error)?;
        told(&mut self.error, (&mut &*file).read(buf))
    }

    fn last_error(&self) -> Option<ErrorKind> {
        self.error
    }
}

/// A writer such as standard output. It tells nothing.
#[derive(Drop)]
pub struct SystemOutlet<W: Write + Drop> {
    writer: W,
    error: Option<ErrorKind>,
}

impl<W: Write + Drop> SystemOutlet<W> {
    /// This writer.
    pub fn new(writer: W) -> Self {
        SystemOutlet {
            writer,
            error: None,
        }
    }
}

impl<W: Write + Drop> Outlet for SystemOutlet<W> {
    ghost tells = { false };

    ghost written = { λ outlet. [] };

    fn write(&mut self, bytes: &[u8]) -> Result<usize, Refusal> {
        let outcome = self.writer.write(bytes);
        told(&mut self.error, outcome)
    }

    fn last_error(&self) -> Option<ErrorKind> {
        self.error
    }
}
