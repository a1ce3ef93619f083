//! A reader, a writer and a file system for the tests.

use std::alloc::Allocator;
use std::fs::{File, Metadata, OpenOptions};
use std::io;
use std::io::{ErrorKind, Read, Write};
use std::rt::Files;

/// A reader that a signal interrupts before each byte.
#[derive(Drop)]
pub struct Interrupted<'a> {
    bytes: &'a [u8],
    is_interrupted: bool,
}

impl<'a> Interrupted<'a> {
    pub fn new(bytes: &'a [u8]) -> Self {
        Interrupted {
            bytes,
            is_interrupted: false,
        }
    }
}

impl Read for Interrupted<'_> {
    fn read(&mut self, buf: &mut [u8]) -> io::Result<usize> {
        self.is_interrupted = !self.is_interrupted;
        if self.is_interrupted || buf.is_empty() {
            return Err(io::Error::from(ErrorKind::Interrupted));
        }
        self.bytes.read(&mut buf[..1])
    }
}

/// A writer that keeps what it was given, with a bar after each write.
#[derive(Drop)]
pub struct Marked<'a> {
    kept: &'a mut Vec<u8>,
}

impl<'a> Marked<'a> {
    pub fn new(kept: &'a mut Vec<u8>) -> Self {
        Marked { kept }
    }
}

impl Write for Marked<'_> {
    fn write(&mut self, buf: &[u8]) -> io::Result<usize> {
        self.kept.extend_from_slice(buf)?;
        self.kept.extend_from_slice(b"|")?;
        Ok(buf.len())
    }

    fn flush(&mut self) -> io::Result<()> {
        Ok(())
    }
}

/// The system's files, except the working folder: another file is opened in its place.
#[derive(Drop)]
pub struct OtherFolder<'a> {
    system: &'a HostRuntime,
    folder: &'a str,
}

impl<'a> OtherFolder<'a> {
    pub fn new(system: &'a HostRuntime, folder: &'a str) -> Self {
        OtherFolder { system, folder }
    }
}

impl Files for OtherFolder<'_> {
    type File = File;

    type Dir = <HostRuntime as Files>::Dir;

    fn open_file(&self, how: &OpenOptions, path: &str) -> io::Result<File> {
        let path = if path == "." { self.folder } else { path };
        self.system.open_file(how, path)
    }

    fn open_dir(&self, path: &str) -> io::Result<Self::Dir> {
        self.system.open_dir(path)
    }

    fn metadata(&self, path: &str) -> io::Result<Metadata> {
        self.system.metadata(path)
    }

    fn symlink_metadata(&self, path: &str) -> io::Result<Metadata> {
        self.system.symlink_metadata(path)
    }

    fn copy(&self, from: &str, to: &str) -> io::Result<u64> {
        self.system.copy(from, to)
    }

    fn rename(&self, from: &str, to: &str) -> io::Result<()> {
        self.system.rename(from, to)
    }

    fn remove_file(&self, path: &str) -> io::Result<()> {
        self.system.remove_file(path)
    }

    fn create_dir(&self, path: &str) -> io::Result<()> {
        self.system.create_dir(path)
    }

    fn remove_dir(&self, path: &str) -> io::Result<()> {
        self.system.remove_dir(path)
    }

    fn remove_dir_all<B: Allocator>(&self, alloc: B, path: &str) -> io::Result<()> {
        self.system.remove_dir_all(alloc, path)
    }
}
