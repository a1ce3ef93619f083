//! A file of the system, by its name.

ghost use Rattle.std.specs.Prelude.{◌≡◌, ◌≤◌, true, length, IfOk, Result, Ok};
ghost use Rattle.std.specs.Option.{ForSome};
ghost use Rattle.fdr_storage_system.specs.Apart.{IsApart};
ghost use Rattle.fdr_storage_system.specs.Nothing.{telling_nothing, unknown_disk, unknown_is_sound, nothing_is_absent};

use crate::apart::{apart, open_apart};
use crate::refused::{done, opened, told};
use fdr_io::Failed;
use fdr_storage::{Absence, Kind, Lock, Look, Named, Node, Numbers, Refusal, Storage};
use std::fs::{File, Metadata, OpenOptions, TryLockError};
use std::io::ErrorKind;
use std::os::unix::fs::{FileExt, MetadataExt, OpenOptionsExt};
use std::path::Path;
use std::rt::Files;
use std::{fs, io};

// Zeros are written by the page.
const PAGE: [u8; 4096] = [0; 4096];

// Who may open a file that is made: its owner to write and its group to read, so that no other can hold its lock.
const MODE: u32 = 0o640;

/// A file of the system, by its name. Each method is one call of the system. It tells nothing.
#[derive(Drop)]
pub struct SystemFile<'a, R: Files<File = File>> {
    files: &'a R,
    path: &'a str,
    file: Option<File>,
    folder: Option<File>,
    error: Option<ErrorKind>,
    ghost apart: { ForSome file IsApart },
}

impl<'a, R: Files<File = File>> SystemFile<'a, R> {
    /// What has this name, which isn't open yet.
    pub fn new(files: &'a R, path: &'a str) -> Self {
        SystemFile {
            files,
            path,
            file: None,
            folder: None,
            error: None,
        }
    }

    // What is told of a call by the name.
    fn told_by_name<T: Drop>(&mut self, outcome: io::Result<T>) -> Result<T, Absence>
        ensures { IfOk result (λ x. outcome ≡ Ok x) }
    {
        match told(&mut self.error, outcome) {
            Ok(value) => Ok(value),
            Err(_) if self.error == Some(ErrorKind::NotFound) => Err(Absence::NotFound),
            Err(_) => Err(Absence::Failed),
        }
    }
}

impl<R: Files<File = File>> Storage for SystemFile<'_, R> {
    ghost tells = { telling_nothing };

    ghost disk = { λ file. unknown_disk };

    ghost sound = { λ file. unknown_is_sound };

    fn begin(&mut self, _numbers: Numbers) -> Result<(), Failed> {
        Ok(())
    }

    fn length(&mut self) -> Result<u64, Refusal> {
        let file = opened(&self.file, &mut self.error)?;
        told(&mut self.error, file.metadata()).map(|metadata| metadata.len())
    }

    fn read_at(&mut self, at: u64, buf: &mut [u8]) -> Result<usize, Refusal> {
        let file = opened(&self.file, &mut self.error)?;
        told(&mut self.error, file.read_at(buf, at))
    }

    fn write_at(&mut self, at: u64, bytes: &[u8]) -> Result<usize, Refusal> {
        let file = opened(&self.file, &mut self.error)?;
        told(&mut self.error, file.write_at(bytes, at))
    }

    fn grow(&mut self, at: u64, count: usize) -> Result<usize, Refusal> {
        let file = opened(&self.file, &mut self.error)?;
        told(&mut self.error, file.write_at(&PAGE[..count], at))
    }

    fn sync(&mut self) -> Result<(), Refusal> {
        let file = opened(&self.file, &mut self.error)?;
        told(&mut self.error, file.sync_data())
    }

    fn sync_all(&mut self) -> Result<(), Refusal> {
        let file = opened(&self.file, &mut self.error)?;
        told(&mut self.error, file.sync_all())
    }

    fn sync_name(&mut self) -> Result<(), Refusal> {
        let folder = opened(&self.folder, &mut self.error)?;
        told(&mut self.error, folder.sync_all())
    }
}

impl<R: Files<File = File>> Named for SystemFile<'_, R> {
    ghost there = { λ file. true };

    fn name(&self) -> &str {
        self.path
    }

    fn look(&mut self) -> Result<Look, Absence> {
        let outcome = fs::metadata(self.files, self.path);
        self.told_by_name(outcome.map(look_of))
    }

    fn look_at_name(&mut self) -> Result<(), Absence> {
        let outcome = fs::symlink_metadata(self.files, self.path);
        self.told_by_name(outcome.map(|_| ()))
    }

    fn open(&mut self, writes: bool) -> Result<(), Absence> {
        let mut how = OpenOptions::new();
        let outcome = open_apart(self.files, how.read(true).write(writes), self.path);
        self.file = Some(self.told_by_name(outcome)?);
        Ok(())
    }

    fn look_at_open(&mut self) -> Result<Look, Failed> {
        let file = done(opened(&self.file, &mut self.error))?;
        done(told(&mut self.error, file.metadata().map(look_of)))
    }

    fn lock(&mut self, alone: bool) -> Result<Lock, Failed> {
        let file = done(opened(&self.file, &mut self.error))?;
        let outcome = match alone {
            true => file.try_lock(),
            false => file.try_lock_shared(),
        };
        done(told(&mut self.error, lock_of(outcome)))
    }

    fn open_folder(&mut self) -> Result<(), Failed> {
        let mut how = OpenOptions::new();
        let outcome = open_apart(self.files, how.read(true), folder_of(self.path));
        self.folder = Some(done(told(&mut self.error, outcome))?);
        Ok(())
    }

    // Where the file can't be kept apart from the standard streams its name is taken away again.
    fn make(&mut self) -> Result<(), Failed> {
        let mut how = OpenOptions::new();
        how.read(true).write(true).create_new(true).mode(MODE);
        let made = done(told(&mut self.error, how.open(self.files, self.path)))?;
        let outcome = done(told(&mut self.error, apart(made)));
        if outcome.is_err() {
            let _ = self.remove();
        }
        self.file = Some(outcome?);
        Ok(())
    }

    fn empty(&mut self) -> Result<(), Failed> {
        let file = done(opened(&self.file, &mut self.error))?;
        done(told(&mut self.error, file.set_len(0)))
    }

    fn remove(&mut self) -> Result<(), Failed> {
        let outcome = fs::remove_file(self.files, self.path);
        done(told(&mut self.error, outcome))
    }

    fn last_error(&self) -> Option<ErrorKind> {
        self.error
    }

    ghost absent = { λ file told. nothing_is_absent told };
}

// Of all errors this one alone says that the system has no lock to give.
fn lock_of(outcome: Result<(), TryLockError>) -> io::Result<Lock> {
    match outcome {
        Ok(()) => Ok(Lock::Taken),
        Err(TryLockError::WouldBlock) => Err(io::Error::from(ErrorKind::ResourceBusy)),
        Err(TryLockError::Error(error)) => match error.kind() {
            ErrorKind::Unsupported => Ok(Lock::Missing),
            _ => Err(error),
        },
    }
}

// The folder that has the name.
fn folder_of(path: &str) -> &str {
    let folder = Path::new(path)
        .parent()
        .map_or("", |folder| folder.as_str());
    if folder.is_empty() { "." } else { folder }
}

fn look_of(metadata: Metadata) -> Look {
    let kind = match (metadata.is_file(), metadata.is_dir()) {
        (true, _) => Kind::File,
        (_, true) => Kind::Folder,
        _ => Kind::Other,
    };
    let (device, number) = (metadata.dev(), metadata.ino());
    let node = Node { device, number };
    Look { kind, node }
}
