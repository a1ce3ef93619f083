//! Descriptors apart from the standard streams.

ghost use Rattle.std.specs.Prelude.{IfOk};
ghost use Rattle.fdr_storage_system.specs.Apart.{IsApart};

use std::fs::{File, OpenOptions};
use std::io;
use std::io::ErrorKind;
use std::os::fd::AsRawFd;
use std::rt::Files;

/// The same file under a descriptor that is none of the standard streams'. The system hands out the lowest number that is
/// free, which is a stream's where that stream was closed at the start. The file then gets another number, which the
/// system hands out above 2, and the stream is closed as before: a read or a write of it fails.
pub fn apart(file: File) -> io::Result<File>
    ensures { IfOk result IsApart }
{
    let file = if file.as_raw_fd() < 3 {
        file.try_clone()?
    } else {
        file
    };
    match file.as_raw_fd() {
        ..=2 => Err(io::Error::from(ErrorKind::Other)),
        _ => Ok(file),
    }
}

/// Opens a file apart from the standard streams.
pub fn open_apart<R: Files<File = File>>(
    files: &R,
    how: &OpenOptions,
    path: &str,
) -> io::Result<File>
    ensures { IfOk result IsApart }
{
    apart(how.open(files, path)?)
}
