//! Why a call of the system failed, in words, and the line that says it.

use std::io::{ErrorKind, Write};

/// What is said of an error of this kind.
pub fn cause_text(kind: ErrorKind) -> &'static str {
    match kind {
        ErrorKind::ResourceBusy => "held by another run",
        ErrorKind::WouldBlock => "not ready",
        ErrorKind::PermissionDenied => "no permission",
        ErrorKind::ReadOnlyFilesystem => "read-only file system",
        ErrorKind::StorageFull | ErrorKind::QuotaExceeded => "no room",
        ErrorKind::NotFound => "no such file",
        ErrorKind::IsADirectory => "is a folder",
        ErrorKind::InvalidInput => "is no file",
        ErrorKind::UnexpectedEof => "became shorter",
        ErrorKind::AlreadyExists => "is there already",
        ErrorKind::FileTooLarge => "file too large",
        ErrorKind::BrokenPipe => "closed by its reader",
        _ => "input/output error",
    }
}

/// Writes the line of a cause, `PROGRAM: NAME: CAUSE`. That it can't be written changes nothing.
pub fn tell_cause(to: &mut impl Write, program: &str, name: &str, cause: ErrorKind) {
    let _ = to.write_all(program.as_bytes());
    let _ = to.write_all(b": ");
    let _ = to.write_all(name.as_bytes());
    let _ = to.write_all(b": ");
    let _ = to.write_all(cause_text(cause).as_bytes());
    let _ = to.write_all(b"\n");
}
