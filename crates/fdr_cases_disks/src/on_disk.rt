//! What the tests put on the system's disk, and find there.

use std::fs;
use std::process::Abort;
use std::rt::Files;

/// Puts a file of these bytes in place of what is at the path.
pub fn put(rt: &(impl Files + Abort), path: &str, bytes: &[u8]) {
    fs::write(rt, path, bytes).expect(rt, "a file that is put");
}

/// Whether the file at the path holds exactly these bytes.
pub fn holds(rt: &(impl Files + AllocGlobal + Abort), path: &str, bytes: &[u8]) -> bool {
    fs::read(rt, path).expect(rt, "a file").as_slice() == bytes
}

/// Whether the file at the path has these bytes at this place.
pub fn has_at(
    rt: &(impl Files + AllocGlobal + Abort),
    path: &str,
    at: usize,
    bytes: &[u8],
) -> bool {
    let file = fs::read(rt, path).expect(rt, "a file");
    file.get(at..).is_some_and(|rest| rest.starts_with(bytes))
}

/// Whether something is at the path.
pub fn is_there(rt: &(impl Files + Abort), path: &str) -> bool {
    fs::exists(rt, path).expect(rt, "a path")
}

/// Removes the file at the path.
pub fn remove(rt: &(impl Files + Abort), path: &str) {
    fs::remove_file(rt, path).expect(rt, "a file that is removed");
}
