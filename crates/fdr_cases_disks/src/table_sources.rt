//! Files as sources.

use crate::on_disk::{put, remove};
use fdr_adapters::source_over;
use fdr_io::{Failed, Source};
use std::fs::File;
use std::rt::Files;

fn read_some<S: Source>(source: &mut S) -> Result<(usize, [u8; 8]), Failed> {
    let mut buf = [0; 8];
    let n = source.read(&mut buf)?;
    Ok((n, buf))
}

/// Whether the file at this path is read from its front.
fn is_read(files: &impl Files<File = File>, path: &str) -> bool {
    let mut source = source_over(files, path);
    read_some(&mut source) == Ok((5, *b"table\0\0\0")) && read_some(&mut source) == Ok((0, [0; 8]))
}

fn is_missing(files: &impl Files<File = File>, path: &str) -> bool {
    read_some(&mut source_over(files, path)) == Err(Failed)
}

#[test]
fn a_file_is_read_from_its_front(rt: HostRuntime) {
    let path = "source.bin";
    put(&rt, path, b"table");
    assert!(rt; is_read(&rt, path));
    remove(&rt, path);
    assert!(rt; is_missing(&rt, path));
}
