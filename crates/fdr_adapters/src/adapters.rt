//! What a program hands to its command.

use crate::StorageTwin;
use fdr_storage_deck::{ImageFile, OutletSink, StorageDeck, StreamSource};
use fdr_storage_system::{SystemFile, SystemOutlet, SystemStream, SystemTable};
use std::fs::File;
use std::io::{Read, Write};
use std::rt::Files;

/// The deck of a program: its disk is a file, its line a reader such as standard input, and its announcements are lines on a
/// writer such as standard error.
pub type FileDeck<'a, R, L, A> = StorageDeck<SystemFile<'a, R>, SystemStream<L>, A>;

/// The twin of a program: its disks are two files.
pub type FileTwin<'a, R, L, A> = StorageTwin<SystemFile<'a, R>, SystemStream<L>, A>;

/// A file that is read from its front, once. It is opened at the first read.
pub type FileSource<'a, R> = StreamSource<SystemTable<'a, R>>;

/// A writer, such as standard output.
pub type OutSink<W> = OutletSink<SystemOutlet<W>>;

/// The image at this path, which isn't open yet.
pub fn image_over<'a, R: Files<File = File>>(
    files: &'a R,
    path: &'a str,
    writes: bool,
) -> ImageFile<SystemFile<'a, R>> {
    ImageFile::new(SystemFile::new(files, path), writes)
}

/// The deck over this image, whose input is what this reader gives.
pub fn deck_over<'a, R: Files<File = File>, L: Read + Drop, A: Write + Drop>(
    image: ImageFile<SystemFile<'a, R>>,
    input: L,
    acknowledgements: A,
) -> FileDeck<'a, R, L, A> {
    StorageDeck::new(image, SystemStream::new(input), acknowledgements)
}

/// The twin over these images, whose input is what this reader gives.
pub fn twin_over<'a, R: Files<File = File>, L: Read + Drop, A: Write + Drop>(
    first: ImageFile<SystemFile<'a, R>>,
    second: ImageFile<SystemFile<'a, R>>,
    input: L,
    acknowledgements: A,
) -> FileTwin<'a, R, L, A> {
    StorageTwin::new(first, second, SystemStream::new(input), acknowledgements)
}

/// The file at this path as a source.
pub fn source_over<'a, R: Files<File = File>>(files: &'a R, path: &'a str) -> FileSource<'a, R> {
    StreamSource::new(SystemTable::new(files, path))
}

/// The writer as a sink.
pub fn sink_into<W: Write + Drop>(writer: W) -> OutSink<W> {
    OutletSink::new(SystemOutlet::new(writer))
}
