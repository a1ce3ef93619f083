//! Decks over files and streams, and a sink over a writer.

use crate::calls::{Call, DONE, Given, Step, answer, gives};
use crate::fakes::{Interrupted, Marked};
use crate::on_disk::put;
use fdr_adapters::{deck_over, image_over, sink_into};
use fdr_deck::Deck;
use fdr_io::{Failed, Sink};
use fdr_storage::{Named, Stream};
use fdr_storage_deck::StorageDeck;
use fdr_storage_system::LineReader;
use std::fs;
use std::fs::File;
use std::io::{BufReader, ErrorKind, Read, Write, sink};
use std::process::Abort;
use std::rt::Files;

/// What happens to the file of a disk between two of its calls.
#[derive(Clone, Copy)]
pub enum Meanwhile<'a> {
    Nothing,
    /// It gets these bytes.
    Put(&'a [u8]),
    /// It gets the name `moved.bin`, and another file of these bytes gets its own.
    Replace(&'a [u8]),
    /// Other disks over it ask for its length: which of them write, and why they fail.
    Ask(&'a [(bool, Option<ErrorKind>)]),
}

/// Calls of a disk, what happens to its file then, and calls after that.
#[derive(Clone, Copy)]
pub struct Calls<'a> {
    pub first: &'a [Step<'a>],
    pub meanwhile: Meanwhile<'a>,
    pub then: &'a [Step<'a>],
    /// Why a call failed last.
    pub why: Option<ErrorKind>,
    /// Whether what was made is discarded at the end.
    pub discards: bool,
}

/// No calls, during which nothing happens.
pub const NO_CALLS: Calls<'static> = Calls {
    first: &[],
    meanwhile: Meanwhile::Nothing,
    then: &[],
    why: None,
    discards: false,
};

/// Whether a disk answers its length, or says that it fails for this.
fn is_asked<S: Named + Drop, I: Stream + Drop, A: Write + Drop>(
    deck: StorageDeck<S, I, A>,
    why: Option<ErrorKind>,
) -> bool {
    let mut deck = deck;
    let is_measured = answer(&mut deck, Call::Size).is_ok();
    is_measured == why.is_none() && deck.why() == why
}

/// Whether other disks over the file answer its length, or say that they fail for this.
fn are_asked(
    files: &impl Files<File = File>,
    path: &str,
    asked: &[(bool, Option<ErrorKind>)],
) -> bool {
    for &(writes, why) in asked {
        let deck = deck_over(image_over(files, path, writes), b"".as_slice(), sink());
        if !is_asked(deck, why) {
            return false;
        }
    }
    true
}

fn happens(rt: &(impl Files<File = File> + Abort), path: &str, meanwhile: Meanwhile<'_>) -> bool {
    match meanwhile {
        Meanwhile::Nothing => true,
        Meanwhile::Put(bytes) => {
            put(rt, path, bytes);
            true
        }
        Meanwhile::Replace(bytes) => {
            fs::rename(rt, path, "moved.bin").expect(rt, "another name");
            put(rt, path, bytes);
            true
        }
        Meanwhile::Ask(asked) => are_asked(rt, path, asked),
    }
}

fn answers<D: Deck>(
    rt: &(impl Files<File = File> + Abort),
    path: &str,
    deck: &mut D,
    calls: &Calls<'_>,
) -> bool {
    gives(deck, calls.first) && happens(rt, path, calls.meanwhile) && gives(deck, calls.then)
}

/// Whether the disk over the file at this path answers so.
pub fn passes<S: Named + Drop, I: Stream + Drop, A: Write + Drop>(
    rt: &(impl Files<File = File> + Abort),
    path: &str,
    deck: StorageDeck<S, I, A>,
    calls: &Calls<'_>,
) -> bool {
    let mut deck = deck;
    let holds = answers(rt, path, &mut deck, calls) && deck.why() == calls.why;
    if calls.discards {
        deck.discard();
    }
    holds
}

/// Whether a deck without a disk answers so, with this input and this writer.
fn passes_with<L: Read + Drop, A: Write + Drop>(
    rt: &(impl Files<File = File> + Abort),
    input: L,
    acknowledgements: A,
    first: &[Step<'_>],
) -> bool {
    let deck = deck_over(image_over(rt, "", false), input, acknowledgements);
    passes(rt, "", deck, &Calls { first, ..NO_CALLS })
}

/// Pulls of one byte, as a signal interrupts each read.
const PULLS_OF_ONE: &[Step<'static>] = &[
    (Call::Pull, Ok(Given::Pulled(1, *b"a\0\0"))),
    (Call::Pull, Ok(Given::Pulled(1, *b"b\0\0"))),
    (Call::Pull, Ok(Given::Pulled(0, [0; 3]))),
];

/// Pulls of all that there is.
const PULLS: &[Step<'static>] = &[
    (Call::Pull, Ok(Given::Pulled(3, *b"abc"))),
    (Call::Pull, Ok(Given::Pulled(2, *b"de\0"))),
    (Call::Pull, Ok(Given::Pulled(0, [0; 3]))),
];

#[test]
fn an_input_is_pulled_to_its_end(rt: HostRuntime) {
    assert!(rt;
        passes_with(&rt, b"abcde".as_slice(), sink(), PULLS)
            && passes_with(
                &rt,
                LineReader::Exact(Interrupted::new(b"ab")),
                sink(),
                PULLS_OF_ONE
            )
    );
}

#[test]
fn an_input_is_read_ahead(rt: HostRuntime) {
    let ahead = BufReader::with_capacity(rt.alloc(), 5, Interrupted::new(b"ab"));
    let ahead = LineReader::Ahead(ahead.expect(&rt, "a buffer"));
    assert!(rt; passes_with(&rt, ahead, sink(), PULLS_OF_ONE));
    let ahead = BufReader::with_capacity(rt.alloc(), 5, b"abcde".as_slice());
    let ahead = LineReader::Ahead(ahead.expect(&rt, "a buffer"));
    assert!(rt; passes_with(&rt, ahead, sink(), PULLS));
}

/// Announcements of the least number and of the greatest.
const ANNOUNCEMENTS: &[Step<'static>] = &[
    (Call::Announce(0), DONE),
    (Call::Announce(281_474_976_710_656), DONE),
];

#[test]
fn an_announcement_is_one_line_in_one_write(rt: HostRuntime) {
    let mut kept = Vec::new(rt.alloc());
    assert!(rt; passes_with(&rt, b"".as_slice(), Marked::new(&mut kept), ANNOUNCEMENTS));
    assert!(rt; kept.as_slice() == b"ack 0\n|ack 281474976710656\n|".as_slice());
}

fn write_some<S: Sink>(sink: &mut S) -> Result<usize, Failed> {
    sink.write(b"three")
}

#[test]
fn a_writer_takes_bytes_or_faults(rt: HostRuntime) {
    let mut room = [0u8; 4];
    let mut sink = sink_into(room.as_mut_slice());
    assert!(rt; write_some(&mut sink) == Ok(4) && write_some(&mut sink) == Err(Failed));
}
