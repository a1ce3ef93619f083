//! A command over objects in memory: what it answers and writes, and the deck that it leaves.

use fdr_deck::{MemDeck, Tear};
use fdr_io::{MemSink, MemSource};
use fdr_top::{Outcome, run};
use std::alloc::{AllocError, Global};

/// What a command answered and wrote.
#[derive(Drop)]
pub struct Ran {
    pub outcome: Outcome,
    pub written: Vec<u8>,
}

/// What a command finds, and which reads of its table, calls of its deck and writes of its sink fail.
#[derive(Clone, Copy)]
pub struct Given<'a> {
    pub table: &'a [u8],
    pub image: &'a [u8],
    pub line: &'a [u8],
    pub reads: &'a [u64],
    pub calls: &'a [u64],
    pub writes: &'a [u64],
}

/// The words of a command line.
pub fn words_of(alloc: Global, texts: &[&str]) -> Result<Vec<String>, AllocError> {
    let mut words = Vec::new(alloc);
    for text in texts {
        words.push(text.to_string(alloc)?)?;
    }
    Ok(words)
}

/// The image that a stop within a call of a deck leaves, if the deck had that call. Without clauses, so that what uses it is
/// proved without those of `MemDeck`.
pub fn stopped(
    alloc: Global,
    deck: &MemDeck,
    call: u64,
    tear: Tear,
) -> Result<Option<Vec<u8>>, AllocError> {
    if call >= deck.calls() {
        return Ok(None);
    }
    let left = deck.stop(alloc, call, tear).map_err(|_| AllocError)?;
    Ok(Some(left))
}

/// The deck that a command leaves, with what the command answered and wrote.
pub fn ran_on(
    alloc: Global,
    words: &[&str],
    given: Given<'_>,
) -> Result<(Ran, MemDeck), AllocError> {
    let mut deck = deck_of(alloc, given)?;
    let ran = ran_with(alloc, words, given, &mut deck)?;
    Ok((ran, deck))
}

// A deck with the image and the line, whose listed calls fail.
fn deck_of(alloc: Global, given: Given<'_>) -> Result<MemDeck, AllocError> {
    Ok(MemDeck::new(
        alloc,
        given.image.to_vec(alloc)?,
        given.line.to_vec(alloc)?,
        given.calls.to_vec(alloc)?,
    ))
}

// What a command answers and writes over a deck.
fn ran_with(
    alloc: Global,
    words: &[&str],
    given: Given<'_>,
    deck: &mut MemDeck,
) -> Result<Ran, AllocError> {
    let words = words_of(alloc, words)?;
    let mut table = MemSource::new(given.table.to_vec(alloc)?, given.reads.to_vec(alloc)?);
    ran_over(alloc, &words, &mut table, deck, given.writes)
}

// What a command answers and writes over these objects, where the listed writes fail. The objects are made in other
// functions: where memory is wanting, all that is alive is dropped, and the proof goes through each drop.
fn ran_over(
    alloc: Global,
    words: &[String],
    table: &mut MemSource,
    deck: &mut MemDeck,
    writes: &[u64],
) -> Result<Ran, AllocError> {
    let mut out = MemSink::new(alloc, writes.to_vec(alloc)?);
    let outcome = answer(alloc, words, table, deck, &mut out);
    let written = out.bytes().to_vec(alloc)?;
    Ok(Ran { outcome, written })
}

// Without clauses of its own, so that what uses it is proved without those of `run`.
fn answer(
    alloc: Global,
    words: &[String],
    table: &mut MemSource,
    deck: &mut MemDeck,
    out: &mut MemSink,
) -> Outcome {
    run(alloc, words, table, deck, out)
}
