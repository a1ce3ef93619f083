//! What a command of a script gives and leaves.

use crate::answers::{ANSWERS, LAST_ROW, TABLE_FAULTS};
use crate::objects::{Given, Ran, ran_on, stopped, words_of};
use fdr_cases_script::{Command, Files, Left, NO_SUCH_CALL, Runner, Wrong};
use fdr_deck::{Deck, MemDeck, SureDeck, Tear};
use fdr_io::{NullSink, SureSource};
use fdr_sure::sure_command;
use fdr_top::Outcome;
use fdr_words::{Request, WordsFault, read_words};
use std::alloc::{AllocError, Global};

/// Runs commands of `fdr` over objects in memory.
#[derive(Clone, Copy)]
pub struct InMemory;

impl Runner for InMemory {
    fn run(
        &self,
        alloc: Global,
        files: &mut Files,
        command: &Command<'_>,
        block: &mut Vec<u8>,
    ) -> Result<(), Wrong> {
        run(alloc, files, command, block)
    }

    fn say_answers(&self, alloc: Global, block: &mut Vec<u8>) -> Result<(), Wrong> {
        for fault in TABLE_FAULTS {
            let (row, fault) = (LAST_ROW, *fault);
            add_status_and_text(alloc, block, Outcome::TableRefused { row, fault })?;
        }
        for answer in ANSWERS {
            add_status_and_text(alloc, block, *answer)?;
        }
        Ok(())
    }
}

fn run(
    alloc: Global,
    files: &mut Files,
    command: &Command,
    block: &mut Vec<u8>,
) -> Result<(), Wrong> {
    let request = request_of(alloc, &command.words)?;
    let names = names_of(&request);
    if command.is_sure {
        say_sure_answer(alloc, files, command, names, block)
    } else {
        run_and_leave(alloc, files, command, names, block)
    }
}

/// Runs a command over objects that can't fail, and says its answer.
fn say_sure_answer(
    alloc: Global,
    files: &Files,
    command: &Command,
    names: Names<'_>,
    block: &mut Vec<u8>,
) -> Result<(), Wrong> {
    let outcome = sure_answer(alloc, files, command, names)?;
    Ok(add_answer(alloc, block, outcome)?)
}

/// Runs a command over objects that fail as its line says, says what it gives, and leaves what it leaves.
fn run_and_leave(
    alloc: Global,
    files: &mut Files,
    command: &Command,
    names: Names<'_>,
    block: &mut Vec<u8>,
) -> Result<(), Wrong> {
    let (ran, mut deck) = ran_over(alloc, files, command, names)?;
    let image = names.image.unwrap_or("");
    match command.stop {
        Some((call, left)) => leave_stopped(alloc, files, command, image, &deck, call, left, block),
        None => leave(alloc, files, command, image, ran, &mut deck, block),
    }
}

/// The request of words, if they make one.
fn request_of(alloc: Global, words: &[&str]) -> Result<Option<Request>, Wrong> {
    let words = words_of(alloc, words)?;
    match read_words(alloc, &words) {
        Ok(request) => Ok(Some(request)),
        Err(WordsFault::Usage) => Ok(None),
        Err(WordsFault::NoMemory) => Err(Wrong::NoMemory),
    }
}

/// The names of the table and of the image of a command.
#[derive(Clone, Copy)]
struct Names<'a> {
    table: Option<&'a str>,
    image: Option<&'a str>,
}

fn names_of(request: &Option<Request>) -> Names<'_> {
    match request {
        None => Names {
            table: None,
            image: None,
        },
        Some(request) => Names {
            table: request.table(),
            image: request.image(),
        },
    }
}

/// The bytes of a name that has to be there, where one is given.
fn bytes_in<'a>(files: &'a Files, name: Option<&str>) -> Result<&'a [u8], Wrong> {
    match name {
        None => Ok(&[]),
        Some(name) => files.get(name).ok_or(Wrong::Line),
    }
}

/// What a command answers and writes, and its deck. An image that isn't there is empty.
fn ran_over(
    alloc: Global,
    files: &Files,
    command: &Command,
    names: Names<'_>,
) -> Result<(Ran, MemDeck), Wrong> {
    let given = Given {
        table: bytes_in(files, names.table)?,
        image: files.get(names.image.unwrap_or("")).unwrap_or(&[]),
        line: bytes_in(files, command.input)?,
        reads: &command.reads,
        calls: &command.calls,
        writes: &command.writes,
    };
    Ok(ran_on(alloc, &command.words, given)?)
}

/// What is left of the input of a deck.
fn rest_of(alloc: Global, deck: &mut impl Deck) -> Result<Vec<u8>, AllocError> {
    let mut rest = Vec::new(alloc);
    let mut piece = [0; 512];
    for _ in 0..u64::MAX {
        let count = deck.pull(&mut piece).unwrap_or(0);
        if count == 0 {
            break;
        }
        rest.extend_from_slice(piece.get(..count).unwrap_or(&[]))?;
    }
    Ok(rest)
}

/// What a command answers over objects that can't fail. Without an image its disk has one byte.
fn sure_answer(
    alloc: Global,
    files: &Files,
    command: &Command,
    names: Names<'_>,
) -> Result<Outcome, Wrong> {
    let words = words_of(alloc, &command.words)?;
    let table = bytes_in(files, names.table)?.to_vec(alloc)?;
    let mut deck = sure_deck_of(
        alloc,
        files.get(names.image.unwrap_or("")).unwrap_or(&[0]),
        bytes_in(files, command.input)?,
    )?;
    Ok(sure_outcome(alloc, &words, &mut SureSource::new(table), &mut deck))
}

/// A deck that can't fail with this image, or with one zero byte where it is empty.
fn sure_deck_of(alloc: Global, image: &[u8], line: &[u8]) -> Result<SureDeck, AllocError> {
    let line = line.to_vec(alloc)?;
    let mut image = image.to_vec(alloc)?;
    if image.is_empty() {
        image = vec![in alloc; 0; 1]?;
    }
    Ok(SureDeck::new(image, line))
}

// Without clauses of its own, so that what uses it is proved without those of `sure_command`.
fn sure_outcome(
    alloc: Global,
    words: &[String],
    table: &mut SureSource,
    deck: &mut SureDeck,
) -> Outcome {
    sure_command(alloc, words, table, deck, &mut NullSink::new())
}

/// Says what a whole command gives, and leaves its output, its image and the rest of its input.
fn leave(
    alloc: Global,
    files: &mut Files,
    command: &Command,
    image: &str,
    ran: Ran,
    deck: &mut MemDeck,
    block: &mut Vec<u8>,
) -> Result<(), Wrong> {
    let Ran { outcome, written } = ran;
    leave_output(alloc, files, command, written, block)?;
    leave_number(alloc, files, command, deck.told(), block)?;
    leave_image(alloc, files, image, deck.image(), block)?;
    if let Some(name) = command.rest {
        files.put(alloc, name, rest_of(alloc, deck)?)?;
    }
    Ok(add_answer(alloc, block, outcome)?)
}

/// Says what was written, or leaves it under a name.
fn leave_output(
    alloc: Global,
    files: &mut Files,
    command: &Command,
    written: Vec<u8>,
    block: &mut Vec<u8>,
) -> Result<(), AllocError> {
    match command.output {
        Some(name) => files.put(alloc, name, written),
        None => add_output(alloc, block, &written),
    }
}

/// Says which number was announced, if one was, or leaves it under a name.
fn leave_number(
    alloc: Global,
    files: &mut Files,
    command: &Command,
    told: u64,
    block: &mut Vec<u8>,
) -> Result<(), AllocError> {
    if let Some(name) = command.told {
        return files.put(alloc, name, told.to_be_bytes().to_vec(alloc)?);
    }
    if told == 0 {
        return Ok(());
    }
    let text = format!(in alloc; "[ack {told}]\n")?;
    block.extend_from_slice(text.as_bytes())
}

/// Says of an image that it is another now, and leaves it.
fn leave_image(
    alloc: Global,
    files: &mut Files,
    image: &str,
    now: &[u8],
    block: &mut Vec<u8>,
) -> Result<(), AllocError> {
    if files.get(image).unwrap_or(&[]) == now {
        return Ok(());
    }
    let text = format!(in alloc; "[{image} changed]\n")?;
    block.extend_from_slice(text.as_bytes())?;
    files.put(alloc, image, now.to_vec(alloc)?)
}

/// Says what was announced before a stop, and leaves the image that the stop leaves.
fn leave_stopped(
    alloc: Global,
    files: &mut Files,
    command: &Command,
    image: &str,
    deck: &MemDeck,
    call: u64,
    left: Left,
    block: &mut Vec<u8>,
) -> Result<(), Wrong> {
    if call >= deck.calls() {
        return Ok(block.extend_from_slice(NO_SUCH_CALL)?);
    }
    leave_number(alloc, files, command, deck.told_at(call), block)?;
    let left = stopped(alloc, deck, call, tear_of(left))?.ok_or(Wrong::Line)?;
    Ok(files.put(alloc, image, left)?)
}

fn tear_of(left: Left) -> Tear {
    match left {
        Left::Old => Tear::Old,
        Left::New => Tear::New,
        Left::Half => Tear::Half,
        Left::Fill(byte) => Tear::Fill(byte),
    }
}

/// Whether bytes are lines of plain letters.
fn is_text(bytes: &[u8]) -> bool {
    bytes
        .iter()
        .all(|byte| *byte == b'\n' || matches!(byte, b' '..=b'~'))
        && bytes.last().is_none_or(|last| *last == b'\n')
}

/// Adds lines as they are, and other bytes in hexadecimal digits.
fn add_output(alloc: Global, block: &mut Vec<u8>, written: &[u8]) -> Result<(), AllocError> {
    if is_text(written) {
        return block.extend_from_slice(written);
    }
    block.extend_from_slice(b"[hex ")?;
    for byte in written {
        let text = format!(in alloc; "{byte:02x}")?;
        block.extend_from_slice(text.as_bytes())?;
    }
    block.extend_from_slice(b"]\n")
}

/// Adds the status and the text of an answer, where not all was done.
fn add_answer(alloc: Global, block: &mut Vec<u8>, outcome: Outcome) -> Result<(), AllocError> {
    if outcome.status() == 0 {
        return Ok(());
    }
    add_status_and_text(alloc, block, outcome)
}

/// Adds the status and the text of an answer.
fn add_status_and_text(
    alloc: Global,
    block: &mut Vec<u8>,
    outcome: Outcome,
) -> Result<(), AllocError> {
    let status = outcome.status();
    let text = format!(in alloc; "[{status} ")?;
    block.extend_from_slice(text.as_bytes())?;
    block.extend_from_slice(outcome.text().bytes())?;
    block.extend_from_slice(b"]\n")
}
