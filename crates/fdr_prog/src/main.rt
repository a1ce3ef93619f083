//! The program `fdr`: the recorder's commands over files and standard streams.
#![tactic(auto)]

mod usage;

use fdr_adapters::{deck_over, image_over, sink_into, source_over, tell_cause};
use fdr_io::Input;
use fdr_storage_deck::{AHEAD, ImageFile, Window};
use fdr_storage_system::{LineReader, SystemFile};
use fdr_top::{Outcome, run};
use fdr_words::{Request, WordsFault, read_words};
use std::alloc::Global;
use std::env::Env;
use std::io::{BufReader, IsTerminal, Stdin, Write};
use std::process::ExitCode;
use std::{env, io};
use usage::explain;

/// The words after the program's name. A word that isn't text is none of the command's.
fn command_words(rt: &(impl Env + AllocGlobal)) -> Result<Vec<String>, Outcome> {
    let mut words = Vec::new(rt.alloc());
    for word in env::args(rt).map_err(outcome_of_words)?.skip(1) {
        words.push(word).map_err(|_| Outcome::NoMemory)?;
    }
    Ok(words)
}

fn outcome_of_words(error: io::Error) -> Outcome {
    match error.kind() {
        io::ErrorKind::OutOfMemory => Outcome::NoMemory,
        _ => Outcome::Usage,
    }
}

/// The image of a command. Until it is written it is read through a window, if there is memory for one.
fn image_of<'a>(
    rt: &'a HostRuntime,
    request: &'a Request,
) -> ImageFile<SystemFile<'a, HostRuntime>> {
    let image = image_over(rt, request.image().unwrap_or(""), request.writes());
    match Window::new(rt.alloc()) {
        Ok(window) => image.seen_through(window),
        Err(_) => image,
    }
}

/// The input of a command: one that records reads no further than it pulls.
fn line_of(rt: &HostRuntime, request: &Request) -> LineReader<Stdin> {
    match BufReader::with_capacity(rt.alloc(), AHEAD, rt.stdin()) {
        Ok(line) if !request.writes() => LineReader::Ahead(line),
        _ => LineReader::Exact(rt.stdin()),
    }
}

/// Runs the command over the files that its words name and the standard streams. Where not all was done, no image is left
/// that it made.
fn run_on_files(rt: &HostRuntime, words: &[String]) -> Outcome {
    let request = match read_words(rt.alloc(), words) {
        Ok(request) => request,
        Err(WordsFault::Usage) => return Outcome::Usage,
        Err(WordsFault::NoMemory) => return Outcome::NoMemory,
    };
    let mut table = source_over(rt, request.table().unwrap_or(""));
    let mut deck = deck_over(image_of(rt, &request), line_of(rt, &request), rt.stderr());
    let mut out = sink_into(rt.stdout());
    let outcome = run(rt.alloc(), words, &mut table, &mut deck, &mut out);
    let (name, cause) = match &outcome {
        Outcome::DiskFault | Outcome::ImageRefused(_) => (request.image(), deck.why()),
        Outcome::ReadFault(Input::Table) => (request.table(), table.why()),
        Outcome::ReadFault(Input::Line) => (Some("standard input"), deck.why_of_input()),
        Outcome::WriteFault => (Some("standard output"), out.why()),
        _ => (None, None),
    };
    if let (Some(name), Some(cause)) = (name, cause) {
        tell_cause(&mut rt.stderr(), "fdr", name, cause);
    }
    if !matches!(&outcome, Outcome::Done) {
        deck.discard();
    }
    outcome
}

fn run_with_help(rt: &HostRuntime, words: &[String]) -> Outcome {
    let outcome = run_on_files(rt, words);
    if matches!(&outcome, Outcome::Usage) {
        help(rt, words);
    }
    outcome
}

/// Writes what helps with the words, where a person reads: to a pipe the answer's text goes alone.
fn help(rt: &HostRuntime, words: &[String]) {
    if rt.stderr().is_terminal() {
        let _ = explain(&mut rt.stderr(), words);
    }
}

/// Tells the outcome on standard error. That it can't be told changes nothing of it.
fn tell(rt: &HostRuntime, outcome: &Outcome) {
    let text = outcome.text();
    if !text.bytes().is_empty() {
        let _ = rt.stderr().write_all(text.bytes());
        let _ = rt.stderr().write_all(b"\n");
    }
}

fn main(rt: HostRuntime) -> ExitCode {
    let outcome = match command_words(&rt) {
        Ok(words) => run_with_help(&rt, &words),
        Err(outcome) => outcome,
    };
    tell(&rt, &outcome);
    ExitCode::from(outcome.status())
}
