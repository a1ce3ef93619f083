//! The program `fdrpair`: a recorder on two disks, over files and standard streams.
#![tactic(auto)]

mod usage;

use fdr_adapters::{image_over, source_over, tell_cause, twin_over};
use fdr_io::Input;
use fdr_pair::{PairOutcome, PairWordsFault, read_pair_words, run_pair};
use fdr_storage_deck::{ImageFile, Window};
use fdr_storage_system::SystemFile;
use fdr_twin::Side;
use std::env::Env;
use std::io::{ErrorKind, IsTerminal, Write};
use std::process::ExitCode;
use std::{env, io};
use usage::explain;

/// The words after the program's name. A word that isn't text is none of the command's.
fn command_words(rt: &(impl Env + AllocGlobal)) -> Result<Vec<String>, PairOutcome> {
    let mut words = Vec::new(rt.alloc());
    for word in env::args(rt).map_err(outcome_of_words)?.skip(1) {
        words.push(word).map_err(|_| PairOutcome::NoMemory)?;
    }
    Ok(words)
}

fn outcome_of_words(error: io::Error) -> PairOutcome {
    match error.kind() {
        io::ErrorKind::OutOfMemory => PairOutcome::NoMemory,
        _ => PairOutcome::Usage,
    }
}

/// Records over the files that the words name and the standard streams. The input is read no further than it is pulled.
fn record_on_files(rt: &HostRuntime, words: &[String]) -> PairOutcome {
    let request = match read_pair_words(rt.alloc(), words) {
        Ok(request) => request,
        Err(PairWordsFault::Usage) => return PairOutcome::Usage,
        Err(PairWordsFault::NoMemory) => return PairOutcome::NoMemory,
    };
    let mut table = source_over(rt, request.table.text());
    let first = image_of(rt, request.first.text());
    let second = image_of(rt, request.second.text());
    let mut twin = twin_over(first, second, rt.stdin(), rt.stderr());
    let outcome = run_pair(rt.alloc(), words, &mut table, &mut twin);
    tell(rt, request.first.text(), twin.why(Side::First));
    tell(rt, request.second.text(), twin.why(Side::Second));
    match &outcome {
        PairOutcome::ReadFault(Input::Table) => tell(rt, request.table.text(), table.why()),
        PairOutcome::ReadFault(Input::Line) => tell(rt, "standard input", twin.why_of_input()),
        _ => {}
    }
    outcome
}

/// The image at this path. Until it is written it is read through a window, if there is memory for one.
fn image_of<'a>(rt: &'a HostRuntime, path: &'a str) -> ImageFile<SystemFile<'a, HostRuntime>> {
    let image = image_over(rt, path, true);
    match Window::new(rt.alloc()) {
        Ok(window) => image.seen_through(window),
        Err(_) => image,
    }
}

/// Tells on standard error why a call of the system did nothing, if one did.
fn tell(rt: &HostRuntime, name: &str, cause: Option<ErrorKind>) {
    if let Some(cause) = cause {
        tell_cause(&mut rt.stderr(), "fdrpair", name, cause);
    }
}

fn record_with_help(rt: &HostRuntime, words: &[String]) -> PairOutcome {
    let outcome = record_on_files(rt, words);
    if matches!(&outcome, PairOutcome::Usage) {
        help(rt, words);
    }
    outcome
}

/// Writes what helps with the words, where a person reads: to a pipe the answer's text goes alone.
fn help(rt: &HostRuntime, words: &[String]) {
    if rt.stderr().is_terminal() {
        let _ = explain(&mut rt.stderr(), words);
    }
}

/// Tells the outcome on standard error. That it can't be told changes nothing of it.
fn tell_outcome(rt: &HostRuntime, outcome: &PairOutcome) {
    let text = outcome.text();
    if !text.bytes().is_empty() {
        let _ = rt.stderr().write_all(text.bytes());
        let _ = rt.stderr().write_all(b"\n");
    }
}

fn main(rt: HostRuntime) -> ExitCode {
    let outcome = match command_words(&rt) {
        Ok(words) => record_with_help(&rt, &words),
        Err(outcome) => outcome,
    };
    tell_outcome(&rt, &outcome);
    ExitCode::from(outcome.status())
}
