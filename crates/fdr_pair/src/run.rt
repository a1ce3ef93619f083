//! The top call of the program that records on two disks.

ghost use Rattle.std.specs.Prelude.{◌≡◌, ◌⊎◌, ◌↔◌, ℕ, List, Option, false, map, string_bytes};
ghost use Rattle.fdr_pair.specs.PairWords.{fits_pair_form};
ghost use Rattle.fdr_pair.specs.PairAnswers.{table_refusal_of, recording_answer_of};
ghost use Rattle.fdr_pair.specs.PairStages.{EndsBeforeDisks, IsPastPairTable};
ghost use Rattle.fdr_pair.specs.PairDoing.{DoesPairAsMeant, IsPairTold};
ghost use Rattle.fdr_pair.specs.SideCounts.{CountsBoth};
ghost use Rattle.fdr_pair.specs.PairRun.{OnlyLooksAtPair, PairRun, RecordsPair, RunsPair};

use crate::fault::PairFault;
use crate::outcome::PairOutcome;
use crate::start::start_pair;
use crate::trace::record_trace;
use crate::words::{PairWordsFault, read_pair_words};
use fdr_check::Sound;
use fdr_io::{Input, Source};
use fdr_load::{LoadFault, load_table};
use fdr_recorder::SourceEnd;
use fdr_trace::TraceStop;
use fdr_twin::Twin;
use std::alloc::Global;

// The answer where a source gives no table.
fn table_refusal(fault: LoadFault) -> PairOutcome
    ensures { result ≡ table_refusal_of fault }
{
    match fault {
        LoadFault::Refused { row, fault } => PairOutcome::TableRefused { row, fault },
        LoadFault::Failed => PairOutcome::ReadFault(Input::Table),
        LoadFault::NoMemory => PairOutcome::NoMemory,
    }
}

// The answer to how a recording ended.
fn recording_answer(end: Result<SourceEnd, PairFault>) -> PairOutcome
    ensures { result ≡ recording_answer_of end }
{
    match end {
        Ok(SourceEnd::Ended) => PairOutcome::Done,
        Ok(SourceEnd::Stopped(TraceStop::Refused { index, fault })) => {
            PairOutcome::TraceRefused { index, fault }
        }
        Ok(SourceEnd::Stopped(TraceStop::Failed)) => PairOutcome::ReadFault(Input::Line),
        Err(PairFault::DiskFault) => PairOutcome::DiskFault,
        Err(PairFault::SeqEnd) => PairOutcome::SeqEnd,
    }
}

// Records the trace on the twin's line by a table.
fn record_pair<T: Twin>(alloc: Global, sound: &Sound, twin: &mut T) -> PairOutcome
    ensures records { (rest : Option (List ℕ)) (faults : ℕ) → RecordsPair sound.now (record {
      rest_before = rest;
      rest_now = rest;
      table_before = faults;
      table_now = faults;
      tells = T.tells;
      old = T.pair twin.old;
      new = T.pair twin.new;
      answer = result;
    }) }
    ensures past { IsPastPairTable result ⊎ (result ≡ PairOutcome.NoMemory) }
    ensures counts { CountsBoth (T.pair twin.old) (T.pair twin.new) }
    ensures memory { result ≡ PairOutcome.NoMemory → OnlyLooksAtPair T.tells (T.pair twin.old) (T.pair twin.new) result }
{
    match start_pair(alloc, sound, twin) {
        Ok(start) => {
            let mut trace = start.trace;
            recording_answer(record_trace(start.session, &mut trace, twin))
        }
        Err(answer) => answer,
    }
}

/// Runs what the words after the program's name ask for: `record TABLE FIRST SECOND` records the trace on the twin's line, by a
/// table, in the images on both of its disks. `table` gives the bytes of the table.
///
/// The images are compared, and the one that is behind is brought up to the other, which leads. Either disk may fail: the
/// recording goes on with the other, except that the lead may not fail while the other is brought up to it. Each answer says what
/// was done; its clauses say when it comes and what it leaves.
pub fn run_pair<T: Source, D: Twin>(
    alloc: Global,
    words: &[String],
    table: &mut T,
    twin: &mut D,
) -> PairOutcome
    // The words decide first, and where they aren't of the form nothing is touched.
    ensures usage { (result ≡ PairOutcome.Usage) ↔ (fits_pair_form (map string_bytes words.now) ≡ false) }
    ensures untouched { fits_pair_form (map string_bytes words.now) ≡ false → (table.new ≡ table.old) × (twin.new ≡ twin.old) }
    ensures disks_untouched { EndsBeforeDisks result → twin.new ≡ twin.old }

    // The recording does what it means.
    ensures means { (fits_pair_form (map string_bytes words.now) ≡ false → ⊥) → let r : PairRun = record {
      rest_before = T.rest table.old;
      rest_now = T.rest table.new;
      table_before = T.faults table.old;
      table_now = T.faults table.new;
      tells = D.tells;
      old = D.pair twin.old;
      new = D.pair twin.new;
      answer = result;
    } in IsPairTold r → DoesPairAsMeant r }

    // What is promised of the recording.
    ensures runs { (fits_pair_form (map string_bytes words.now) ≡ false → ⊥) → RunsPair (record {
      rest_before = T.rest table.old;
      rest_now = T.rest table.new;
      table_before = T.faults table.old;
      table_now = T.faults table.new;
      tells = D.tells;
      old = D.pair twin.old;
      new = D.pair twin.new;
      answer = result;
    }) }
{
    match read_pair_words(alloc, words) {
        Ok(_request) => match load_table(alloc, table) {
            Ok(sound) => record_pair(alloc, &sound, twin),
            Err(fault) => table_refusal(fault),
        },
        Err(PairWordsFault::Usage) => PairOutcome::Usage,
        Err(PairWordsFault::NoMemory) => PairOutcome::NoMemory,
    }
}
