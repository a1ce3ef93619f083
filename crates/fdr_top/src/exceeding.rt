//! The exceedances of rules in the blocks that an image holds.

ghost use Rattle.std.specs.Prelude.{◌≡◌, ◌≢◌, ◌⊎◌, ◌+◌, ◌≤◌, ◌<◌, ◌^◌, ◌++◌, ◌∷◌, ℕ, List, [], Err, None, length, take, IfOk, IfErr, OnOk, OnErr, IsTrue};
ghost use Rattle.fdr_pieces.specs.Pieces.{LeavesStops};
ghost use Rattle.fdr_io.specs.Faults.{Rose};
ghost use Rattle.fdr_io.specs.Limits.{piece_bytes};
ghost use Rattle.fdr_io.specs.Output.{Emits, EmitsPart};
ghost use Rattle.fdr_io.specs.Told.{followed_by};
ghost use Rattle.fdr_io.specs.declared.Input.TheVariants as input;
ghost use Rattle.fdr_deck.specs.Calls.{LeavesDisk};
ghost use Rattle.fdr_deck.specs.Disk.{KeepsDisk, LearnsExtent};
ghost use Rattle.fdr_check.specs.Soundness.{IsSound};
ghost use Rattle.fdr_frame.specs.WordCount.{IsWordCount};
ghost use Rattle.fdr_slot.specs.Limits.{IsInLimits};
ghost use Rattle.fdr_slot.specs.Places.{image_size};
ghost use Rattle.fdr_recover.specs.Images.{recovered_run};
ghost use Rattle.fdr_recover.specs.Looks.{Looks};
ghost use Rattle.fdr_exceed.specs.Exceedances.{WatchStep, RowStep, ResetStep, exceedances};
ghost use Rattle.fdr_exceed.specs.RuleFaults.{rules_fault};
ghost use Rattle.fdr_exceed.specs.Rules.{most_rule_bytes};
ghost use Rattle.fdr_exceed.specs.Watching.{RepresentsWatch};
ghost use Rattle.fdr_exceed.specs.Windows.{IsWatched};
ghost use Rattle.fdr_readout.specs.Reading.{ReadsEvents, decided_past};
ghost use Rattle.fdr_words.specs.Forms.{exceed_image};
ghost use Rattle.fdr_top.specs.Answers.{IsOwn, KeepsInputAndFaults};
ghost use Rattle.fdr_top.specs.Commands.{Works};
ghost use Rattle.fdr_top.specs.Exceed.{ExceedsImage, ExceedsRead, HasPulledRules, HasReadBlocks, HasRefusedRules, IsRulesAnswer, exceedances_of_blocks, rules_in, rules_refusal, text_of_lines};
ghost use Rattle.fdr_top.specs.Exceeding.{FailsInSteps, GivesSteps, HasTakenLines, WriterKept};
ghost use Rattle.fdr_top.specs.ExceedSound.{exceed_laws};
ghost use Rattle.fdr_top.specs.Refusals.{HasHeader};
ghost use Rattle.fdr_top.specs.Stages.{IsBeforeInput};

use crate::listing::{ImageReader, open_image};
use crate::outcome::Outcome;
use crate::sessions::{BlockReader, take_blocks};
use fdr_check::Sound;
use fdr_deck::Deck;
use fdr_exceed::{RuleFault, Rules, RulesError, Watch};
use fdr_io::{Failed, Input, OutBuffer, Sink};
use fdr_line::Line;
use fdr_pieces::{InputEnd, PieceTaker, take_pieces};
use fdr_readout::Taker;
use fdr_recon::Row;
use fdr_recover::BlocksFault;
use fdr_slot::Header;
use fdr_table::{NoMemory, Table};
use std::alloc::Global;
use std::marker::Model;

/// How many bytes the rules may have.
const MAX_RULE_BYTES: usize = 65_536;

/// How many rows a watch is given at most. No image has as many.
const MAX_ROWS: u64 = 1 << 63;

/// Watches the rows of what it takes, and writes the lines of the exceedances that they end. A clause sees it as the watch and the
/// bytes that wait to be written.
#[derive(Drop)]
pub struct ExceedanceWriter {
    watch: Watch,
    buffer: OutBuffer,
    // How many rows the watch was given.
    rows: u64,
}

impl Model for ExceedanceWriter {
    ghost use Rattle.std.specs.Prelude.{◌≡◌, []};
    ghost use Rattle.fdr_top.specs.Exceeding.{WriterKept};

    ghost Value = { WriterKept };

    ghost view = { λ w. record { watch = w.watch; waits = w.buffer } };

    ghost invariant = { λ w. (w.watch.due ≡ []) × (w.watch.rows ≡ w.rows) };
}

/// Drops the lines that weren't taken.
fn drop_lines(watch: &mut Watch)
    ensures none { watch.new.due ≡ [] }
    ensures rules { watch.new.rules ≡ watch.old.rules }
    ensures rows { watch.new.rows ≡ watch.old.rows }
{
    while watch.take().is_some() {}
}

/// Puts a line to what waits to be written. At `Failed` the lines that weren't taken are dropped.
fn put_line<O: Sink>(
    watch: &mut Watch,
    buffer: &mut OutBuffer,
    line: &Line,
    out: &mut O,
) -> Result<(), Failed>
    ensures all { OnOk result (Emits (O.written out.old) (O.written out.new) buffer.old buffer.new line.now) }
    ensures part { OnErr result (EmitsPart (O.written out.old) (O.written out.new) buffer.old line.now) }
    ensures same { OnOk result (watch.new ≡ watch.old) }
    ensures none { OnErr result (watch.new.due ≡ []) }
    ensures rules { watch.new.rules ≡ watch.old.rules }
    ensures rows { watch.new.rows ≡ watch.old.rows }
    ensures cause { OnErr result (Rose (O.faults out.old) (O.faults out.new)) }
    ensures no_fault { OnOk result (O.faults out.new ≡ O.faults out.old) }
    ensures monotone { O.faults out.old ≤ O.faults out.new }
{
    match buffer.add(out, line.bytes()) {
        Ok(()) => Ok(()),
        Err(Failed) => {
            drop_lines(watch);
            Err(Failed)
        }
    }
}

/// Puts the lines that weren't taken to what waits to be written. At `Failed` the rest of them are dropped.
fn write_lines<O: Sink>(
    watch: &mut Watch,
    buffer: &mut OutBuffer,
    out: &mut O,
) -> Result<(), Failed>
    ensures none { watch.new.due ≡ [] }
    ensures rules { watch.new.rules ≡ watch.old.rules }
    ensures rows { watch.new.rows ≡ watch.old.rows }
    ensures stands { (steps : List WatchStep) (taken : ℕ) → RepresentsWatch watch.old steps taken
        → OnOk result (HasTakenLines watch.new steps) }
    ensures all { (steps : List WatchStep) (taken : ℕ) → RepresentsWatch watch.old steps taken
        → OnOk result ((lines : List (List ℕ)) × (exceedances watch.old.rules steps ≡ take taken (exceedances watch.old.rules steps) ++ lines)
        × Emits (O.written out.old) (O.written out.new) buffer.old buffer.new (text_of_lines lines)) }
    ensures part { (steps : List WatchStep) (taken : ℕ) → RepresentsWatch watch.old steps taken
        → OnErr result ((lines : List (List ℕ)) × (exceedances watch.old.rules steps ≡ take taken (exceedances watch.old.rules steps) ++ lines)
        × EmitsPart (O.written out.old) (O.written out.new) buffer.old (text_of_lines lines)) }
    ensures cause { OnErr result (Rose (O.faults out.old) (O.faults out.new)) }
    ensures no_fault { OnOk result (O.faults out.new ≡ O.faults out.old) }
    ensures monotone { O.faults out.old ≤ O.faults out.new }
{
    while let Some(line) = watch.take() {
        put_line(watch, buffer, &line, out)?;
    }
    Ok(())
}

impl ExceedanceWriter {
    /// A writer of the exceedances that a watch finds, which was given nothing yet.
    fn new(watch: Watch, buffer: OutBuffer) -> ExceedanceWriter
        requires no_lines { watch.due ≡ [] }
        requires no_rows { watch.rows ≡ 0 }
        ensures { result ≡ record { watch = watch; waits = buffer } }
    {
        ExceedanceWriter {
            watch,
            buffer,
            rows: 0,
        }
    }

    /// Ends a stretch.
    fn end_stretch<O: Sink>(&mut self, out: &mut O) -> Result<(), Failed>
        ensures all { (steps : List WatchStep) → HasTakenLines self.old.watch steps
            → OnOk result (GivesSteps (O.written out.old) (O.written out.new) self.old self.new steps (ResetStep ∷ [])) }
        ensures part { (steps : List WatchStep) → HasTakenLines self.old.watch steps
            → OnErr result (FailsInSteps (O.written out.old) (O.written out.new) self.old steps (ResetStep ∷ [])) }
        ensures rules { self.new.watch.rules ≡ self.old.watch.rules }
        ensures rows { self.new.watch.rows ≡ self.old.watch.rows }
        ensures cause { OnErr result (Rose (O.faults out.old) (O.faults out.new)) }
        ensures no_fault { OnOk result (O.faults out.new ≡ O.faults out.old) }
        ensures monotone { O.faults out.old ≤ O.faults out.new }
    {
        self.watch.reset();
        write_lines(&mut self.watch, &mut self.buffer, out)
    }

    /// Takes a row, as long as there were fewer than 2^63.
    fn take_row<O: Sink>(&mut self, row: &Row, out: &mut O) -> Result<(), Failed>
        requires { IsWatched row.now.value }
        ensures all { (steps : List WatchStep) → self.old.watch.rows < 2 ^ 63 → HasTakenLines self.old.watch steps
            → OnOk result (GivesSteps (O.written out.old) (O.written out.new) self.old self.new steps (RowStep row.now ∷ [])) }
        ensures part { (steps : List WatchStep) → HasTakenLines self.old.watch steps
            → OnErr result (FailsInSteps (O.written out.old) (O.written out.new) self.old steps (RowStep row.now ∷ [])) }
        ensures rules { self.new.watch.rules ≡ self.old.watch.rules }
        ensures rows { self.old.watch.rows < 2 ^ 63 → self.new.watch.rows ≡ self.old.watch.rows + 1 }
        ensures cause { OnErr result (Rose (O.faults out.old) (O.faults out.new)) }
        ensures no_fault { OnOk result (O.faults out.new ≡ O.faults out.old) }
        ensures monotone { O.faults out.old ≤ O.faults out.new }
    {
        if MAX_ROWS <= self.rows {
            return Ok(());
        }
        self.watch.row(row);
        self.rows += 1;
        write_lines(&mut self.watch, &mut self.buffer, out)
    }

    /// Writes all that waits. At `Failed` a front part of it went out, and the rest is dropped.
    fn flush<O: Sink>(&mut self, out: &mut O) -> Result<(), Failed>
        ensures all { OnOk result (O.written out.new ≡ followed_by (O.written out.old) self.old.waits) }
        ensures part { OnErr result ((k : ℕ) × (O.written out.new ≡ followed_by (O.written out.old) (take k self.old.waits))) }
        ensures cause { OnErr result (Rose (O.faults out.old) (O.faults out.new)) }
        ensures no_fault { OnOk result (O.faults out.new ≡ O.faults out.old) }
        ensures monotone { O.faults out.old ≤ O.faults out.new }
    {
        self.buffer.finish(out)
    }

    /// Ends the last stretch, and writes all that waits.
    fn finish<O: Sink>(&mut self, out: &mut O) -> Result<(), Failed>
        ensures all { (steps : List WatchStep) → HasTakenLines self.old.watch steps → OnOk result ((lines : List (List ℕ))
            × (exceedances self.old.watch.rules (steps ++ ResetStep ∷ []) ≡ exceedances self.old.watch.rules steps ++ lines)
            × (O.written out.new ≡ followed_by (O.written out.old) (self.old.waits ++ text_of_lines lines))) }
        ensures part { (steps : List WatchStep) → HasTakenLines self.old.watch steps
            → OnErr result (FailsInSteps (O.written out.old) (O.written out.new) self.old steps (ResetStep ∷ [])) }
        ensures cause { OnErr result (Rose (O.faults out.old) (O.faults out.new)) }
        ensures no_fault { OnOk result (O.faults out.new ≡ O.faults out.old) }
    {
        self.end_stretch(out)?;
        self.flush(out)
    }
}

impl<O: Sink> Taker<O> for ExceedanceWriter {
    ghost use Rattle.fdr_top.specs.Exceeding.{FailsInEntries, TakesEntries};

    ghost took = { λ t before out_before now out_now entries.
        TakesEntries (O.written out_before) (O.written out_now) before now entries };

    ghost failed_in = { λ t before out_before out_now entries.
        FailsInEntries (O.written out_before) (O.written out_now) before entries };

    fn gap(&mut self, from: u64, bits: u64, out: &mut O) -> Result<(), Failed> {
        Ok(())
    }

    fn frame(&mut self, linked: bool, out: &mut O) -> Result<(), Failed> {
        if linked {
            return Ok(());
        }
        self.end_stretch(out)
    }

    fn row(&mut self, table: &Table, row: &Row, out: &mut O) -> Result<(), Failed> {
        self.take_row(row, out)
    }

    fn line(&mut self, line: &Line, out: &mut O) -> Result<(), Failed> {
        Ok(())
    }

    ghost laws = { exceed_laws O.written };
}

/// Gathers the bytes of rules.
#[derive(Drop)]
struct RuleBytes {
    bytes: Vec<u8>,
}

impl PieceTaker<()> for RuleBytes {
    ghost use Rattle.std.specs.Prelude.{◌≡◌, ◌++◌};

    type Stop = NoMemory;

    ghost took = { λ first out_first bytes last now out. now.bytes.items ≡ bytes ++ last };

    ghost stopped = { λ first out_first bytes last stop now out. Unit {0} };

    fn take(&mut self, piece: &[u8], out: &mut ()) -> Result<(), NoMemory> {
        match self.bytes.extend_from_slice(piece) {
            Ok(()) => Ok(()),
            Err(_) => Err(NoMemory),
        }
    }
}

/// Why no rules were read.
fn rules_refusal(error: RulesError) -> Outcome
    ensures { result ≡ rules_refusal error }
{
    match error {
        RulesError::Refused { row, fault } => Outcome::RuleRefused { row, fault },
        RulesError::NoMemory => Outcome::NoMemory,
    }
}

/// Reads the rules for a table's parameters that were pulled, where the input ended so.
fn read_rules(alloc: Global, end: InputEnd, bytes: &[u8], table: &Table) -> Result<Rules, Outcome>
    ensures end { IfOk result (λ rules. end ≡ InputEnd.End) }
    ensures rules { IfOk result (λ rules. rules ≡ rules_in table.now bytes.now) }
    ensures no_fault { IfOk result (λ rules. rules_fault table.now bytes.now ≡ None) }
    ensures refused { IfErr result (IsRulesAnswer table.now bytes.now end) }
    ensures fault { result ≡ Err (Outcome.ReadFault input.Line) → end ≡ InputEnd.Fault }
    ensures faulty { end ≡ InputEnd.Fault → result ≡ Err (Outcome.ReadFault input.Line) }
{
    match end {
        InputEnd::End => match Rules::read(alloc, bytes, table) {
            Ok(rules) => Ok(rules),
            Err(error) => Err(rules_refusal(error)),
        },
        InputEnd::Fault => Err(Outcome::ReadFault(Input::Line)),
        InputEnd::TooLong => Err(Outcome::RuleRefused {
            row: 0,
            fault: RuleFault::Size,
        }),
    }
}

/// Pulls the rules for a table's parameters from the deck's input, and reads them.
fn pull_rules<D: Deck>(alloc: Global, table: &Table, deck: &mut D) -> Result<Rules, Outcome>
    ensures rules { IfOk result (λ rules. (pulled : List ℕ) × (rules ≡ rules_in table.now pulled)
        × HasPulledRules table.now D.tells (D.state deck.old) (D.state deck.new) pulled) }
    ensures refused { IfErr result (λ answer. (pulled : List ℕ)
        × HasRefusedRules table.now D.tells (D.state deck.old) (D.state deck.new) pulled answer) }
    ensures input_fault { result ≡ Err (Outcome.ReadFault input.Line) → Rose (D.state deck.old).input_faults (D.state deck.new).input_faults }
    ensures no_input_fault { result ≢ Err (Outcome.ReadFault input.Line) → (D.state deck.new).input_faults ≡ (D.state deck.old).input_faults }
    ensures disk { LeavesDisk (D.state deck.old) (D.state deck.new) }
    ensures stops { LeavesStops D.tells (D.state deck.old) (D.state deck.new) }
    ensures announced { (D.state deck.new).announced ≡ (D.state deck.old).announced }
    ensures bounded { (D.state deck.new).taken ≤ (D.state deck.old).taken + most_rule_bytes + piece_bytes }
{
    let mut text = RuleBytes {
        bytes: Vec::new(alloc),
    };
    match take_pieces(&mut text, MAX_RULE_BYTES, deck, &mut ()) {
        Ok(end) => read_rules(alloc, end, &text.bytes, table),
        Err(NoMemory) => Err(Outcome::NoMemory),
    }
}

/// Reads the blocks that an opened image holds, and writes the exceedances in them. Where the disk fails, the lines go out that the
/// blocks before end.
fn write_exceedances<D: Deck, O: Sink>(
    header: &Header,
    blocks: &mut BlockReader<'_, ExceedanceWriter>,
    deck: &mut D,
    out: &mut O,
) -> Outcome
    requires fresh { ReadsEvents blocks.old.table.now blocks.old.events (decided_past blocks.old.table.now.frame.words []) }
    requires sound { IsSound blocks.old.table.now }
    requires unopened { blocks.old.open_session ≡ None }
    requires version { blocks.old.version ≡ header.now.version }
    requires empty { blocks.old.taker.waits ≡ [] }
    requires no_rows { blocks.old.taker.watch.rows ≡ 0 }
    requires watching { RepresentsWatch blocks.old.taker.watch [] 0 }
    requires limits { IsInLimits header.now }
    requires whole { image_size header.now ≤ (D.state deck.old).extent }
    ensures answer { (result ≡ Outcome.Done) ⊎ ((result ≡ Outcome.WriteFault) ⊎ (result ≡ Outcome.DiskFault)) }
    ensures text { result ≡ Outcome.Done → IsTrue D.tells.bytes → O.written out.new ≡ followed_by (O.written out.old)
        (exceedances_of_blocks blocks.old.taker.watch.rules blocks.old.table.now header.now.version
        (recovered_run header.now (D.state deck.old).held)) }
    ensures part { IsTrue D.tells.bytes → (k : ℕ) × (O.written out.new ≡ followed_by (O.written out.old)
        (take k (exceedances_of_blocks blocks.old.taker.watch.rules blocks.old.table.now header.now.version
        (recovered_run header.now (D.state deck.old).held)))) }
    ensures drained { result ≡ Outcome.DiskFault → IsTrue D.tells.bytes → (Rose (O.faults out.old) (O.faults out.new) → ⊥)
        → ExceedsRead blocks.old.taker.watch.rules blocks.old.table.now header.now.version
        (recovered_run header.now (D.state deck.old).held) (O.written out.old) (O.written out.new) }
    ensures looks { Looks D.tells (D.state deck.old) (D.state deck.new) }
    ensures disk_fault { result ≡ Outcome.DiskFault
        → Rose (D.state deck.old).disk_faults (D.state deck.new).disk_faults }
    ensures write_fault { result ≡ Outcome.WriteFault → Rose (O.faults out.old) (O.faults out.new) }
    ensures no_disk_fault { result ≢ Outcome.DiskFault → (D.state deck.new).disk_faults ≡ (D.state deck.old).disk_faults }
    ensures no_write_fault { result ≢ Outcome.WriteFault → result ≢ Outcome.DiskFault → O.faults out.new ≡ O.faults out.old }
{
    match take_blocks(header, blocks, deck, out) {
        Ok(()) => match blocks.taker.finish(out) {
            Ok(()) => Outcome::Done,
            Err(Failed) => Outcome::WriteFault,
        },
        Err(BlocksFault::Disk) => {
            let _ = blocks.taker.flush(out);
            Outcome::DiskFault
        }
        Err(BlocksFault::Taker) => Outcome::WriteFault,
    }
}

/// Makes what watches for the exceedances of rules, with no line that waits.
fn watching(alloc: Global, rules: Rules) -> Result<ExceedanceWriter, NoMemory>
    ensures stands { IfOk result (λ w. RepresentsWatch w.watch [] 0) }
    ensures rules { IfOk result (λ w. w.watch.rules ≡ rules) }
    ensures rows { IfOk result (λ w. w.watch.rows ≡ 0) }
    ensures waits { IfOk result (λ w. w.waits ≡ []) }
{
    let watch = Watch::new(alloc, rules)?;
    Ok(ExceedanceWriter::new(watch, OutBuffer::new(alloc)?))
}

/// Lists the exceedances of the rules on the deck's input in the blocks that its image holds.
fn list_exceedances<D: Deck, O: Sink>(
    alloc: Global,
    sound: &Sound,
    deck: &mut D,
    out: &mut O,
) -> Outcome
    requires { IsWordCount sound.now.frame.words }
    ensures answer { (path image : List ℕ) → (result ≡ Outcome.NoMemory) ⊎ IsOwn (exceed_image path image) result }
    ensures lists { ExceedsImage sound.now D.tells (D.state deck.old) (D.state deck.new)
        (O.written out.old) (O.written out.new) (O.faults out.old) (O.faults out.new) result }
    ensures before_input { IsBeforeInput result → KeepsInputAndFaults (D.state deck.old) (D.state deck.new) }
    ensures announced { (D.state deck.new).announced ≡ (D.state deck.old).announced }
    ensures bounded { (D.state deck.new).taken ≤ (D.state deck.old).taken + most_rule_bytes + piece_bytes }
    ensures input_fault { result ≡ Outcome.ReadFault input.Line → Rose (D.state deck.old).input_faults (D.state deck.new).input_faults }
    ensures no_input_fault { result ≢ Outcome.ReadFault input.Line → (D.state deck.new).input_faults ≡ (D.state deck.old).input_faults }
    ensures disk_fault { result ≡ Outcome.DiskFault
        → Rose (D.state deck.old).disk_faults (D.state deck.new).disk_faults }
    ensures write_fault { result ≡ Outcome.WriteFault → Rose (O.faults out.old) (O.faults out.new) }
    ensures no_disk_fault { result ≢ Outcome.DiskFault → (D.state deck.new).disk_faults ≡ (D.state deck.old).disk_faults }
    ensures no_write_fault { result ≢ Outcome.WriteFault → result ≢ Outcome.DiskFault → O.faults out.new ≡ O.faults out.old }
    ensures memory { result ≡ Outcome.NoMemory → HasHeader D.tells (D.state deck.old) (D.state deck.new) }
    ensures unwritten { (HasReadBlocks result → ⊥) → out.new ≡ out.old }
{
    sound.holds();
    let reader = match open_image(alloc, sound, deck) {
        Ok(reader) => reader,
        Err(answer) => return answer,
    };
    let rules = match pull_rules(alloc, sound.table(), deck) {
        Ok(rules) => rules,
        Err(answer) => return answer,
    };
    let Ok(taker) = watching(alloc, rules) else {
        return Outcome::NoMemory;
    };
    let ImageReader { header, events } = reader;
    let mut blocks = BlockReader {
        events,
        table: sound.table(),
        version: header.version,
        open_session: None,
        taker,
    };
    write_exceedances(&header, &mut blocks, deck, out)
}

/// `exceed`: lists where parameters leave the limits of the rules on the input, in the blocks that the deck's image holds.
pub fn exceed<D: Deck, O: Sink>(alloc: Global, sound: &Sound, deck: &mut D, out: &mut O) -> Outcome
    requires { IsWordCount sound.now.frame.words }
    ensures works { (path image : List ℕ) → Works (exceed_image path image) sound.now (record {
      tells = D.tells;
      old = D.state deck.old;
      new = D.state deck.new;
      written_before = O.written out.old;
      written_now = O.written out.new;
      sink_before = O.faults out.old;
      sink_now = O.faults out.new;
      answer = result;
    }) }
    ensures memory { result ≡ Outcome.NoMemory → HasHeader D.tells (D.state deck.old) (D.state deck.new) }
{
    list_exceedances(alloc, sound, deck, out)
}
