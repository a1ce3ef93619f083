//! A recording that generates its own trace, and tells what the image then lists as.

ghost use Rattle.std.specs.Prelude.{◌≡◌, ◌≢◌, ◌⊎◌, ◌+◌, ◌≤◌, ℕ, List, [], ◌++◌, length, take, IsTrue};
ghost use Rattle.fdr_pieces.specs.Pieces.{LeavesStops};
ghost use Rattle.fdr_io.specs.Faults.{Rose};
ghost use Rattle.fdr_io.specs.Told.{followed_by};
ghost use Rattle.fdr_deck.specs.Disk.{KeepsDisk, LearnsExtent};
ghost use Rattle.fdr_frame.specs.WordCount.{IsWordCount};
ghost use Rattle.fdr_slot.specs.Limits.{IsInLimits};
ghost use Rattle.fdr_slot.specs.Places.{image_size};
ghost use Rattle.fdr_recover.specs.Images.{recovered_run};
ghost use Rattle.fdr_recover.specs.Looks.{Looks};
ghost use Rattle.fdr_gen.specs.Trace.{most_frames};
ghost use Rattle.fdr_readout.specs.Reading.{ReadsEvents, decided_past};
ghost use Rattle.fdr_readout.specs.Summary.{no_summary};
ghost use Rattle.fdr_table.specs.Ranges.{IsInRange};
ghost use Rattle.fdr_check.specs.Soundness.{IsSound};
ghost use Rattle.fdr_words.specs.Forms.{drill_image};
ghost use Rattle.fdr_top.specs.Stages.{WritesNothing};
ghost use Rattle.fdr_top.specs.Answers.{IsOwn, KeepsInputAndFaults};
ghost use Rattle.fdr_top.specs.Drill.{DrillsImage, drill_text, field_text};
ghost use Rattle.fdr_top.specs.Commands.{Works};
ghost use Rattle.fdr_top.specs.Sessions.{summary_of_blocks};
ghost use Rattle.fdr_top.specs.Refusals.{HasHeader};

use crate::ends::session_refusal;
use crate::listing::{ImageReader, open_image};
use crate::outcome::Outcome;
use crate::sessions::{BlockReader, take_blocks};
use fdr_check::Sound;
use fdr_deck::Deck;
use fdr_gen::Gen;
use fdr_io::{Failed, NullSink, Sink, write_whole};
use fdr_line::Line;
use fdr_readout::Summary;
use fdr_recorder::record_source;
use fdr_recover::BlocksFault;
use fdr_slot::Header;
use std::alloc::Global;

/// Adds a comma and a number, where there is room for the longest.
#[tactic(auto, using(fdr_line::proofs::Lengths::numbers))]
fn add_field(line: &mut Line, number: u64)
    requires { length line.old ≤ 75 }
    ensures text { line.new ≡ line.old ++ field_text number }
    ensures bounded { length line.new ≤ length line.old + 21 }
{
    line.add(b",");
    line.add_number(number);
}

/// The line of a drill that recorded `blocks` blocks: what the image then lists as.
#[tactic(auto, unfolding(crate::specs::Drill::drill_text))]
fn drill_line(blocks: u64, summary: &Summary) -> Line
    ensures { result ≡ drill_text blocks summary.now }
{
    let mut line = Line::new();
    line.add(b"drill");
    add_field(&mut line, blocks);
    add_field(&mut line, summary.frames);
    add_field(&mut line, summary.rows);
    add_field(&mut line, summary.sum);
    line.add(b"\n");
    line
}

/// Reads the blocks that an opened image holds, and writes the line of what they list as.
fn write_summary<D: Deck, O: Sink>(
    header: &Header,
    reader: &mut BlockReader<'_, Summary>,
    sound: &Sound,
    blocks: u64,
    deck: &mut D,
    out: &mut O,
) -> Outcome
    requires table { reader.old.table.now ≡ sound.now }
    requires fresh { ReadsEvents reader.old.table.now reader.old.events (decided_past reader.old.table.now.frame.words []) }
    requires unopened { reader.old.open_session ≡ None }
    requires version { reader.old.version ≡ header.now.version }
    requires nothing { reader.old.taker ≡ no_summary }
    requires limits { IsInLimits header.now }
    requires whole { image_size header.now ≤ (D.state deck.old).extent }
    ensures answer { (result ≡ Outcome.Done) ⊎ ((result ≡ Outcome.WriteFault) ⊎ (result ≡ Outcome.DiskFault)) }
    ensures text { result ≡ Outcome.Done → IsTrue D.tells.bytes → O.written out.new ≡ followed_by (O.written out.old)
        (drill_text blocks (summary_of_blocks sound.now header.now.version (recovered_run header.now (D.state deck.old).held))) }
    ensures part { result ≡ Outcome.WriteFault → IsTrue D.tells.bytes → (k : ℕ) × (O.written out.new ≡ followed_by (O.written out.old)
        (take k (drill_text blocks (summary_of_blocks sound.now header.now.version (recovered_run header.now (D.state deck.old).held))))) }
    ensures looks { Looks D.tells (D.state deck.old) (D.state deck.new) }
    ensures unread { result ≡ Outcome.DiskFault → out.new ≡ out.old }
    ensures disk_fault { result ≡ Outcome.DiskFault
        → Rose (D.state deck.old).disk_faults (D.state deck.new).disk_faults }
    ensures write_fault { result ≡ Outcome.WriteFault → Rose (O.faults out.old) (O.faults out.new) }
    ensures no_disk_fault { result ≢ Outcome.DiskFault → (D.state deck.new).disk_faults ≡ (D.state deck.old).disk_faults }
    ensures no_write_fault { result ≢ Outcome.WriteFault → O.faults out.new ≡ O.faults out.old }
{
    sound.holds();
    match take_blocks(header, reader, deck, &mut NullSink::new()) {
        Ok(()) => {}
        Err(BlocksFault::Disk) => return Outcome::DiskFault,
        Err(BlocksFault::Taker) => unreachable!(),
    }
    match write_whole(out, drill_line(blocks, &reader.taker).bytes()) {
        Ok(()) => Outcome::Done,
        Err(Failed) => Outcome::WriteFault,
    }
}

/// Records the trace of a seed in the deck's image by a table, and writes the line of what the image then lists as. All memory
/// is taken before the disk is written.
fn drill_image<D: Deck, O: Sink>(
    alloc: Global,
    sound: &Sound,
    seed: u64,
    frames: u32,
    deck: &mut D,
    out: &mut O,
) -> Outcome
    requires word_count { IsWordCount sound.now.frame.words }
    requires in_range { IsInRange sound.now }
    requires sound { IsSound sound.now }
    requires some_frames { 1 ≤ frames }
    requires frame_limit { frames ≤ most_frames }
    ensures answer { (path image : List ℕ) → (result ≡ Outcome.NoMemory) ⊎ IsOwn (drill_image path image seed frames) result }
    ensures drills { DrillsImage sound.now seed frames D.tells (D.state deck.old) (D.state deck.new)
        (O.written out.old) (O.written out.new) result }
    ensures untouched { WritesNothing result → KeepsDisk (D.state deck.old) (D.state deck.new) }
    ensures stops { WritesNothing result → LeavesStops D.tells (D.state deck.old) (D.state deck.new) }
    ensures announced { WritesNothing result → (D.state deck.new).announced ≡ (D.state deck.old).announced }
    ensures input { KeepsInputAndFaults (D.state deck.old) (D.state deck.new) }
    ensures learns { LearnsExtent D.tells (D.state deck.old) (D.state deck.new) }
    ensures disk_fault { result ≡ Outcome.DiskFault
        → Rose (D.state deck.old).disk_faults (D.state deck.new).disk_faults }
    ensures write_fault { result ≡ Outcome.WriteFault → Rose (O.faults out.old) (O.faults out.new) }
    ensures no_disk_fault { result ≢ Outcome.DiskFault → (D.state deck.new).disk_faults ≡ (D.state deck.old).disk_faults }
    ensures no_write_fault { result ≢ Outcome.WriteFault → O.faults out.new ≡ O.faults out.old }
    ensures memory { result ≡ Outcome.NoMemory → HasHeader D.tells (D.state deck.old) (D.state deck.new) }
    ensures unwritten { result ≢ Outcome.Done → result ≢ Outcome.WriteFault → out.new ≡ out.old }
{
    let reader = match open_image(alloc, sound, deck) {
        Ok(reader) => reader,
        Err(answer) => return answer,
    };
    let Ok(mut generator) = Gen::new(alloc, sound, seed, frames) else {
        return Outcome::NoMemory;
    };
    let recorded = match record_source(alloc, sound, &mut generator, deck) {
        Ok(recorded) => recorded,
        Err(fault) => return session_refusal(fault),
    };
    let ImageReader { header, events } = reader;
    let mut reader = BlockReader {
        events,
        table: sound.table(),
        version: header.version,
        open_session: None,
        taker: Summary::new(),
    };
    write_summary(&header, &mut reader, sound, recorded.blocks, deck, out)
}

/// `drill`: records the trace of a seed in the deck's image by a table, and writes a line of what the image then lists as.
pub fn drill<D: Deck, O: Sink>(
    alloc: Global,
    sound: &Sound,
    seed: u64,
    frames: u32,
    deck: &mut D,
    out: &mut O,
) -> Outcome
    requires word_count { IsWordCount sound.now.frame.words }
    requires in_range { IsInRange sound.now }
    requires sound { IsSound sound.now }
    requires some_frames { 1 ≤ frames }
    requires frame_limit { frames ≤ most_frames }
    ensures works { (path image : List ℕ) → Works (drill_image path image seed frames) sound.now (record {
      tells = D.tells;
      old = D.state deck.old;
      new = D.state deck.new;
      written_before = O.written out.old;
      written_now = O.written out.new;
      sink_before = O.faults out.old;
      sink_now = O.faults out.new;
      answer = result;
    }) }
    ensures memory { result ≡ Outcome.NoMemory → HasHeader D.tells (D.state deck.old) (D.state deck.new) }
{
    drill_image(alloc, sound, seed, frames, deck, out)
}
