//! The listing of every run of blocks that an image still holds.

ghost use Rattle.std.specs.Prelude.{◌≡◌, ◌≢◌, ◌⊎◌, ◌+◌, ◌≤◌, ℕ, List, [], All, take, IfSome, OnOk, IsErrOf, IsTrue};
ghost use Rattle.fdr_io.specs.Faults.{Rose};
ghost use Rattle.fdr_io.specs.Told.{followed_by};
ghost use Rattle.fdr_frame.specs.WordCount.{IsWordCount};
ghost use Rattle.fdr_slot.specs.Limits.{IsInLimits};
ghost use Rattle.fdr_slot.specs.Places.{image_size};
ghost use Rattle.fdr_recover.specs.Looks.{Looks};
ghost use Rattle.fdr_resync.specs.Past.{ScannerPast};
ghost use Rattle.fdr_salvage.specs.declared.salvage.Run.{Run};
ghost use Rattle.fdr_salvage.specs.Runs.{HasBlockNumbers, run_length};
ghost use Rattle.fdr_readout.specs.Reading.{ReadsEvents};
ghost use Rattle.fdr_words.specs.Forms.{IsRingInBounds, salvage_image};
ghost use Rattle.fdr_top.specs.Stages.{WritesNothing};
ghost use Rattle.fdr_top.specs.Answers.{IsOwn};
ghost use Rattle.fdr_top.specs.Commands.{Works};
ghost use Rattle.fdr_top.specs.Refusals.{IsReadable};
ghost use Rattle.fdr_top.specs.Salvage.{AreRunsOf, entries_in_run, entries_in_runs, run_text, salvage_text, SalvagesImage, SalvagesRead};
ghost use Rattle.fdr_top.specs.Salvage.{TakesFirstOfRun, TakesFirstRuns};

use crate::listing::ImageReader;
use crate::outcome::Outcome;
use crate::ring_header::open_by;
use crate::sessions::{BlockReader, take_between};
use fdr_check::Sound;
use fdr_deck::Deck;
use fdr_io::{Failed, Sink};
use fdr_line::Line;
use fdr_readout::{LineWriter, Taker};
use fdr_recover::BlocksFault;
use fdr_salvage::{Run, SalvageFault, runs};
use fdr_slot::Header;
use std::alloc::Global;

/// The line of a run: the number of its first block, and how many blocks it has.
#[tactic(auto, using(fdr_line::proofs::Lengths::numbers), unfolding(crate::specs::Salvage::run_text))]
fn run_line(run: &Run) -> Line
    requires { run.now.first ≤ run.now.next }
    ensures { result ≡ run_text run.now.first (run_length run.now) }
{
    let mut line = Line::new();
    line.add(b"run,");
    line.add_number(run.first);
    line.add(b",");
    line.add_number(run.next - run.first);
    line.add(b"\n");
    line
}

/// Hands on the line of a run, and then all that is listed of its blocks. What was read before has nothing to do with them.
fn take_run<D: Deck, O: Sink, T: Taker<O>>(
    header: &Header,
    run: &Run,
    blocks: &mut BlockReader<'_, T>,
    deck: &mut D,
    out: &mut O,
) -> Result<(), BlocksFault>
    requires reads { (past : ScannerPast) × ReadsEvents blocks.old.table.now blocks.old.events past }
    requires version { blocks.old.version ≡ header.now.version }
    requires limits { IsInLimits header.now }
    requires whole { image_size header.now ≤ (D.state deck.old).extent }
    requires within { HasBlockNumbers run.now }
    requires room { run.now.next ≤ run.now.first + header.now.slots }
    ensures all { IsTrue D.tells.bytes → OnOk result (T.took blocks.old.table.now blocks.old.taker out.old blocks.new.taker out.new
        (entries_in_run blocks.old.table.now header.now (D.state deck.old).held run.now)) }
    ensures part { IsTrue D.tells.bytes → IsErrOf result BlocksFault.Taker
        → T.failed_in blocks.old.table.now blocks.old.taker out.old out.new
        (entries_in_run blocks.old.table.now header.now (D.state deck.old).held run.now) }
    ensures front { IsTrue D.tells.bytes → IsErrOf result BlocksFault.Disk → TakesFirstOfRun T.took blocks.old.table.now header.now
        (D.state deck.old).held run.now blocks.old.taker out.old blocks.new.taker out.new }
    ensures reads { OnOk result ((past : ScannerPast) × ReadsEvents blocks.old.table.now blocks.new.events past) }
    ensures table { OnOk result (blocks.new.table ≡ blocks.old.table) }
    ensures version { OnOk result (blocks.new.version ≡ blocks.old.version) }
    ensures disk_fault { IsErrOf result BlocksFault.Disk → Rose (D.state deck.old).disk_faults (D.state deck.new).disk_faults }
    ensures disk_unfailed { (IsErrOf result BlocksFault.Disk → ⊥)
        → (D.state deck.new).disk_faults ≡ (D.state deck.old).disk_faults }
    ensures write_fault { IsErrOf result BlocksFault.Taker → Rose (O.faults out.old) (O.faults out.new) }
    ensures write_unfailed { (IsErrOf result BlocksFault.Taker → ⊥) → O.faults out.new ≡ O.faults out.old }
    ensures looks { Looks D.tells (D.state deck.old) (D.state deck.new) }
{
    blocks.events.restart();
    blocks.open_session = None;
    match blocks.taker.line(&run_line(run), out) {
        Ok(()) => take_between(header, blocks, run.first, run.next, deck, out),
        Err(Failed) => Err(BlocksFault::Taker),
    }
}

/// Hands on the lines of runs and all that is listed of their blocks, one run after another.
fn take_runs<D: Deck, O: Sink, T: Taker<O>>(
    header: &Header,
    runs: &[Run],
    blocks: &mut BlockReader<'_, T>,
    deck: &mut D,
    out: &mut O,
) -> Result<(), BlocksFault>
    requires reads { (past : ScannerPast) × ReadsEvents blocks.old.table.now blocks.old.events past }
    requires version { blocks.old.version ≡ header.now.version }
    requires limits { IsInLimits header.now }
    requires whole { image_size header.now ≤ (D.state deck.old).extent }
    requires within { All HasBlockNumbers runs.now }
    requires room { All (λ (run : Run). run.next ≤ run.first + header.now.slots) runs.now }
    ensures all { IsTrue D.tells.bytes → OnOk result (T.took blocks.old.table.now blocks.old.taker out.old blocks.new.taker out.new
        (entries_in_runs blocks.old.table.now header.now (D.state deck.old).held runs.now)) }
    ensures part { IsTrue D.tells.bytes → IsErrOf result BlocksFault.Taker
        → T.failed_in blocks.old.table.now blocks.old.taker out.old out.new
        (entries_in_runs blocks.old.table.now header.now (D.state deck.old).held runs.now) }
    ensures front { IsTrue D.tells.bytes → IsErrOf result BlocksFault.Disk → TakesFirstRuns T.took
        blocks.old.table.now header.now (D.state deck.old).held runs.now blocks.old.taker out.old blocks.new.taker out.new }
    ensures disk_fault { IsErrOf result BlocksFault.Disk → Rose (D.state deck.old).disk_faults (D.state deck.new).disk_faults }
    ensures disk_unfailed { (IsErrOf result BlocksFault.Disk → ⊥)
        → (D.state deck.new).disk_faults ≡ (D.state deck.old).disk_faults }
    ensures write_fault { IsErrOf result BlocksFault.Taker → Rose (O.faults out.old) (O.faults out.new) }
    ensures write_unfailed { (IsErrOf result BlocksFault.Taker → ⊥) → O.faults out.new ≡ O.faults out.old }
    ensures looks { Looks D.tells (D.state deck.old) (D.state deck.new) }
{
    for run in runs {
        take_run(header, run, blocks, deck, out)?;
    }
    Ok(())
}

/// Reads the blocks of runs of an opened image, and lists them. Where the disk fails, the lines of the blocks before go out.
fn list_runs<D: Deck, O: Sink>(
    header: &Header,
    runs: &[Run],
    blocks: &mut BlockReader<'_, LineWriter>,
    deck: &mut D,
    out: &mut O,
) -> Outcome
    requires reads { (past : ScannerPast) × ReadsEvents blocks.old.table.now blocks.old.events past }
    requires version { blocks.old.version ≡ header.now.version }
    requires empty { blocks.old.taker ≡ [] }
    requires limits { IsInLimits header.now }
    requires whole { image_size header.now ≤ (D.state deck.old).extent }
    requires within { All HasBlockNumbers runs.now }
    requires room { All (λ (run : Run). run.next ≤ run.first + header.now.slots) runs.now }
    ensures answer { (result ≡ Outcome.Done) ⊎ ((result ≡ Outcome.WriteFault) ⊎ (result ≡ Outcome.DiskFault)) }
    ensures text { result ≡ Outcome.Done → IsTrue D.tells.bytes → AreRunsOf header.now (D.state deck.old).held runs.now
        → O.written out.new ≡ followed_by (O.written out.old) (salvage_text blocks.old.table.now header.now (D.state deck.old).held) }
    ensures part { IsTrue D.tells.bytes → AreRunsOf header.now (D.state deck.old).held runs.now
        → (k : ℕ) × (O.written out.new ≡ followed_by (O.written out.old)
        (take k (salvage_text blocks.old.table.now header.now (D.state deck.old).held))) }
    ensures drained { result ≡ Outcome.DiskFault → IsTrue D.tells.bytes → (Rose (O.faults out.old) (O.faults out.new) → ⊥)
        → AreRunsOf header.now (D.state deck.old).held runs.now
        → SalvagesRead blocks.old.table.now header.now (D.state deck.old).held (O.written out.old) (O.written out.new) }
    ensures looks { Looks D.tells (D.state deck.old) (D.state deck.new) }
    ensures disk_fault { result ≡ Outcome.DiskFault → Rose (D.state deck.old).disk_faults (D.state deck.new).disk_faults }
    ensures write_fault { result ≡ Outcome.WriteFault → Rose (O.faults out.old) (O.faults out.new) }
    ensures no_disk_fault { result ≢ Outcome.DiskFault → (D.state deck.new).disk_faults ≡ (D.state deck.old).disk_faults }
    ensures no_write_fault { result ≢ Outcome.WriteFault → result ≢ Outcome.DiskFault → O.faults out.new ≡ O.faults out.old }
{
    match take_runs(header, runs, blocks, deck, out) {
        Ok(()) => match blocks.taker.finish(out) {
            Ok(()) => Outcome::Done,
            Err(Failed) => Outcome::WriteFault,
        },
        Err(BlocksFault::Disk) => {
            let _ = blocks.taker.finish(out);
            Outcome::DiskFault
        }
        Err(BlocksFault::Taker) => Outcome::WriteFault,
    }
}

/// Finds the runs of an opened image, and lists their blocks. The memory for the runs is taken before a line is written.
fn list_found<D: Deck, O: Sink>(
    alloc: Global,
    header: &Header,
    blocks: &mut BlockReader<'_, LineWriter>,
    deck: &mut D,
    out: &mut O,
) -> Outcome
    requires reads { (past : ScannerPast) × ReadsEvents blocks.old.table.now blocks.old.events past }
    requires version { blocks.old.version ≡ header.now.version }
    requires empty { blocks.old.taker ≡ [] }
    requires limits { IsInLimits header.now }
    requires whole { image_size header.now ≤ (D.state deck.old).extent }
    ensures answer { (result ≡ Outcome.NoMemory)
        ⊎ ((result ≡ Outcome.Done) ⊎ ((result ≡ Outcome.WriteFault) ⊎ (result ≡ Outcome.DiskFault))) }
    ensures text { result ≡ Outcome.Done → IsTrue D.tells.bytes
        → O.written out.new ≡ followed_by (O.written out.old) (salvage_text blocks.old.table.now header.now (D.state deck.old).held) }
    ensures part { IsTrue D.tells.bytes → (k : ℕ) × (O.written out.new ≡ followed_by (O.written out.old)
        (take k (salvage_text blocks.old.table.now header.now (D.state deck.old).held))) }
    ensures drained { result ≡ Outcome.DiskFault → IsTrue D.tells.bytes → (Rose (O.faults out.old) (O.faults out.new) → ⊥)
        → (O.written out.new ≡ O.written out.old)
        ⊎ SalvagesRead blocks.old.table.now header.now (D.state deck.old).held (O.written out.old) (O.written out.new) }
    ensures looks { Looks D.tells (D.state deck.old) (D.state deck.new) }
    ensures disk_fault { result ≡ Outcome.DiskFault → Rose (D.state deck.old).disk_faults (D.state deck.new).disk_faults }
    ensures write_fault { result ≡ Outcome.WriteFault → Rose (O.faults out.old) (O.faults out.new) }
    ensures no_disk_fault { result ≢ Outcome.DiskFault → (D.state deck.new).disk_faults ≡ (D.state deck.old).disk_faults }
    ensures no_write_fault { result ≢ Outcome.WriteFault → result ≢ Outcome.DiskFault → O.faults out.new ≡ O.faults out.old }
    ensures no_memory { result ≡ Outcome.NoMemory → out.new ≡ out.old }
{
    let found = match runs(alloc, deck, header) {
        Ok(found) => found,
        Err(SalvageFault::DiskFault) => return Outcome::DiskFault,
        Err(SalvageFault::NoMemory) => return Outcome::NoMemory,
    };
    list_runs(header, &found, blocks, deck, out)
}

/// Lists every run of blocks of the deck's image by a table. All memory is taken before a line is written.
fn salvage_image<D: Deck, O: Sink>(
    alloc: Global,
    sound: &Sound,
    ring: Option<(u32, u32)>,
    deck: &mut D,
    out: &mut O,
) -> Outcome
    requires word_count { IsWordCount sound.now.frame.words }
    requires ring { IfSome ring (λ r. IsRingInBounds r.0 r.1) }
    ensures answer { (path image : List ℕ) → (result ≡ Outcome.NoMemory) ⊎ IsOwn (salvage_image path image ring) result }
    ensures salvages { SalvagesImage sound.now ring D.tells (D.state deck.old) (D.state deck.new)
        (O.written out.old) (O.written out.new) (O.faults out.old) (O.faults out.new) result }
    ensures disk_fault { result ≡ Outcome.DiskFault → Rose (D.state deck.old).disk_faults (D.state deck.new).disk_faults }
    ensures write_fault { result ≡ Outcome.WriteFault → Rose (O.faults out.old) (O.faults out.new) }
    ensures no_disk_fault { result ≢ Outcome.DiskFault → (D.state deck.new).disk_faults ≡ (D.state deck.old).disk_faults }
    ensures no_write_fault { result ≢ Outcome.WriteFault → result ≢ Outcome.DiskFault → O.faults out.new ≡ O.faults out.old }
    ensures memory { result ≡ Outcome.NoMemory → IsReadable ring D.tells (D.state deck.old) (D.state deck.new) }
    ensures unwritten { WritesNothing result → out.new ≡ out.old }
{
    let reader = match open_by(alloc, sound, ring, deck) {
        Ok(reader) => reader,
        Err(answer) => return answer,
    };
    let Ok(lines) = LineWriter::new(alloc) else {
        return Outcome::NoMemory;
    };
    let ImageReader { header, events } = reader;
    let mut blocks = BlockReader {
        events,
        table: sound.table(),
        version: header.version,
        open_session: None,
        taker: lines,
    };
    list_found(alloc, &header, &mut blocks, deck, out)
}

/// `salvage`: lists every run of blocks that the deck's image still holds by a table, in version 2 each session of a run by
/// itself. The image is read by its header, or by slots and their payload where they are given.
pub fn salvage<D: Deck, O: Sink>(
    alloc: Global,
    sound: &Sound,
    ring: Option<(u32, u32)>,
    deck: &mut D,
    out: &mut O,
) -> Outcome
    requires word_count { IsWordCount sound.now.frame.words }
    requires ring { IfSome ring (λ r. IsRingInBounds r.0 r.1) }
    ensures works { (path image : List ℕ) → Works (salvage_image path image ring) sound.now (record {
      tells = D.tells;
      old = D.state deck.old;
      new = D.state deck.new;
      written_before = O.written out.old;
      written_now = O.written out.new;
      sink_before = O.faults out.old;
      sink_now = O.faults out.new;
      answer = result;
    }) }
    ensures memory { result ≡ Outcome.NoMemory → IsReadable ring D.tells (D.state deck.old) (D.state deck.new) }
{
    salvage_image(alloc, sound, ring, deck, out)
}
