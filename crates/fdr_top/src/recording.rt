//! Recording the trace of a deck's input in the image on its disk.

ghost use Rattle.std.specs.Prelude.{◌≡◌, ◌≢◌, ◌⊎◌, ℕ, List, Option};
ghost use Rattle.fdr_pieces.specs.Pieces.{LeavesStops};
ghost use Rattle.fdr_io.specs.Faults.{Rose};
ghost use Rattle.fdr_deck.specs.Disk.{KeepsDisk, LearnsExtent};
ghost use Rattle.fdr_recorder.specs.Ends.{RecordingEnd};
ghost use Rattle.fdr_recorder.specs.Supplied.{RecordsSupply};
ghost use Rattle.fdr_recorder.specs.Supply.{line_trace};
ghost use Rattle.fdr_words.specs.Forms.{record_line};
ghost use Rattle.fdr_top.specs.Stages.{WritesNothing};
ghost use Rattle.fdr_top.specs.Answers.{IsOwn, KeepsInputAndFaults};
ghost use Rattle.fdr_top.specs.Ends.{recording_answer};
ghost use Rattle.fdr_top.specs.Refusals.{HasHeader};
ghost use Rattle.fdr_top.specs.Commands.{Works};
ghost use Rattle.fdr_table.specs.Ranges.{IsInRange};
ghost use Rattle.fdr_check.specs.Soundness.{IsSound};
ghost use Rattle.fdr_top.specs.Leaves.{IsCutShort};

use crate::ends::{session_refusal, source_answer};
use crate::outcome::Outcome;
use fdr_check::Sound;
use fdr_deck::Deck;
use fdr_io::Input;
use fdr_recorder::record_source;
use fdr_trace::TraceLine;
use std::alloc::Global;

/// Records the trace of the deck's input by a table. All memory is taken before the disk is written.
fn record_line<D: Deck>(alloc: Global, sound: &Sound, deck: &mut D) -> Outcome
    ensures memory { result ≡ Outcome.NoMemory → (deck.new ≡ deck.old) ⊎ HasHeader D.tells (D.state deck.old) (D.state deck.new) }
    ensures records { (end : RecordingEnd) × (result ≡ recording_answer end)
        × RecordsSupply line_trace sound.now D.tells (D.state deck.old) (D.state deck.new) end }
    ensures answer { (path image : List ℕ) → (result ≡ Outcome.NoMemory) ⊎ IsOwn (record_line path image) result }
    ensures untouched { WritesNothing result → KeepsDisk (D.state deck.old) (D.state deck.new) }
    ensures stops { WritesNothing result → LeavesStops D.tells (D.state deck.old) (D.state deck.new) }
    ensures announced { WritesNothing result → (D.state deck.new).announced ≡ (D.state deck.old).announced }
    ensures input { WritesNothing result → KeepsInputAndFaults (D.state deck.old) (D.state deck.new) }
    ensures learns { LearnsExtent D.tells (D.state deck.old) (D.state deck.new) }
    ensures input_fault { result ≡ Outcome.ReadFault Input.Line
        → Rose (D.state deck.old).input_faults (D.state deck.new).input_faults }
    ensures disk_fault { result ≡ Outcome.DiskFault
        → Rose (D.state deck.old).disk_faults (D.state deck.new).disk_faults }
    ensures no_disk_fault { result ≢ Outcome.DiskFault → (D.state deck.new).disk_faults ≡ (D.state deck.old).disk_faults }
    ensures no_input_fault { result ≢ Outcome.ReadFault Input.Line → (IsCutShort result → ⊥)
        → (D.state deck.new).input_faults ≡ (D.state deck.old).input_faults }
{
    let Ok(mut trace) = TraceLine::new(alloc) else {
        return Outcome::NoMemory;
    };
    match record_source(alloc, sound, &mut trace, deck) {
        Ok(recorded) => source_answer(recorded.end),
        Err(fault) => session_refusal(fault),
    }
}

/// `record`: records the trace of the input in the image by a table.
pub fn record<D: Deck>(alloc: Global, sound: &Sound, deck: &mut D) -> Outcome
    requires in_range { IsInRange sound.now }
    requires sound { IsSound sound.now }
    ensures works { (path image : List ℕ) (written : Option (List ℕ)) (faults : ℕ)
        → Works (record_line path image) sound.now (record {
          tells = D.tells;
          old = D.state deck.old;
          new = D.state deck.new;
          written_before = written;
          written_now = written;
          sink_before = faults;
          sink_now = faults;
          answer = result;
        }) }
    ensures memory { result ≡ Outcome.NoMemory → (deck.new ≡ deck.old) ⊎ HasHeader D.tells (D.state deck.old) (D.state deck.new) }
{
    record_line(alloc, sound, deck)
}
