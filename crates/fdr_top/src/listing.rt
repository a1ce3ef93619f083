//! The listing of the blocks that an image holds.

ghost use Rattle.std.specs.Prelude.{◌≡◌, ◌⊎◌, ◌<◌, ◌≤◌, ℕ, List, [], take, IfOk, IfErr, IsTrue, ◌≢◌, Err};
ghost use Rattle.fdr_io.specs.Faults.{Rose};
ghost use Rattle.fdr_io.specs.Told.{followed_by};
ghost use Rattle.fdr_frame.specs.WordCount.{IsWordCount};
ghost use Rattle.fdr_slot.specs.Limits.{IsInLimits};
ghost use Rattle.fdr_slot.specs.Places.{image_size};
ghost use Rattle.fdr_recover.specs.Images.{recovered_run};
ghost use Rattle.fdr_recover.specs.Looks.{Looks};
ghost use Rattle.fdr_readout.specs.Reading.{ReadsEvents, decided_past};
ghost use Rattle.fdr_words.specs.Forms.{list_image};
ghost use Rattle.fdr_top.specs.Stages.{WritesNothing};
ghost use Rattle.fdr_top.specs.Answers.{IsOwn};
ghost use Rattle.fdr_top.specs.List.{IsOpened, RefusesOpening, ListsImage, ListsRead, opening_refusal};
ghost use Rattle.fdr_top.specs.Recover.{OnlyLooks};
ghost use Rattle.fdr_top.specs.Refusals.{RefusesImage, HasHeader};
ghost use Rattle.fdr_top.specs.Commands.{Works};
ghost use Rattle.fdr_top.specs.Sessions.{listing_of_blocks};

use crate::outcome::Outcome;
use crate::sessions::{BlockReader, take_blocks};
use fdr_check::Sound;
use fdr_deck::Deck;
use fdr_io::{Failed, Sink};
use fdr_readout::{EventReader, LineWriter};
use fdr_recover::{BlocksFault, HeaderFault, read_header_for};
use fdr_slot::Header;
use std::alloc::Global;

/// The words in a subframe by a table.
pub(crate) fn words_of(sound: &Sound) -> u32
    ensures { result ≡ sound.now.frame.words }
{
    sound.table().frame().words
}

/// The header of an image, and what reads the bits of its blocks.
#[derive(Drop)]
pub struct ImageReader {
    pub header: Header,
    pub events: EventReader,
}

/// The answer where no header for the table's frames is answered.
fn refusal(fault: HeaderFault) -> Outcome
    ensures { result ≡ opening_refusal fault }
{
    match fault {
        HeaderFault::Image(fault) => Outcome::ImageRefused(fault),
        HeaderFault::WordsDiffer { image, table } => Outcome::WordsDiffer { image, table },
        HeaderFault::DiskFault => Outcome::DiskFault,
    }
}

/// Reads the header of the deck's image, which has to be for the table's frames, and takes all memory for reading its bits.
pub fn open_image<D: Deck>(
    alloc: Global,
    sound: &Sound,
    deck: &mut D,
) -> Result<ImageReader, Outcome>
    requires { IsWordCount sound.now.frame.words }
    ensures opened { IfOk result (IsOpened sound.now D.tells (D.state deck.old) (D.state deck.new)) }
    ensures refused { IfErr result (RefusesImage sound.now D.tells (D.state deck.old) (D.state deck.new)) }
    ensures shut { IfErr result RefusesOpening }
    ensures memory { IfErr result (λ answer. answer ≡ Outcome.NoMemory → HasHeader D.tells (D.state deck.old) (D.state deck.new)) }
    ensures looks { OnlyLooks D.tells (D.state deck.old) (D.state deck.new) }
    ensures disk_fault { IfErr result (λ answer. answer ≡ Outcome.DiskFault
        → Rose (D.state deck.old).disk_faults (D.state deck.new).disk_faults) }
    ensures no_disk_fault { result ≢ Err Outcome.DiskFault → (D.state deck.new).disk_faults ≡ (D.state deck.old).disk_faults }
{
    let header = match read_header_for(deck, words_of(sound)) {
        Ok(header) => header,
        Err(fault) => return Err(refusal(fault)),
    };
    let Ok(events) = EventReader::new(alloc, sound) else {
        return Err(Outcome::NoMemory);
    };
    Ok(ImageReader { header, events })
}

/// Reads the blocks that an opened image holds, and lists them. Where the disk fails, the lines of the blocks before go out.
fn list_blocks<D: Deck, O: Sink>(
    header: &Header,
    blocks: &mut BlockReader<'_, LineWriter>,
    deck: &mut D,
    out: &mut O,
) -> Outcome
    requires fresh { ReadsEvents blocks.old.table.now blocks.old.events (decided_past blocks.old.table.now.frame.words []) }
    requires unopened { blocks.old.open_session ≡ None }
    requires version { blocks.old.version ≡ header.now.version }
    requires empty { blocks.old.taker ≡ [] }
    requires limits { IsInLimits header.now }
    requires whole { image_size header.now ≤ (D.state deck.old).extent }
    ensures answer { (result ≡ Outcome.Done) ⊎ ((result ≡ Outcome.WriteFault) ⊎ (result ≡ Outcome.DiskFault)) }
    ensures text { result ≡ Outcome.Done → IsTrue D.tells.bytes → O.written out.new ≡ followed_by (O.written out.old)
        (listing_of_blocks blocks.old.table.now header.now.version (recovered_run header.now (D.state deck.old).held)) }
    ensures part { IsTrue D.tells.bytes → (k : ℕ) × (O.written out.new ≡ followed_by (O.written out.old)
        (take k (listing_of_blocks blocks.old.table.now header.now.version (recovered_run header.now (D.state deck.old).held)))) }
    ensures drained { result ≡ Outcome.DiskFault → IsTrue D.tells.bytes → (Rose (O.faults out.old) (O.faults out.new) → ⊥)
        → ListsRead blocks.old.table.now header.now.version (recovered_run header.now (D.state deck.old).held)
        (O.written out.old) (O.written out.new) }
    ensures looks { Looks D.tells (D.state deck.old) (D.state deck.new) }
    ensures disk_fault { result ≡ Outcome.DiskFault
        → Rose (D.state deck.old).disk_faults (D.state deck.new).disk_faults }
    ensures write_fault { result ≡ Outcome.WriteFault → Rose (O.faults out.old) (O.faults out.new) }
    ensures no_disk_fault { result ≢ Outcome.DiskFault → (D.state deck.new).disk_faults ≡ (D.state deck.old).disk_faults }
    ensures no_write_fault { result ≢ Outcome.WriteFault → result ≢ Outcome.DiskFault → O.faults out.new ≡ O.faults out.old }
{
    match take_blocks(header, blocks, deck, out) {
        Ok(()) => match blocks.taker.finish(out) {
            Ok(()) => Outcome::Done,
            Err(Failed) => Outcome::WriteFault,
        },
        Err(BlocksFault::Disk) => {
            let _ = blocks.taker.finish(out);
            Outcome::DiskFault
        }
        Err(BlocksFault::Taker) => Outcome::WriteFault,
    }
}

/// Lists the blocks that the deck's image holds by a table. All memory is taken before a block is read.
fn list_image<D: Deck, O: Sink>(alloc: Global, sound: &Sound, deck: &mut D, out: &mut O) -> Outcome
    requires { IsWordCount sound.now.frame.words }
    ensures answer { (path image : List ℕ) → (result ≡ Outcome.NoMemory) ⊎ IsOwn (list_image path image) result }
    ensures lists { ListsImage sound.now D.tells (D.state deck.old) (D.state deck.new)
        (O.written out.old) (O.written out.new) (O.faults out.old) (O.faults out.new) result }
    ensures disk_fault { result ≡ Outcome.DiskFault
        → Rose (D.state deck.old).disk_faults (D.state deck.new).disk_faults }
    ensures write_fault { result ≡ Outcome.WriteFault → Rose (O.faults out.old) (O.faults out.new) }
    ensures no_disk_fault { result ≢ Outcome.DiskFault → (D.state deck.new).disk_faults ≡ (D.state deck.old).disk_faults }
    ensures no_write_fault { result ≢ Outcome.WriteFault → result ≢ Outcome.DiskFault → O.faults out.new ≡ O.faults out.old }
    ensures memory { result ≡ Outcome.NoMemory → HasHeader D.tells (D.state deck.old) (D.state deck.new) }
    ensures unwritten { WritesNothing result → out.new ≡ out.old }
{
    let ImageReader { header, events } = match open_image(alloc, sound, deck) {
        Ok(reader) => reader,
        Err(answer) => return answer,
    };
    let Ok(lines) = LineWriter::new(alloc) else {
        return Outcome::NoMemory;
    };
    let mut blocks = BlockReader {
        events,
        table: sound.table(),
        version: header.version,
        open_session: None,
        taker: lines,
    };
    list_blocks(&header, &mut blocks, deck, out)
}

/// `list`: lists the blocks that the deck's image holds by a table, in version 2 each session by itself.
pub fn list<D: Deck, O: Sink>(alloc: Global, sound: &Sound, deck: &mut D, out: &mut O) -> Outcome
    requires { IsWordCount sound.now.frame.words }
    ensures works { (path image : List ℕ) → Works (list_image path image) sound.now (record {
      tells = D.tells;
      old = D.state deck.old;
      new = D.state deck.new;
      written_before = O.written out.old;
      written_now = O.written out.new;
      sink_before = O.faults out.old;
      sink_now = O.faults out.new;
      answer = result;
    }) }
    ensures memory { result ≡ Outcome.NoMemory → HasHeader D.tells (D.state deck.old) (D.state deck.new) }
{
    list_image(alloc, sound, deck, out)
}
