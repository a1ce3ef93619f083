//! The events of bytes that come in pieces, one after another, with the rows of their frames. Other bytes may follow, whose
//! events are read anew.

ghost use Rattle.std.specs.Prelude.{◌≡◌, ◌+◌, ◌*◌, ◌≤◌, ◌<◌, ◌^◌, ℕ, List, [], ◌∷◌, ◌++◌, false, Some, length, min, take, IfOk, IfSome, OnSome, IsSome, IsNone};
ghost use Rattle.fdr_table.specs.Rows.{TableRows};
ghost use Rattle.fdr_sync.specs.Events.{events_of};
ghost use Rattle.fdr_bits.specs.Bits.{bits_in};
ghost use Rattle.fdr_recon.specs.Rows.{ReadFrame};
ghost use Rattle.fdr_recon.specs.Past.{RepresentsRebuild, read_frame};
ghost use Rattle.fdr_readout.specs.Listing.{frame_words};
ghost use Rattle.fdr_resync.specs.Past.{ScannerPast, RepresentsScanner, scanner_with_bytes, scanner_with_events, scanner_finished, known_events, bytes_pushed, bits_left};
ghost use Rattle.fdr_resync.specs.Answers.{answered_event, answered_events};
ghost use Rattle.fdr_readout.specs.Reading.{MayGoOn, ReadsEvents, decided_past};

use fdr_check::Sound;
use fdr_layout::Layout;
use fdr_recon::Rebuild;
use fdr_resync::{Event, Scanner, adjacent_after_a_frame, stays_decided};
use fdr_table::NoMemory;
use std::alloc::Global;

/// Reads the events of bytes that come in pieces, 268,435,456 at most, and then, once it is restarted, those of other bytes.
/// It takes all its memory when it is made.
#[derive(Drop)]
pub struct EventReader {
    scanner: Scanner,
    pub(crate) rebuild: Rebuild,
    words: Vec<u16>,
    // Whether the last event was a frame.
    after_frame: bool,
}

impl EventReader {
    /// Takes the memory for reading the events of bytes by a table.
    pub fn new(alloc: Global, sound: &Sound) -> Result<EventReader, NoMemory>
        ensures { IfOk result (λ r. ReadsEvents sound.now r (decided_past sound.now.frame.words [])) }
    {
        sound.holds();
        stays_decided();
        let count = word_count(sound);
        let layout = Layout::make(alloc, sound)?;
        let rebuild = Rebuild::new(alloc, layout, sound)?;
        let Ok(scanner) = Scanner::new(alloc, count) else {
            return Err(NoMemory);
        };
        let words = vec![in alloc; 0u16; 4 * count as usize]?;
        Ok(EventReader {
            scanner,
            rebuild,
            words,
            after_frame: false,
        })
    }

    /// Begins a new bit list: no byte of it came yet, and what was read before counts no more. Takes no memory.
    pub fn restart(&mut self)
        ensures { (t : TableRows) (past : ScannerPast) → ReadsEvents t self.old past
            → ReadsEvents t self.new (decided_past t.frame.words []) }
    {
        stays_decided();
        self.scanner.restart();
        self.after_frame = false;
    }

    /// Takes bytes from the front of a piece, and answers how many: of up to 4,096 all, where all known events were taken.
    pub(crate) fn push(&mut self, piece: &[u8]) -> usize
        requires open { self.old.scanner.ended ≡ false }
        requires limit { bytes_pushed self.old.scanner + length piece.now ≤ 2 ^ 28 }
        ensures front { result ≤ length piece.now }
        ensures stands { (t : TableRows) (past : ScannerPast) → ReadsEvents t self.old past
            → ReadsEvents t self.new (scanner_with_bytes past (take result piece.now)) }
        ensures room { (t : TableRows) (past : ScannerPast) → ReadsEvents t self.old past → past.taken ≡ known_events past
            → min 4096 (length piece.now) ≤ result }
        ensures pushed { bytes_pushed self.new.scanner ≡ bytes_pushed self.old.scanner + result }
        ensures still_open { self.new.scanner.ended ≡ false }
    {
        self.scanner.push(piece)
    }

    /// Says that no further byte comes.
    pub(crate) fn finish(&mut self)
        ensures { (t : TableRows) (past : ScannerPast) → ReadsEvents t self.old past → ReadsEvents t self.new (scanner_finished past) }
    {
        self.scanner.finish();
    }

    /// The next event, as soon as it is known. A frame has been read then.
    pub(crate) fn next(&mut self) -> Option<Event>
        requires { (t : TableRows) × (past : ScannerPast) × ReadsEvents t self.old past }
        ensures stands { (t : TableRows) (past : ScannerPast) → ReadsEvents t self.old past
            → ReadsEvents t self.new (scanner_with_events past (answered_events result)) }
        ensures ahead { (t : TableRows) (past : ScannerPast) (more : List ℕ) → ReadsEvents t self.old past → MayGoOn past more
            → IfSome result (λ e. (after : List Rattle.fdr_sync.specs.Events.Event)
            × (events_of (past.bytes ++ more) past.words ≡ past.taken ++ answered_event e ∷ after)) }
        ensures none { (t : TableRows) (past : ScannerPast) → ReadsEvents t self.old past
            → IsNone result → past.taken ≡ known_events past }
        ensures pushed { bytes_pushed self.new.scanner ≡ bytes_pushed self.old.scanner }
        ensures ended { self.new.scanner.ended ≡ self.old.scanner.ended }
        ensures nearer { OnSome result (bits_left self.new.scanner < bits_left self.old.scanner) }
    {
        stays_decided();
        adjacent_after_a_frame();
        let Some(event) = self.scanner.take() else {
            return None;
        };
        match event {
            Event::Frame { .. } => {
                read_frame(
                    &self.scanner,
                    &mut self.rebuild,
                    &mut self.words,
                    self.after_frame,
                );
                self.after_frame = true;
            }
            Event::Gap { .. } => self.after_frame = false,
        }
        Some(event)
    }
}

/// Reads the frame that the scanner gave last.
#[tactic(auto, unfolding(crate::specs::Listing::frame_words))]
fn read_frame(scanner: &Scanner, rebuild: &mut Rebuild, words: &mut [u16], adjacent: bool)
    requires frame { IsSome scanner.now.frame }
    requires room { length words.old ≡ 4 * scanner.now.words }
    requires shape { rebuild.old.frame.words ≡ scanner.now.words }
    ensures room { length words.new ≡ length words.old }
    ensures rebuild { (t : TableRows) (past : ScannerPast) (at : ℕ) (read : List ReadFrame) → RepresentsScanner scanner.now past
        → scanner.now.frame ≡ Some at → past.words ≡ t.frame.words → RepresentsRebuild rebuild.old t read
        → (at + 48 * t.frame.words ≤ bits_in past.bytes)
        × RepresentsRebuild rebuild.new t (read ++ read_frame adjacent (frame_words past.bytes t.frame.words at) ∷ []) }
{
    scanner.frame_words(words);
    rebuild.frame(adjacent, words);
}

/// The words in a subframe by a table.
fn word_count(sound: &Sound) -> u32
    ensures { result ≡ sound.now.frame.words }
{
    sound.table().frame().words
}
