//! The scanner.

ghost use Rattle.std.specs.Prelude.{◌≡◌, ◌+◌, ◌-◌, ◌*◌, ◌^◌, ◌≤◌, ◌<◌, ◌++◌, ◌∷◌, [], ◌↔◌, ℕ, List, Some, false, IfOk, IsSome, IsNone, OnSome, IsTrue};
ghost use Rattle.std.specs.Prelude.{None, true, MatchBool, All, Contains, length, map, min, take, slice_get};
ghost use Rattle.std.specs.List.{range_with_len};
ghost use Rattle.std.specs.Option.{option_map};
ghost use Rattle.fdr_bits.specs.Bits.{bits_in, word_at};
ghost use Rattle.fdr_frame.specs.WordCount.{IsWordCount};
ghost use Rattle.fdr_sync.specs.Frames.{IsFramePosition};
ghost use Rattle.fdr_sync.specs.Accepted.{accepted_frames};
ghost use Rattle.fdr_resync.specs.Past.{ScannerPast, RepresentsScanner, scanner_made, scanner_with_bytes, scanner_with_events, scanner_finished};
ghost use Rattle.fdr_resync.specs.Past.{EndsWithFrameAt, known_events, bytes_pushed, bits_left, window_size};
ghost use Rattle.fdr_resync.specs.Answers.{answered_event, answered_events, answered_frame};

use crate::search::reach;
use crate::{Event, NoMemory};
use fdr_lanes::unpack;
use std::alloc::Global;
use std::marker::Model;

/// Finds the frames and gaps of bytes that are pushed piece by piece. It keeps a window of them.
#[derive(Drop)]
pub struct Scanner {
    words: u32,
    // The bytes that came after those that were dropped, and how many those are.
    window: Vec<u8>,
    before: u64,
    // The bit where the events that were taken end, and the one where the search goes on.
    free: u64,
    from: u64,
    // Whether no further byte comes.
    ended: bool,
    // Where the frame begins whose words may be read.
    frame: Option<u64>,
}

impl Model for Scanner {
    ghost use Rattle.fdr_resync.specs.Past.{ScannerKept, IsScannerKept};
    ghost use Rattle.std.specs.Vec.{vec_capacity};

    ghost Value = { ScannerKept };

    ghost use Rattle.fdr_resync.specs.View.{scanner_kept};

    ghost view = { scanner_kept };

    ghost invariant = { λ s. IsScannerKept (scanner_kept s) (vec_capacity s.window) };
}

impl Scanner {
    /// A scanner for frames of subframes of `words` words, to which nothing was pushed. Fails only where memory ends.
    pub fn new(alloc: Global, words: u32) -> Result<Scanner, NoMemory>
        requires { IsWordCount words }
        ensures { IfOk result (λ s. RepresentsScanner s (scanner_made words)) }
    {
        let window = Vec::with_capacity(alloc, window_size(words)).map_err(|_| NoMemory)?;
        Ok(Scanner {
            words,
            window,
            before: 0,
            free: 0,
            from: 0,
            ended: false,
            frame: None,
        })
    }

    /// Takes bytes from the front of a piece, and answers how many. Where all events that are decided were taken, that is
    /// the whole of a piece of up to 4,096 bytes, and at least as many bytes of a longer one. Takes no memory.
    pub fn push(&mut self, piece: &[u8]) -> usize
        requires open { self.old.ended ≡ false }
        requires limit { bytes_pushed self.old + length piece.now ≤ 2 ^ 28 }
        ensures front { result ≤ length piece.now }
        ensures stands { (past : ScannerPast) → RepresentsScanner self.old past
            → RepresentsScanner self.new (scanner_with_bytes past (take result piece.now)) }
        ensures room { (past : ScannerPast) → RepresentsScanner self.old past → past.taken ≡ known_events past
            → min 4096 (length piece.now) ≤ result }
        ensures words { self.new.words ≡ self.old.words }
        ensures pushed { bytes_pushed self.new ≡ bytes_pushed self.old + result }
        ensures still_open { self.new.ended ≡ false }

        // However much came, that is all that is kept.
        ensures bounded { length self.new.window ≤ window_size self.new.words }
    {
        let count = self.room_for(piece.len());
        self.add(&piece[..count]);
        count
    }

    /// The next event, as soon as it is decided. `None` exactly where all events were taken that are decided by the bytes
    /// so far, or after `finish` by all bytes. Takes no memory.
    pub fn take(&mut self) -> Option<Event>
        ensures event { (past : ScannerPast) → RepresentsScanner self.old past
            → option_map answered_event result ≡ slice_get (known_events past) (length past.taken) }
        ensures none { (past : ScannerPast) → RepresentsScanner self.old past
            → IsNone result ↔ (past.taken ≡ known_events past) }
        ensures stands { (past : ScannerPast) → RepresentsScanner self.old past
            → RepresentsScanner self.new (scanner_with_events past (answered_events result)) }
        ensures frame { self.new.frame ≡ answered_frame result }

        // What a caller needs that goes on until there is no event.
        ensures words { self.new.words ≡ self.old.words }
        ensures pushed { bytes_pushed self.new ≡ bytes_pushed self.old }
        ensures ended { self.new.ended ≡ self.old.ended }
        ensures nearer { OnSome result (bits_left self.new < bits_left self.old) }
    {
        self.frame = None;
        if self.seek() {
            Some(self.next_event())
        } else if self.ended {
            self.last_gap()
        } else {
            None
        }
    }

    /// The words of the frame that the last `take` answered, where nothing was pushed since. Takes no memory.
    pub fn frame_words(&self, out: &mut [u16])
        requires frame { IsSome self.now.frame }
        requires whole { length out.old ≡ 4 * self.now.words }
        ensures words { (past : ScannerPast) (at : ℕ) → RepresentsScanner self.now past → self.now.frame ≡ Some at
            → out.new ≡ map (λ k. word_at past.bytes (at + 12 * k)) (range_with_len 0 (4 * past.words)) }
        ensures twelve_bits { All (λ word. word < 4096) out.new }
        ensures within { (past : ScannerPast) (at : ℕ) → RepresentsScanner self.now past → self.now.frame ≡ Some at
            → at + 48 * past.words ≤ bits_in past.bytes }
        ensures taken { (past : ScannerPast) (at : ℕ) → RepresentsScanner self.now past → self.now.frame ≡ Some at
            → EndsWithFrameAt past.taken at }
        ensures accepted { (past : ScannerPast) (at : ℕ) → RepresentsScanner self.now past → self.now.frame ≡ Some at
            → Contains (accepted_frames past.bytes past.words) at }
    {
        let at = self.frame.unwrap();
        unpack(&self.window, at - 8 * self.before, out);
    }

    /// Says that no further byte comes. Takes no memory.
    pub fn finish(&mut self)
        ensures stands { (past : ScannerPast) → RepresentsScanner self.old past
            → RepresentsScanner self.new (scanner_finished past) }
        ensures words { self.new.words ≡ self.old.words }
        ensures pushed { bytes_pushed self.new ≡ bytes_pushed self.old }
        ensures ended { self.new.ended ≡ true }
        ensures frame { self.new.frame ≡ self.old.frame }
    {
        self.ended = true;
    }

    /// Makes the scanner as `new` made it. Takes no memory.
    pub fn restart(&mut self)
        ensures { RepresentsScanner self.new (scanner_made self.old.words) }
    {
        self.window.clear();
        self.before = 0;
        self.free = 0;
        self.from = 0;
        self.ended = false;
        self.frame = None;
    }

    /// Goes on with the search, and says whether a whole frame is next.
    fn seek(&mut self) -> bool
        ensures stands { (past : ScannerPast) → RepresentsScanner self.old past → RepresentsScanner self.new past }
        ensures kept { self.new ≡ record self.old { from = self.new.from } }
        ensures frame { MatchBool result
            (IsFramePosition self.new.window self.new.words (self.new.from - 8 * self.new.before))
            (8 * bytes_pushed self.new < self.new.from + 48 * self.new.words) }
    {
        let start = 8 * self.before;
        let reached = reach(&self.window, self.from - start, self.words);
        self.from = start + reached.at;
        reached.is_frame
    }

    /// The next event, where the search came to a whole frame.
    fn next_event(&mut self) -> Event
        requires { IsFramePosition self.old.window self.old.words (self.old.from - 8 * self.old.before) }
        ensures event { (past : ScannerPast) → RepresentsScanner self.old past
            → slice_get (known_events past) (length past.taken) ≡ Some (answered_event result) }
        ensures stands { (past : ScannerPast) → self.old.frame ≡ None → RepresentsScanner self.old past
            → RepresentsScanner self.new (scanner_with_events past (answered_events (Some result))) }
        ensures frame { self.old.frame ≡ None → self.new.frame ≡ answered_frame (Some result) }
        ensures words { self.new.words ≡ self.old.words }
        ensures pushed { bytes_pushed self.new ≡ bytes_pushed self.old }
        ensures ended { self.new.ended ≡ self.old.ended }
        ensures nearer { bits_left self.new < bits_left self.old }
    {
        let at = self.from;
        if self.free < at {
            let gap = Event::Gap {
                at: self.free,
                bits: at - self.free,
            };
            self.free = at;
            return gap;
        }
        self.frame = Some(at);
        self.from = at + 48 * u64::from(self.words);
        self.free = self.from;
        Event::Frame { at }
    }

    /// The gap after the last frame, where no further byte comes and no further frame begins.
    fn last_gap(&mut self) -> Option<Event>
        requires ended { self.old.ended ≡ true }
        requires searched { 8 * bytes_pushed self.old < self.old.from + 48 * self.old.words }
        ensures event { (past : ScannerPast) → RepresentsScanner self.old past
            → option_map answered_event result ≡ slice_get (known_events past) (length past.taken) }
        ensures none { (past : ScannerPast) → RepresentsScanner self.old past
            → IsNone result ↔ (past.taken ≡ known_events past) }
        ensures stands { (past : ScannerPast) → self.old.frame ≡ None → RepresentsScanner self.old past
            → RepresentsScanner self.new (scanner_with_events past (answered_events result)) }
        ensures frame { self.old.frame ≡ None → self.new.frame ≡ answered_frame result }
        ensures words { self.new.words ≡ self.old.words }
        ensures pushed { bytes_pushed self.new ≡ bytes_pushed self.old }
        ensures ended { self.new.ended ≡ self.old.ended }
        ensures nearer { OnSome result (bits_left self.new < bits_left self.old) }
    {
        let end = 8 * (self.before + self.window.len() as u64);
        if self.free == end {
            return None;
        }
        let gap = Event::Gap {
            at: self.free,
            bits: end - self.free,
        };
        self.free = end;
        self.from = end;
        Some(gap)
    }

    /// How much of a piece of this length there is room for, after bytes were dropped where there has to be more.
    fn room_for(&mut self, len: usize) -> usize
        ensures front { result ≤ len }
        ensures fits { length self.new.window + result ≤ window_size self.new.words }
        ensures stands { (past : ScannerPast) → RepresentsScanner self.old past → RepresentsScanner self.new past }
        ensures room { (past : ScannerPast) → RepresentsScanner self.old past → past.taken ≡ known_events past
            → min 4096 len ≤ result }
        ensures words { self.new.words ≡ self.old.words }
        ensures pushed { bytes_pushed self.new ≡ bytes_pushed self.old }
        ensures ended { self.new.ended ≡ self.old.ended }
    {
        let room = window_size(self.words) - self.window.len();
        if len <= room {
            return len;
        }
        self.drop_searched();
        len.min(window_size(self.words) - self.window.len())
    }

    /// Goes on with the search and drops the bytes that it has passed.
    fn drop_searched(&mut self)
        ensures stands { (past : ScannerPast) → RepresentsScanner self.old past → RepresentsScanner self.new past }
        ensures all_taken { (past : ScannerPast) → RepresentsScanner self.old past → past.taken ≡ known_events past
            → length self.new.window ≤ 6 * self.new.words }
        ensures words { self.new.words ≡ self.old.words }
        ensures pushed { bytes_pushed self.new ≡ bytes_pushed self.old }
        ensures ended { self.new.ended ≡ self.old.ended }
    {
        let _ = self.seek();
        let gone = (self.from / 8 - self.before) as usize;
        let kept = self.window.len() - gone;
        self.window.copy_within(gone.., 0);
        self.window.truncate(kept);
        self.before += gone as u64;
        self.frame = None;
    }

    /// Appends bytes that fit into the window.
    fn add(&mut self, piece: &[u8])
        requires open { self.old.ended ≡ false }
        requires fits { length self.old.window + length piece.now ≤ window_size self.old.words }
        requires limit { bytes_pushed self.old + length piece.now ≤ 2 ^ 28 }
        ensures stands { (past : ScannerPast) → RepresentsScanner self.old past
            → RepresentsScanner self.new (scanner_with_bytes past piece.now) }
        ensures words { self.new.words ≡ self.old.words }
        ensures pushed { bytes_pushed self.new ≡ bytes_pushed self.old + length piece.now }
        ensures still_open { self.new.ended ≡ false }
        ensures bounded { length self.new.window ≤ window_size self.new.words }
    {
        let _ = self.window.extend_from_slice(piece);
    }
}

/// How many bytes the window has room for: four frames, and 4,096 more.
fn window_size(words: u32) -> usize
    requires { IsWordCount words }
    ensures { result ≡ window_size words }
{
    24 * words as usize + 4096
}
