//! What is promised of what commands leave. A script asks it of each run, beside what each run gives: which call leaves what may change
//! then, and the promise is asked as before.

use crate::bytes::number_of;
use crate::files::Files;
use crate::wrong::Wrong;

/// Whether a promise is kept, where a part of a line asks one: `front`, `ring` or `keeps`, and what it is about.
pub fn is_kept(files: &Files, part: &str) -> Result<Option<bool>, Wrong> {
    match part.split_once(" ") {
        Some(("front", rest)) => Ok(Some(is_front(files, rest)?)),
        Some(("ring", rest)) => Ok(Some(About::read(files, rest)?.is_same_ring())),
        Some(("keeps", rest)) => Ok(Some(About::read(files, rest)?.is_kept())),
        _ => Ok(None),
    }
}

/// `PART WHOLE`: whether one file is a front part of another, and less than all of it.
fn is_front(files: &Files, names: &str) -> Result<bool, Wrong> {
    let (part, whole) = names.split_once(" ").ok_or(Wrong::Line)?;
    let (part, whole) = (bytes_in(files, part)?, bytes_in(files, whole)?);
    Ok(part.len() < whole.len() && whole.starts_with(part))
}

/// The bytes of a name that has to be there.
fn bytes_in<'a>(files: &'a Files, name: &str) -> Result<&'a [u8], Wrong> {
    files.get(name).ok_or(Wrong::Line)
}

/// The number that these bytes are, the highest first.
fn number_in(bytes: &[u8]) -> usize {
    let mut number: usize = 0;
    for byte in bytes {
        number = number.wrapping_mul(256).wrapping_add(usize::from(*byte));
    }
    number
}

/// A count in decimal digits.
fn count_of(text: &str) -> Result<usize, Wrong> {
    usize::try_from(number_of(text)?).map_err(|_| Wrong::Line)
}

/// What a promise is about: a ring that a recording was stopped or failed in, and one into which a frame more was recorded then.
#[derive(Clone, Copy)]
struct About<'a> {
    /// The ring as it was left, and before the recording.
    image: &'a [u8],
    was: &'a [u8],
    /// What is recovered of it as it was left, and with the frame more.
    held: &'a [u8],
    after: &'a [u8],
    /// All that is recorded in it, from block 0 on, and the frame more.
    stream: &'a [u8],
    frame: &'a [u8],
    /// The numbers that were announced as it was left, and with the frame more.
    known: usize,
    then: usize,
    /// How many slots the ring has, how many bytes a block, and the number that the recording began with.
    slots: usize,
    block: usize,
    began: usize,
}

impl<'a> About<'a> {
    /// Reads `KEY=VALUE ..`. What isn't there is empty, or 0.
    fn read(files: &'a Files, words: &str) -> Result<About<'a>, Wrong> {
        let mut about = About {
            image: &[],
            was: &[],
            held: &[],
            after: &[],
            stream: &[],
            frame: &[],
            known: 0,
            then: 0,
            slots: 0,
            block: 1,
            began: 0,
        };
        for word in words.split_whitespace() {
            about.set(files, word)?;
        }
        Ok(about)
    }

    fn set(&mut self, files: &'a Files, word: &str) -> Result<(), Wrong> {
        let (key, value) = word.split_once("=").ok_or(Wrong::Line)?;
        match key {
            "image" => self.image = bytes_in(files, value)?,
            "was" => self.was = bytes_in(files, value)?,
            "held" => self.held = bytes_in(files, value)?,
            "after" => self.after = bytes_in(files, value)?,
            "stream" => self.stream = bytes_in(files, value)?,
            "frame" => self.frame = bytes_in(files, value)?,
            "known" => self.known = number_in(bytes_in(files, value)?),
            "then" => self.then = number_in(bytes_in(files, value)?),
            "slots" => self.slots = count_of(value)?,
            "block" => self.block = count_of(value)?.max(1),
            "began" => self.began = count_of(value)?,
            _ => return Err(Wrong::Line),
        }
        Ok(())
    }

    /// How many blocks these bytes fill. The last one may be shorter.
    fn blocks_of(&self, bytes: &[u8]) -> usize {
        bytes.len().div_ceil(self.block.max(1))
    }

    /// The number of the block that comes next in the ring as it was left.
    fn next(&self) -> usize {
        self.then.saturating_sub(self.blocks_of(self.frame))
    }

    /// Whether all is kept that is promised: no announced block is missing, and at most one isn't announced; they are the last ones of
    /// the stream, all or two less than there are slots; and a frame more comes after them.
    fn is_kept(&self) -> bool {
        self.is_announced() && self.is_of_stream() && self.has_most() && self.goes_on()
    }

    fn is_announced(&self) -> bool {
        let known = self.known.max(self.began);
        known <= self.next() && self.next() <= known.saturating_add(1)
    }

    /// Whether the blocks are those of the stream before the next one, from the beginning of one on.
    fn is_of_stream(&self) -> bool {
        let ends = self.next().saturating_mul(self.block);
        let ends = ends.min(self.stream.len());
        let Some(begins) = ends.checked_sub(self.held.len()) else {
            return false;
        };
        self.next() <= self.blocks_of(self.stream)
            && begins % self.block.max(1) == 0
            && self.stream.get(begins..ends) == Some(self.held)
    }

    fn has_most(&self) -> bool {
        let least = self.slots.saturating_sub(2).min(self.next());
        self.blocks_of(self.held) >= least
    }

    /// Whether the ring then holds the blocks and the frame more after them, as many as there are slots but one.
    fn goes_on(&self) -> bool {
        let all = self
            .blocks_of(self.held)
            .saturating_add(self.blocks_of(self.frame));
        let oldest = all.saturating_sub(self.slots.saturating_sub(1));
        let gone = oldest.saturating_mul(self.block);
        let held = self.held.get(gone..).unwrap_or(&[]);
        let gone = gone.saturating_sub(self.held.len());
        let frame = self.frame.get(gone..).unwrap_or(&[]);
        self.after.starts_with(held) && self.after.get(held.len()..) == Some(frame)
    }

    /// Whether the ring has the length and the header from before, and each open slot the session of its block's recording.
    fn is_same_ring(&self) -> bool {
        self.image.len() == self.was.len()
            && self.image.get(..64) == self.was.get(..64)
            && self.has_sessions()
    }

    fn has_sessions(&self) -> bool {
        let slots = self.image.get(64..).unwrap_or(&[]);
        for slot in slots.chunks(self.block.saturating_add(16)) {
            if !self.has_session(slot) {
                return false;
            }
        }
        true
    }

    /// Whether a slot is closed, or has the session of its block's recording: 2 after another recording, and else 1.
    fn has_session(&self, slot: &[u8]) -> bool {
        let number = number_in(slot.get(8..16).unwrap_or(&[]));
        let is_second = self.began > 0 && number >= self.began;
        let session = number_in(slot.get(4..8).unwrap_or(&[]));
        slot.first() != Some(&0x5a) || session == if is_second { 2 } else { 1 }
    }
}
