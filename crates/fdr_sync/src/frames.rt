//! The accepted frames and the gaps of a whole list of bytes.

ghost use Rattle.std.specs.Prelude.{◌≡◌, ◌+◌, ◌*◌, ◌^◌, ◌≤◌, IfOk, length, map, sum_by, List, ℕ};
ghost use Rattle.fdr_bits.specs.Bits.{bits_in};
ghost use Rattle.fdr_frame.specs.WordCount.{IsWordCount};
ghost use Rattle.fdr_sync.specs.Accepted.{accepted_frames, AreAcceptedFrames};
ghost use Rattle.fdr_sync.specs.Events.{Event, events_of, gaps, AreEvents};

use crate::next_frame;
use std::alloc::{AllocError, Global};

/// A longest stretch of bits outside all accepted frames.
#[derive(Clone, Copy, PartialEq, Eq, Debug)]
pub struct Gap {
    /// The bit that it begins at.
    pub at: u64,
    /// How many bits it has, 1 at least.
    pub bits: u64,
}

/// Where the accepted frames begin, in order, in subframes of `words` words. Of frame positions that overlap the
/// earlier one is taken.
pub fn accepted_frames(alloc: Global, bytes: &[u8], words: u32) -> Result<Vec<u64>, AllocError>
    requires short { length bytes.now ≤ 2 ^ 60 }
    requires word_count { IsWordCount words }
    ensures items { IfOk result (λ v. v.items ≡ accepted_frames bytes.now words) }
    ensures accepted { AreAcceptedFrames bytes.now words (accepted_frames bytes.now words) }
    ensures only { (xs : List ℕ)
        → AreAcceptedFrames bytes.now words xs
        → xs ≡ accepted_frames bytes.now words }
{
    let mut frames = Vec::new(alloc);
    let mut free = 0;
    while let Some(at) = next_frame(bytes, free, words) {
        frames.push(at)?;
        free = at + 48 * u64::from(words);
    }
    Ok(frames)
}

/// The gaps before, between and after the accepted frames, in order, in subframes of `words` words.
pub fn gaps(alloc: Global, bytes: &[u8], words: u32) -> Result<Vec<Gap>, AllocError>
    requires short { length bytes.now ≤ 2 ^ 60 }
    requires word_count { IsWordCount words }
    ensures items { IfOk result (λ v. map (λ g. (g.at, g.bits)) v.items ≡ gaps bytes.now words) }
    ensures total { 48 * words * length (accepted_frames bytes.now words)
        + sum_by (λ g. g.1) (gaps bytes.now words)
        ≡ bits_in bytes.now }
    ensures events { AreEvents bytes.now words (events_of bytes.now words) }
    ensures only { (es : List Event)
        → AreEvents bytes.now words es
        → es ≡ events_of bytes.now words }
{
    let mut gaps = Vec::new(alloc);
    let mut free = 0;
    while let Some(at) = next_frame(bytes, free, words) {
        if free < at {
            gaps.push(Gap {
                at: free,
                bits: at - free,
            })?;
        }
        free = at + 48 * u64::from(words);
    }
    let end = 8 * bytes.len() as u64;
    if free < end {
        gaps.push(Gap {
            at: free,
            bits: end - free,
        })?;
    }
    Ok(gaps)
}
