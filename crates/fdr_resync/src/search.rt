//! The search through a window.

ghost use Rattle.std.specs.Prelude.{◌+◌, ◌*◌, ◌^◌, ◌≤◌, ◌<◌, ◌++◌, ℕ, List, MatchBool, length};
ghost use Rattle.fdr_bits.specs.Bits.{bits_in};
ghost use Rattle.fdr_frame.specs.WordCount.{IsWordCount};
ghost use Rattle.fdr_sync.specs.Frames.{IsFramePosition};

use fdr_lanes::first_sync;
use fdr_sync::frame_at;

/// How far a search came.
#[derive(Clone, Copy)]
pub struct Reached {
    /// The first bit where a frame may begin.
    pub at: u64,
    /// Whether one does, and lies within the bytes.
    pub is_frame: bool,
}

/// Searches these bytes, which may go on, from bit `from` on for a frame of subframes of `words` words.
pub fn reach(bytes: &[u8], from: u64, words: u32) -> Reached
    requires short { length bytes.now ≤ 2 ^ 60 }
    requires word_count { IsWordCount words }
    requires start { from ≤ bits_in bytes.now }
    ensures behind { from ≤ result.at }
    ensures within { result.at ≤ bits_in bytes.now }
    ensures clear { (more : List ℕ) (q : ℕ) → from ≤ q → q < result.at → ¬ IsFramePosition (bytes.now ++ more) words q }
    ensures frame { MatchBool result.is_frame (IsFramePosition bytes.now words result.at)
        (bits_in bytes.now < result.at + 48 * words) }
{
    let bits = 8 * bytes.len() as u64;
    let mut at = from;
    while let Some(p) = first_sync(bytes, at) {
        if bits < p + 48 * u64::from(words) {
            return Reached {
                at: p,
                is_frame: false,
            };
        }
        if frame_at(bytes, p, words) {
            return Reached {
                at: p,
                is_frame: true,
            };
        }
        at = p + 1;
    }
    // A sync word may begin in the last 11 bits and go on in bytes that are to come.
    Reached {
        at: at.max(bits.saturating_sub(11)),
        is_frame: false,
    }
}
