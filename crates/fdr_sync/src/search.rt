//! A plain search for frames.

ghost use Rattle.std.specs.Prelude.{◌≡◌, ◌+◌, ◌*◌, ◌^◌, ◌≤◌, ◌<◌, ◌↔◌, IsTrue, IfSome, IfNone, length};
ghost use Rattle.fdr_bits.specs.Bits.{bits_in};
ghost use Rattle.fdr_frame.specs.WordCount.{IsWordCount};
ghost use Rattle.fdr_sync.specs.Frames.{is_frame_position, IsFramePosition, IsFirstFrameFrom, HasNoFrameFrom};

use fdr_bits::word12;
use fdr_frame::SYNC;

/// Whether a frame of subframes of `words` words begins at bit `p`: it lies within the bytes, and each of its four
/// subframes begins with its sync word.
#[tactic(auto, using(crate::proofs::FrameLemmas::frame_within))]
pub fn frame_at(bytes: &[u8], p: u64, words: u32) -> bool
    requires short { length bytes.now ≤ 2 ^ 60 }
    requires word_count { IsWordCount words }
    ensures { IsTrue result ↔ IsFramePosition bytes.now words p }
{
    match last_place(bytes, words) {
        Some(last) => p <= last && has_syncs(bytes, p, words),
        None => false,
    }
}

/// The first bit from `from` on where a frame of subframes of `words` words begins. None where there is none.
#[tactic(auto, using(crate::proofs::FrameLemmas::frame_within, crate::proofs::FrameLemmas::none_in_few_bytes))]
pub fn next_frame(bytes: &[u8], from: u64, words: u32) -> Option<u64>
    requires short { length bytes.now ≤ 2 ^ 60 }
    requires word_count { IsWordCount words }
    ensures found { IfSome result (IsFirstFrameFrom bytes.now words from) }
    ensures none { IfNone result (HasNoFrameFrom bytes.now words from) }
{
    let last = last_place(bytes, words)?;
    for p in from..last + 1 {
        if has_syncs(bytes, p, words) {
            return Some(p);
        }
    }
    None
}

// The last bit where a frame can begin that lies within the bytes.
fn last_place(bytes: &[u8], words: u32) -> Option<u64>
    requires short { length bytes.now ≤ 2 ^ 60 }
    requires word_count { IsWordCount words }
    ensures found { IfSome result (λ last. last + 48 * words ≡ bits_in bytes.now) }
    ensures none { IfNone result (bits_in bytes.now < 48 * words) }
{
    (8 * bytes.len() as u64).checked_sub(48 * u64::from(words))
}

// Whether the four subframes of a frame at bit `p` begin with their sync words.
#[tactic(auto, using(crate::proofs::FrameLemmas::frame_by_syncs))]
fn has_syncs(bytes: &[u8], p: u64, words: u32) -> bool
    requires short { length bytes.now ≤ 2 ^ 60 }
    requires word_count { IsWordCount words }
    requires within { p + 48 * words ≤ bits_in bytes.now }
    ensures { result ≡ is_frame_position bytes.now words p }
{
    let subframe = 12 * u64::from(words);
    word12(bytes, p) == SYNC[0]
        && word12(bytes, p + subframe) == SYNC[1]
        && word12(bytes, p + 2 * subframe) == SYNC[2]
        && word12(bytes, p + 3 * subframe) == SYNC[3]
}
