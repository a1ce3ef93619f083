//! The place of a word slot within its frame.

ghost use Rattle.std.specs.Prelude.{◌≡◌, ◌<◌, ◌*◌, ◌/◌, ◌%◌};
ghost use Rattle.fdr_frame.specs.WordCount.{IsWordCount};
ghost use Rattle.fdr_frame.specs.Slots.{frame_of, subframe_of, word_of, kind_of};

use crate::SlotKind;

/// How many whole subframes are before word slot `k`: `k / words`. A number of words is a power of two, so that neither
/// this nor the calls below divide.
#[tactic(auto, using(crate::proofs::WordCounts::word_count_bounds))]
pub fn subframes_before(k: u64, words: u32) -> u64
    requires { IsWordCount words }
    ensures { result ≡ k / words }
{
    k >> words.trailing_zeros()
}

/// How many words of its subframe are before word slot `k`: `k % words`.
#[tactic(auto, using(crate::proofs::WordCounts::word_count_bounds))]
pub fn words_before(k: u64, words: u32) -> u64
    requires { IsWordCount words }
    ensures { result ≡ k % words }
{
    k & u64::from(words - 1)
}

/// How many whole frames are before word slot `k`: `k / (4 * words)`.
#[tactic(auto, using(crate::proofs::WordCounts::word_count_bounds))]
pub fn frames_before(k: u64, words: u32) -> u64
    requires { IsWordCount words }
    ensures { result ≡ frame_of words k }
{
    k >> (words.trailing_zeros() + 2)
}

/// How many words of its frame are before word slot `k`: `k % (4 * words)`.
#[tactic(auto, using(crate::proofs::WordCounts::word_count_bounds))]
pub fn frame_words_before(k: u64, words: u32) -> u64
    requires { IsWordCount words }
    ensures place { result ≡ k % (4 * words) }
    ensures within { result < 4 * words }
{
    k & u64::from(4 * words - 1)
}

/// What is in word slot `k`, where the frame counter has word `cword` of subframe `csub`.
#[tactic(auto, using(crate::proofs::WordCounts::word_count_bounds))]
pub fn slot_kind(k: u64, words: u32, cword: u32, csub: u8) -> SlotKind
    requires { IsWordCount words }
    ensures { result ≡ kind_of words cword csub k }
{
    let word = word_of(k, words);
    if word == 1 {
        SlotKind::Sync
    } else if word == cword && subframe_of(k, words) == csub {
        SlotKind::Counter
    } else {
        SlotKind::Plain
    }
}

/// The frame counter of the frame that word slot `k` is in: the frame's number modulo 4096.
#[tactic(auto, using(crate::proofs::WordCounts::word_count_bounds))]
pub fn counter_of(k: u64, words: u32) -> u16
    requires { IsWordCount words }
    ensures { result ≡ frame_of words k % 4096 }
{
    (frames_before(k, words) % 4096) as u16
}

/// The subframe of word slot `k`, from 1 to 4.
#[tactic(auto, using(crate::proofs::WordCounts::word_count_bounds))]
pub fn subframe_of(k: u64, words: u32) -> u8
    requires { IsWordCount words }
    ensures { result ≡ subframe_of words k }
{
    (subframes_before(k, words) % 4) as u8 + 1
}

/// The word of word slot `k` within its subframe, from 1 to `words`.
#[tactic(auto, using(crate::proofs::WordCounts::word_count_bounds))]
pub fn word_of(k: u64, words: u32) -> u32
    requires { IsWordCount words }
    ensures { result ≡ word_of words k }
{
    words_before(k, words) as u32 + 1
}
