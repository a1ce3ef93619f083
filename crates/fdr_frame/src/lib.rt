//! Where the words of a stream of ARINC 717 frames stand.
//!
//! A frame lasts four seconds and has four subframes of one second. A subframe has 64, 128, 256, 512 or 1024 words.
//! A word slot is counted from 0 at the start of a stream; subframes and words are counted from 1.
#![tactic(auto)]

/// The sync words of subframes 1 to 4, as ARINC 717 has them.
pub const SYNC: [u16; 4] = [0o1107, 0o2670, 0o5107, 0o6670];

// The same words in hexadecimal, as recorders' documents often write them.
const _: () = prove!(SYNC[0] == 0x247 && SYNC[1] == 0x5b8 && SYNC[2] == 0xa47 && SYNC[3] == 0xdb8);

/// What is in a word slot.
#[derive(Clone, Copy, PartialEq, Eq, Debug)]
pub enum SlotKind {
    /// The sync word of the slot's subframe.
    Sync,
    /// The frame counter.
    Counter,
    /// A word of parameters.
    Plain,
}

mod slots;

pub use slots::{
    counter_of, frame_words_before, frames_before, slot_kind, subframe_of, subframes_before,
    word_of, words_before,
};
