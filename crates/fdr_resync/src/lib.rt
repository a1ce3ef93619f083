//! A search for frames in bytes that come in pieces, over a window whose size doesn't depend on the bytes.
//!
//! Frames and gaps go out in bit order, each as soon as no further byte can change it.
#![tactic(auto)]

mod law;
mod scanner;
mod search;

pub use law::{adjacent_after_a_frame, stays_decided};
pub use scanner::Scanner;

/// A frame, or a longest stretch of bits outside all frames. Bits are counted from the first byte that was pushed.
#[derive(Clone, Copy, PartialEq, Eq, Debug)]
pub enum Event {
    /// An accepted frame.
    Frame {
        /// The bit that it begins at.
        at: u64,
    },
    /// Bits between frames, before the first or after the last.
    Gap {
        /// The bit that they begin at.
        at: u64,
        /// How many they are, 1 at least.
        bits: u64,
    },
}

/// Memory ended.
#[derive(Clone, Copy, PartialEq, Eq, Debug)]
pub struct NoMemory;
