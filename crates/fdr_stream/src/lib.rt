//! The recording of a trace as a stream of bytes, cut into blocks.
//!
//! Each record of the trace settles the words of the slots before its time. They are packed as they are drawn, and each
//! block is given as soon as its last byte is whole, so that less than a block waits. Slots that have nothing are drawn
//! late: when a record comes for which it counts, or at the end.
#![tactic(auto)]

mod drawing;
mod stream;
mod waiting;

pub use stream::{Fed, Stream};
