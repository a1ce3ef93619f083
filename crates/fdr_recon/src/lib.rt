//! Rows of samples over frames that are read one after another.
//!
//! A sample's parts may lie in several frames of a superframe. Its row is made once the frame with its last part is
//! read, and only where the frames back to the one with its earliest part are joined: each begins where the one before
//! it ends, and its counter is one more.
#![tactic(auto)]

mod past;
mod plans;
mod scale;

pub use past::Rebuild;

/// A row of the listing: what one sample of a parameter was.
#[derive(Clone, Copy, Debug, PartialEq, Eq)]
pub struct Row {
    /// The frame counter of the frame with the sample's earliest part, 0 to 4095.
    pub counter: u16,
    /// The subframe of that part, 1 to 4.
    pub subframe: u8,
    /// The word of that part within its subframe, from 1 on.
    pub word: u32,
    /// The index of the parameter in the table.
    pub param: u32,
    /// The value, in units of `10^-decimals`.
    pub value: i64,
}
