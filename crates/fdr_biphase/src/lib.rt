//! Harvard biphase, the line code of ARINC 717: each bit is a cell of two levels.
//!
//! The level changes where a cell begins, and in its middle where the bit is 1. A decoder may begin anywhere in a cell, and
//! at either level: it finds where cells begin by the changes alone.
#![tactic(auto)]

mod decoder;
mod encoder;
mod law;
mod packer;
mod reader;
mod words;

pub use decoder::Decoder;
pub use encoder::Encoder;
pub use law::{bits_of_cells, bits_stay, cells_are_unique, one_bit_waits, turned_levels};
pub use packer::BitPacker;
pub use reader::{Filled, Given, LevelReader};

/// The level doesn't change at a place where a cell would begin, and cells can't begin at the other places either.
#[derive(Clone, Copy, PartialEq, Eq, Debug)]
pub struct Missing {
    /// The place, counted from 0 over all levels.
    pub at: u64,
}
