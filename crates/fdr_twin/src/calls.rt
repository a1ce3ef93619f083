//! The calls that the twin in memory has seen.

use crate::Side;
use fdr_deck::Announced;

/// What a call did to the disk of its side.
#[derive(Drop)]
pub enum SideCall {
    /// It left the disk as it was: a size, a read, a pull, or a sync that failed.
    Passed,
    /// It wrote these bytes there.
    Wrote { at: usize, bytes: Vec<u8> },
    /// It was to write these bytes there, and failed.
    FailedToWrite { at: usize, bytes: Vec<u8> },
    /// It made durable what was written.
    Synced,
    /// It gave an empty disk this many zeros.
    Provided { size: usize },
    /// It was to give an empty disk this many zeros, and failed.
    FailedToProvide { size: usize },
}

/// What was announced, and both counts of faults, as they were before a call that found no memory.
#[derive(Clone, Copy, Debug)]
pub struct Snapshot {
    pub announced: Announced,
    pub first_faults: u64,
    pub second_faults: u64,
}

/// The numbers that hold at one moment. And for each side what was announced and counted before its
/// first call that found no memory, of those after the last call that was entered.
#[derive(Clone, Copy, Debug)]
pub struct Span {
    pub announced: Announced,
    pub taken: usize,
    pub pulled_before: usize,
    pub first_faults: u64,
    pub second_faults: u64,
    pub first_lost: Option<Snapshot>,
    pub second_lost: Option<Snapshot>,
}

/// A call, the side that the twin was turned to, and the numbers as it began.
#[derive(Drop)]
pub struct TwinEntry {
    pub side: Side,
    pub call: SideCall,
    pub span: Span,
}
