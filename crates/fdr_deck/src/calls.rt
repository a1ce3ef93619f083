//! The calls that the deck in memory has seen.

ghost use Rattle.std.specs.Prelude.{◌≡◌, ◌<◌};

use crate::Announced;

/// What a call did to the disk.
#[derive(Drop)]
pub enum Call {
    /// It left the disk as it was: a size, a read, a pull, or a sync that failed.
    Pass,
    /// It wrote these bytes there.
    Write { at: usize, bytes: Vec<u8> },
    /// It was to write these bytes there, and failed.
    FailedWrite { at: usize, bytes: Vec<u8> },
    /// It made durable what was written.
    Sync,
    /// It gave an empty disk this many zeros.
    Provide { size: usize },
    /// It was to give an empty disk this many zeros, and failed.
    FailedProvide { size: usize },
}

/// The numbers that are at one moment.
#[derive(Clone, Copy, Debug)]
pub struct Numbers {
    pub announced: Announced,
    pub taken: usize,
    pub pulled_before: usize,
}

/// A call, with the numbers as it began.
#[derive(Drop)]
pub struct Entry {
    pub call: Call,
    pub numbers: Numbers,
}

/// The number of bytes pulled as it was when the last pull that gave bytes began: after one of `count` bytes that began at `at`,
/// where it was `before`.
pub fn pull_began(count: usize, at: usize, before: usize) -> usize
    ensures some { 0 < count → result ≡ at }
    ensures none { count ≡ 0 → result ≡ before }
{
    if count > 0 { at } else { before }
}
