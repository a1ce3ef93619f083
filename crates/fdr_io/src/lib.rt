//! Sources and sinks of bytes. Each counts its faults, and answers `Failed` only where that count
//! rose. What stands on this crate is proved for every source and every sink, and its text is
//! proved byte for byte over those that tell their bytes.
#![tactic(auto)]

mod buffers;
mod failing;
mod sinks;
mod sources;

pub use buffers::OutBuffer;
pub use failing::FailingCalls;
pub use sinks::{MemSink, NullSink, Sink, write_whole};
pub use sources::{MemSource, Source, SureSource, copy_next};

/// How many bytes of a source or of an input are asked for at a time, at most.
pub const PIECE: usize = 4_096;

// The number that the contracts name: `piece_bytes` of the definitions.
const _: () = prove!(PIECE == 4_096);

/// A read, a write or another call of the outside failed. The object's count of faults rose.
#[derive(Clone, Copy, Debug, PartialEq, Eq)]
pub struct Failed;

/// The input that a fault of reading is about.
#[derive(Clone, Copy, Debug, PartialEq, Eq)]
pub enum Input {
    /// The table of parameters.
    Table,
    /// The input, such as the bits of a recording.
    Line,
}
