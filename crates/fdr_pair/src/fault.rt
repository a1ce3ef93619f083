//! Why a recording on two disks is cut short.

/// Why a recording on two disks is cut short. It is consumed then.
#[derive(Clone, Copy, PartialEq, Eq, Debug)]
pub enum PairFault {
    /// Both sides have failed: the count of faults of each rose.
    DiskFault,
    /// There is no number left for a block.
    SeqEnd,
}
