//! Bus words with their times.

/// A bus word that is held, or none.
#[derive(Clone, Copy)]
pub(crate) struct TimedWord {
    /// 0 where none came: a word that is held has odd parity.
    pub(crate) word: u32,
    /// In microseconds from the start.
    pub(crate) time: u64,
}
