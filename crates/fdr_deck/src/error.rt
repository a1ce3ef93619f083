//! Want of memory.

/// There was no memory for an image.
#[derive(Clone, Copy, Debug, PartialEq, Eq)]
pub struct NoMemory;
