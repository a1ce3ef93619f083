//! Searching and reading 12-bit words in a list of bits, many at a time.
#![tactic(auto)]

mod candidates;
mod search;
mod words;

pub use search::first_sync;
pub use words::unpack;
