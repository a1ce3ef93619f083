//! Where the samples of a parameter table are in a superframe: by the cycle in which they end, and by word slot.
//!
//! A superframe is 16 frames. A place of the table occurs in some of its word slots and puts some bits there; sample
//! `i` of a parameter takes the `i`-th occurrence of each of the parameter's parts. A bit of the superframe is counted
//! from 0 at its start, so that bit `12 k` is the least significant bit of word slot `k`.
#![tactic(auto)]

mod carriers;
mod drafts;
mod flat;
mod layout;
mod order;
mod parts;

pub use layout::Layout;
pub use parts::{Part, Sample};
