//! Frames in a list of bits, by their four sync words.
#![tactic(auto)]

mod frames;
mod law;
mod search;

pub use frames::{Gap, accepted_frames, gaps};
pub use law::events_are_unique;
pub use search::{frame_at, next_frame};
