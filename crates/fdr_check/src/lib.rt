//! The check of a parameter table: whether a recorder can be built from it.
//!
//! A table is sound where its places are within a subframe, off the sync words and the counter, share no bit with one
//! another in a superframe of 16 frames, and where the parts of each parameter make up its width and occur as often as
//! its rate declares.
#![tactic(auto)]

mod checking;
mod faults;
mod groups;
mod marks;
mod memory;
mod overlap;
mod parts;
mod reporting;
mod slots;
mod sorting;
mod sound;
mod walk;

pub use checking::check;
pub use groups::{Group, places_by_param};
pub use memory::push;
pub use reporting::report;
pub use slots::part_bits;
pub use sorting::{Sorted, sorted_by_key};
pub use sound::Sound;
pub use walk::add_slots;
