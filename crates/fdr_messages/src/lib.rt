//! The texts of faults, each in a line after the name of the program that tells it. Names have at most 12 bytes. A line has no
//! line feed.
#![tactic(auto)]

mod image;
mod table;
mod trace;

pub use image::{image_fault_words, image_message, words_message};
pub use table::table_message;
pub use trace::trace_message;
