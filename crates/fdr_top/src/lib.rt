//! The commands of the recorder.
//!
//! `run` carries out one command over a source that gives the table, a deck that gives the input and the disk, and
//! a sink that takes the output.
#![tactic(auto)]

mod checking;
mod decoding;
mod drilling;
mod encoding;
mod ends;
mod exceeding;
mod formatting;
mod input_end;
mod list_bits;
mod listing;
mod load;
mod outcome;
mod recording;
mod recovering;
mod ring_header;
mod salvaging;
mod sessions;
mod streaming;
mod top;
mod upgrading;

pub use outcome::Outcome;
pub use top::run;
