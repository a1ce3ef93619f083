//! A deck's input, pulled to its end a piece at a time, and handed to what takes the pieces.
#![tactic(auto)]

mod pieces;

pub use pieces::{InputEnd, MAX_INPUT_BYTES, PieceTaker, take_pieces};
