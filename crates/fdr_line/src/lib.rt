//! A line of text, made without memory.
#![tactic(auto)]

mod line;

pub use line::Line;
