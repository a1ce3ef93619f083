//! The text of a listing's lines. No call here takes memory but the one that makes texts of numbers ready.
#![tactic(auto)]

mod numbers;
mod ready;
mod text;

pub use fdr_line::Line;
pub use numbers::NumberTexts;
pub use ready::{ROW_ROOM, ShortText, put_row};
pub use text::{gap_line, row_line, value_text};
