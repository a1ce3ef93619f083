//! The listing of bits: their frames, the gaps between them, and the lines of the frames' rows. The summary of them: how
//! many there are, and what the rows' values add up to. And the laws that a recording reads back as what was sampled, and
//! that so does each run of its frames that survives.
#![tactic(auto)]

mod entries;
mod events;
mod law;
mod line_writer;
mod takers;
mod tally;

pub use entries::{take_piece, take_rest};
pub use events::EventReader;
pub use law::{damage_elsewhere, lists_events, reads_back, survives};
pub use line_writer::LineWriter;
pub use takers::Taker;
pub use tally::Summary;
