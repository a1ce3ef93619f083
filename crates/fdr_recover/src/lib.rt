//! What an image holds: its header, the run of its last blocks, and each of them.
//!
//! All calls look at the disk and leave it as it is.
#![tactic(auto)]

mod error;
mod header;
mod laws;
mod open;
mod payload;
mod run;
mod slots;
mod walk;

pub use error::{HeaderFault, RingFault};
pub use header::read_header_for;
pub use laws::{recovered_run_is_longest, stretches_are_maximal};
pub use open::read_image_header;
pub use payload::{BlockInfo, block};
pub use run::{Found, scan};
pub use slots::number_after;
pub use walk::{BlockTaker, BlocksFault, walk_between, walk_blocks};
