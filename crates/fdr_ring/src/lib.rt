//! The ring of blocks in an image: makes an image, opens one, and adds blocks so that a stop at any
//! moment loses none except the oldest.
//!
//! Each block is of the session that it is given; images of version 1 have no sessions.
//!
//! A ring of N slots promises the last N - 2 blocks. A block takes at most six calls of the deck, of
//! which two are syncs. A ring takes no memory, and holds no deck: each call is handed the deck anew.
//! Between two calls the deck may be read, synced and asked for its length, its input may be pulled,
//! and numbers may be announced.
#![tactic(auto)]

mod attach;
mod close;
mod make;
mod place;
mod ring;
mod write;

pub use fdr_recover::{RingFault, read_image_header};
pub use make::format;
pub use ring::{Prepared, Ring};
