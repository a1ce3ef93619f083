//! The deck: the disk of a recorder, and the input that it records. All that the product
//! asks of the outside while it records goes through it.
#![tactic(auto)]

mod announced;
mod calls;
mod decks;
mod error;
mod image;
mod memory;
mod stops;
mod sure;

pub use announced::Announced;
pub use decks::Deck;
pub use error::NoMemory;
pub use image::{copy_from, copy_of, fill, patch, zeros_of};
pub use memory::MemDeck;
pub use stops::Tear;
pub use sure::SureDeck;
