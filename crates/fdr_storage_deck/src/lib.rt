//! What decides over a storage: calls that are made again where a signal interrupted them, reads and writes that go on
//! where one came short, a file that is opened, made and undone by its name, and the deck, the source and the sink over all
//! that. It is proved for every storage, at full strength over one that tells.
#![tactic(auto)]

mod counted;
mod deck;
mod image_file;
mod opening;
mod sink;
mod source;
mod tries;
mod whole;
mod window;

pub use counted::{CountedFile, count};
pub use deck::{StorageDeck, ack_line, take};
pub use image_file::ImageFile;
pub use sink::OutletSink;
pub use source::StreamSource;
pub use window::{AHEAD, Window};
