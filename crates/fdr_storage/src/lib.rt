//! The storage under a deck: the calls of the system that a file is read and written by, as they are, each of which may
//! fail, come short or be interrupted. What decides stands above, and is proved for every storage.
#![tactic(auto)]

mod entries;
mod memory;
mod named;
mod numbers;
mod outlet;
mod outlet_memory;
mod refusal;
mod storage;
mod stream;
mod stream_memory;

pub use entries::Outcome;
pub use memory::MemStorage;
pub use named::{Absence, Kind, Lock, Look, Named, Node};
pub use numbers::Numbers;
pub use outlet::Outlet;
pub use outlet_memory::MemOutlet;
pub use refusal::Refusal;
pub use storage::Storage;
pub use stream::Stream;
pub use stream_memory::MemStream;
