//! The storage, the streams and the outlets of a program: one call of the system a method. They tell nothing.
#![tactic(auto)]

mod apart;
mod file;
mod refused;
mod streams;

pub use file::SystemFile;
pub use streams::{LineReader, SystemOutlet, SystemStream, SystemTable};
