//! The recording of a trace in an image: each block of its stream is added to the ring and announced as soon as it is due.
//!
//! A session holds no deck: each call is handed the deck anew. It takes all its memory when it starts. `record_source` is the
//! whole of it: it records all that a source gives in a session, which it closes.
#![tactic(auto)]

mod error;
mod laws;
mod recording;
mod session;
mod source;

pub use error::SessionFault;
pub use laws::{blocks_join, keeps_chain};
pub use recording::{Recorded, record_source};
pub use session::Session;
pub use source::{RecordSource, SourceEnd};
