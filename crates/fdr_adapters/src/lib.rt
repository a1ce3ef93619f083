//! The deck, the twin, the source and the sink of the programs, over files and standard streams. They are what stands over
//! every storage, over those of the system, which tell nothing: a clause sees their counts alone.
#![tactic(auto)]

mod adapters;
mod causes;
mod twin;

pub use adapters::{
    FileDeck, FileSource, FileTwin, OutSink, deck_over, image_over, sink_into, source_over,
    twin_over,
};
pub use causes::{cause_text, tell_cause};
pub use twin::StorageTwin;
