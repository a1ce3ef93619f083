//! What a damaged image still holds: every run of its valid blocks, not the last one alone.
//!
//! The call looks at the disk and leaves it as it is.
#![tactic(auto)]

mod fault;
mod joining;
mod laws;
mod memory;
mod reading;
mod salvage;

pub use fault::SalvageFault;
pub use laws::runs_have_all_blocks;
pub use salvage::{Run, runs};
