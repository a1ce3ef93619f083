//! The generated trace: bus words for a drill, the same ones of each seed.
//!
//! In each second, each parameter of a table sends one word. The words have their parameter's bus, label and SDI, data bits
//! that are drawn from the seed, and odd parity. An end record follows the last second.
#![tactic(auto)]

mod generator;
mod law;
mod sender;

pub use generator::Gen;
pub use law::{reads_back, stays_good};
