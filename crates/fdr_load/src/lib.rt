//! Loading a table: its source is read to its end, its rows are read, and the table is checked as a whole.
#![tactic(auto)]

mod load;
mod reading;

pub use load::{LoadFault, load_table};
