//! The parameter table of a recorder: what each word of a frame carries, and how its value is read.
//!
//! A table is text of comma-separated fields. It has one frame row, a row for each parameter, and a
//! row for each place in a frame where a part of a parameter stands.
#![tactic(auto)]

mod draft;
mod fault;
mod field;
mod frame;
mod name;
mod param;
mod params;
mod path;
mod place;
mod row;
mod rows;
mod sign;
mod table;

pub use fault::{NoMemory, Refusal, TableError, TableFault};
pub use field::number_in;
pub use frame::Frame;
pub use name::Name;
pub use param::Param;
pub use path::PathText;
pub use place::Place;
pub use table::{MAX_TABLE_BYTES, Table};
