//! Scripts of cases: bytes with their names, command lines with what they give, and what is promised of the rings that they leave. What a
//! command does is told by who goes through the script.
#![tactic(auto)]

mod bytes;
mod command;
mod files;
mod promises;
mod script;
mod wrong;

pub use command::{Command, Left};
pub use files::Files;
pub use script::{NO_SUCH_CALL, Runner, said_of};
pub use wrong::Wrong;
