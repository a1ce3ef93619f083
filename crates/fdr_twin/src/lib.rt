//! The twin: two disks with one input and one announced number. As a deck it is one of its two disks, and it turns
//! from one to the other. A recorder that writes both loses nothing where one of them fails.
#![tactic(auto)]

mod calls;
mod law;
mod memory;
mod side;
mod stops;
mod sure;
mod twin;

pub use law::calls_serve_one_side;
pub use memory::MemTwin;
pub use side::Side;
pub use sure::SureTwin;
pub use twin::Twin;
