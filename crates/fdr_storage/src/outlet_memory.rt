//! The outlet in memory, whose writes fail, come short or are interrupted by a table.

ghost use Rattle.std.specs.Prelude.{◌≡◌, [], true};

use crate::entries::{moved, next_outcome};
use crate::{Outcome, Outlet, Refusal};
use std::alloc::Global;
use std::io::ErrorKind;

/// An outlet in memory that tells its bytes. What each write does is said by a table. A write that finds no memory fails.
#[derive(Drop)]
pub struct MemOutlet {
    bytes: Vec<u8>,
    outcomes: Vec<Outcome>,
    next: usize,
}

impl MemOutlet {
    /// An outlet to which nothing was written.
    pub fn new(alloc: Global, outcomes: Vec<Outcome>) -> Self
        ensures { result.bytes.items ≡ [] }
    {
        MemOutlet {
            bytes: Vec::new(alloc),
            outcomes,
            next: 0,
        }
    }

    /// What was written.
    pub fn bytes(&self) -> &[u8]
        ensures { result.now ≡ self.now.bytes.items }
    {
        &self.bytes
    }
}

impl Outlet for MemOutlet {
    ghost tells = { true };

    ghost written = { λ s. s.bytes.items };

    fn write(&mut self, bytes: &[u8]) -> Result<usize, Refusal> {
        match next_outcome(&self.outcomes, &mut self.next) {
            Outcome::Interrupted => Err(Refusal::Interrupted),
            Outcome::Failed => Err(Refusal::Failed),
            outcome => {
                let count = moved(outcome, bytes.len());
                match self.bytes.extend_from_slice(&bytes[..count]) {
                    Ok(()) => Ok(count),
                    Err(_) => Err(Refusal::Failed),
                }
            }
        }
    }

    fn last_error(&self) -> Option<ErrorKind> {
        None
    }
}
