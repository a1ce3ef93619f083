//! The stream in memory, whose reads fail, come short or are interrupted by a table.

ghost use Rattle.std.specs.Prelude.{◌≡◌, ◌≤◌, length, drop, true};

use crate::entries::{moved, next_outcome};
use crate::{Outcome, Refusal, Stream};
use std::io::ErrorKind;

/// A stream in memory that tells its bytes. What each call does is said by a table.
#[derive(Drop)]
pub struct MemStream {
    bytes: Vec<u8>,
    at: usize,
    outcomes: Vec<Outcome>,
    next: usize,
    ghost within: { at ≤ length bytes.items },
}

impl MemStream {
    /// A stream of these bytes.
    pub fn new(bytes: Vec<u8>, outcomes: Vec<Outcome>) -> Self
        ensures { drop result.at result.bytes.items ≡ bytes.items }
    {
        MemStream {
            bytes,
            at: 0,
            outcomes,
            next: 0,
        }
    }
}

impl Stream for MemStream {
    ghost tells = { true };

    ghost rest = { λ s. drop s.at s.bytes.items };

    fn open(&mut self) -> Result<(), Refusal> {
        match next_outcome(&self.outcomes, &mut self.next) {
            Outcome::Interrupted => Err(Refusal::Interrupted),
            Outcome::Failed => Err(Refusal::Failed),
            Outcome::Whole | Outcome::Short(_) => Ok(()),
        }
    }

    fn read(&mut self, buf: &mut [u8]) -> Result<usize, Refusal> {
        match next_outcome(&self.outcomes, &mut self.next) {
            Outcome::Interrupted => Err(Refusal::Interrupted),
            Outcome::Failed => Err(Refusal::Failed),
            outcome => {
                let count = moved(outcome, (self.bytes.len() - self.at).min(buf.len()));
                buf[..count].copy_from_slice(&self.bytes[self.at..self.at + count]);
                self.at += count;
                Ok(count)
            }
        }
    }

    fn last_error(&self) -> Option<ErrorKind> {
        None
    }
}
