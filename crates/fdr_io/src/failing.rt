//! The calls of a fake that fail.

ghost use Rattle.std.specs.Prelude.{◌≡◌, ◌↔◌, IsErr, Contains};
ghost use Rattle.fdr_io.specs.Faults.{next_count};

use crate::Failed;
use std::marker::Model;

/// Which calls of a fake fail: those whose numbers are listed. Calls are numbered from 0, and all
/// those from the last number of 64 bits on have that number.
#[derive(Drop)]
pub struct FailingCalls {
    numbers: Vec<u64>,
    next: u64,
}

impl Model for FailingCalls {
    ghost use Rattle.fdr_io.specs.Fakes.{Plan};

    ghost Value = { Plan };

    ghost view = { λ calls. record { failing = calls.numbers.items; next = calls.next } };
}

impl FailingCalls {
    /// The calls with these numbers fail. No call was made yet.
    pub fn new(numbers: Vec<u64>) -> Self
        ensures { result ≡ record { failing = numbers.items; next = 0 } }
    {
        FailingCalls { numbers, next: 0 }
    }

    /// Makes the next call: `Failed` exactly where its number is listed.
    pub fn enter(&mut self) -> Result<(), Failed>
        ensures listed { IsErr result ↔ Contains self.old.failing self.old.next }
        ensures after { self.new ≡ record self.old { next = next_count self.old.next } }
    {
        let fails = self.numbers.contains(&self.next);
        self.next = self.next.saturating_add(1);
        if fails { Err(Failed) } else { Ok(()) }
    }
}
