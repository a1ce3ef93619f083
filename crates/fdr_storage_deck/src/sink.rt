//! A sink over an outlet.

ghost use Rattle.std.specs.Prelude.{◌≡◌, ◌<◌, ◌≤◌, ◌++◌, length, take, IfOk, OnErr, IsTrue};
ghost use Rattle.fdr_storage_deck.specs.Streams.{told_bytes};

use crate::counted::count;
use crate::tries::write_on;
use fdr_io::{Failed, Sink};
use fdr_storage::Outlet;
use std::io::ErrorKind;

/// An outlet as a sink. One that takes nothing fails.
#[derive(Drop)]
pub struct OutletSink<O: Outlet + Drop> {
    outlet: O,
    faults: u64,
}

impl<O: Outlet + Drop> OutletSink<O> {
    /// A sink into this outlet.
    pub fn new(outlet: O) -> Self
        ensures outlet { result.outlet ≡ outlet }
        ensures faults { result.faults ≡ 0 }
    {
        OutletSink { outlet, faults: 0 }
    }

    /// Why a write failed last, if one did.
    pub fn why(&self) -> Option<ErrorKind> {
        self.outlet.last_error()
    }
}

impl<O: Outlet + Drop> Sink for OutletSink<O> {
    ghost written = { λ s. told_bytes O.tells (O.written s.outlet) };

    ghost faults = { λ s. s.faults };

    #[tactic(auto, using(crate::proofs::Streaming::taken_of, crate::proofs::Streaming::kept_of, crate::proofs::Streaming::tells_of))]
    fn write(&mut self, bytes: &[u8]) -> Result<usize, Failed> {
        let outcome = write_on(&mut self.outlet, bytes);
        count(&mut self.faults, outcome)
    }
}
