//! A source over a stream.

ghost use Rattle.std.specs.Prelude.{◌≡◌, ◌<◌, ◌≤◌, length, drop, IfOk, OnErr, IsTrue};
ghost use Rattle.fdr_io.specs.Told.{Gives};
ghost use Rattle.fdr_storage_deck.specs.Streams.{told_bytes};

use crate::counted::count;
use crate::tries::{open_stream, read_on};
use fdr_io::{Failed, Source};
use fdr_storage::Stream;
use std::io::ErrorKind;

/// A stream as a source. It is opened at the first read.
#[derive(Drop)]
pub struct StreamSource<I: Stream + Drop> {
    stream: I,
    is_open: bool,
    faults: u64,
}

impl<I: Stream + Drop> StreamSource<I> {
    /// What this stream gives.
    pub fn new(stream: I) -> Self
        ensures stream { result.stream ≡ stream }
        ensures faults { result.faults ≡ 0 }
    {
        StreamSource {
            stream,
            is_open: false,
            faults: 0,
        }
    }

    /// Why a read failed last, if one did.
    pub fn why(&self) -> Option<ErrorKind> {
        self.stream.last_error()
    }

    // Puts the next bytes at the front of the buffer.
    fn read_stream(&mut self, buf: &mut [u8]) -> Result<usize, Failed>
        requires { 0 < length buf.old }
        ensures bound { IfOk result (λ n. n ≤ length buf.new) }
        ensures given { IfOk result (λ n. IsTrue I.tells → Gives (I.rest self.old.stream) buf.new n) }
        ensures left { IfOk result (λ n. IsTrue I.tells → I.rest self.new.stream ≡ drop n (I.rest self.old.stream)) }
        ensures kept { OnErr result (I.rest self.new.stream ≡ I.rest self.old.stream) }
        ensures faults { self.new.faults ≡ self.old.faults }
    {
        if !self.is_open {
            open_stream(&mut self.stream)?;
            self.is_open = true;
        }
        read_on(&mut self.stream, buf)
    }
}

impl<I: Stream + Drop> Source for StreamSource<I> {
    ghost rest = { λ s. told_bytes I.tells (I.rest s.stream) };

    ghost faults = { λ s. s.faults };

    #[tactic(auto, using(crate::proofs::Streaming::given_of, crate::proofs::Streaming::left_of, crate::proofs::Streaming::tells_of))]
    fn read(&mut self, buf: &mut [u8]) -> Result<usize, Failed> {
        let outcome = self.read_stream(buf);
        count(&mut self.faults, outcome)
    }
}
