//! Sinks of bytes.

ghost use Rattle.std.specs.Prelude.{◌≡◌, ℕ, ◌+◌, ◌-◌, ◌<◌, ◌≤◌, ◌^◌, List, [], ◌++◌, Option, Some, None, length, take, min, is_some, IfOk, IsOkAnd, IsErr, OnOk, OnErr, Contains};
ghost use Rattle.fdr_io.specs.Faults.{Rose, next_count};
ghost use Rattle.fdr_io.specs.Told.{followed_by};

use crate::Failed;
use crate::failing::FailingCalls;
use std::alloc::Global;
use std::marker::Model;

/// A sink of bytes that may fail. It counts its faults.
pub trait Sink {
    // The bytes that were written, where the sink tells them.
    ghost written: { Self → Option (List ℕ) };

    // How many faults there were. At 2^64 - 1 the count stands still.
    ghost faults: { Self → ℕ };

    /// Takes bytes from the front and answers how many, at least one. `Failed` took none.
    fn write(&mut self, bytes: &[u8]) -> Result<usize, Failed>
        requires { 0 < length bytes.now }
        ensures some_bytes { IfOk result (λ n. 0 < n) }
        ensures bound { IfOk result (λ n. n ≤ length bytes.now) }
        ensures taken { IfOk result (λ n. written self.new ≡ followed_by (written self.old) (take n bytes.now)) }
        ensures kept { OnErr result (written self.new ≡ written self.old) }
        ensures tells { is_some (written self.new) ≡ is_some (written self.old) }
        ensures cause { OnErr result (Rose (faults self.old) (faults self.new)) }
        ensures no_fault { OnOk result (faults self.new ≡ faults self.old) }
        ensures monotone { faults self.old ≤ faults self.new };
}

/// Writes all the bytes, however many calls it takes. At `Failed` a front part of them went out.
#[tactic(auto, using(crate::proofs::Telling::telling))]
pub fn write_whole<S: Sink>(out: &mut S, bytes: &[u8]) -> Result<(), Failed>
    ensures whole { OnOk result (S.written out.new ≡ followed_by (S.written out.old) bytes.now) }
    ensures part { OnErr result ((k : ℕ) × (S.written out.new ≡ followed_by (S.written out.old) (take k bytes.now))) }
    ensures cause { OnErr result (Rose (S.faults out.old) (S.faults out.new)) }
    ensures no_fault { OnOk result (S.faults out.new ≡ S.faults out.old) }
    ensures monotone { S.faults out.old ≤ S.faults out.new }
{
    let mut sent = 0;
    while sent < bytes.len() {
        sent += out.write(&bytes[sent..])?;
    }
    Ok(())
}

/// A sink in memory whose listed calls fail.
#[derive(Drop)]
pub struct MemSink {
    bytes: Vec<u8>,
    calls: FailingCalls,
    faults: u64,
}

impl Model for MemSink {
    ghost use Rattle.fdr_io.specs.Fakes.{Record};

    ghost Value = { Record };

    ghost view = { λ s. record { written = s.bytes.items; plan = s.calls; faults = s.faults } };
}

impl MemSink {
    /// An empty sink, which takes no memory yet. The calls whose numbers are listed fail, and take
    /// nothing. Calls are numbered from 0.
    pub fn new(alloc: Global, failing: Vec<u64>) -> Self
        ensures { result ≡ record {
          written = [];
          plan = record { failing = failing.items; next = 0 };
          faults = 0;
        } }
    {
        MemSink {
            bytes: Vec::new(alloc),
            calls: FailingCalls::new(failing),
            faults: 0,
        }
    }

    /// What was written.
    pub fn bytes(&self) -> &[u8]
        ensures { result.now ≡ self.now.written }
    {
        &self.bytes
    }

    fn fail(&mut self) -> Result<usize, Failed>
        ensures failed { IsErr result }
        ensures monotone { self.old.faults ≤ self.new.faults }
        ensures after { self.new ≡ record self.old { faults = next_count self.old.faults } }
    {
        self.faults = self.faults.saturating_add(1);
        Err(Failed)
    }
}

impl Sink for MemSink {
    ghost written = { λ s. Some s.written };

    ghost faults = { λ s. s.faults };

    // A write that finds no memory fails too.
    #[tactic(auto, unfolding(crate::specs::Told::followed_by))]
    fn write(&mut self, bytes: &[u8]) -> Result<usize, Failed>
        requires { 0 < length bytes.now }
        ensures all { IfOk result (λ n. n ≡ length bytes.now) }
        ensures taken { IfOk result (λ n. Some self.new.written ≡ followed_by (Some self.old.written) (take n bytes.now)) }
        ensures kept { OnErr result (self.new.written ≡ self.old.written) }
        ensures cause { OnErr result (self.new.faults ≡ next_count self.old.faults) }
        ensures no_fault { OnOk result (self.new.faults ≡ self.old.faults) }
        ensures monotone { self.old.faults ≤ self.new.faults }
        ensures listed { Contains self.old.plan.failing self.old.plan.next → IsErr result }
        ensures counted { self.new.plan ≡ record self.old.plan { next = next_count self.old.plan.next } }
    {
        if self.calls.enter().is_err() {
            return self.fail();
        }
        match self.bytes.extend_from_slice(bytes) {
            Ok(()) => Ok(bytes.len()),
            Err(_) => self.fail(),
        }
    }
}

/// A sink that keeps nothing, tells nothing and never fails.
#[derive(Clone, Copy, Debug)]
pub struct NullSink;

impl NullSink {
    /// The sink.
    pub fn new() -> Self {
        NullSink
    }
}

impl Sink for NullSink {
    ghost written = { λ _. None };

    ghost faults = { λ _. 0 };

    #[tactic(auto, unfolding(crate::specs::Told::followed_by))]
    fn write(&mut self, bytes: &[u8]) -> Result<usize, Failed>
        requires { 0 < length bytes.now }
        ensures all { IsOkAnd result (λ n. n ≡ length bytes.now) }
        ensures taken { IfOk result (λ n. None ≡ followed_by None (take n bytes.now)) }
    {
        Ok(bytes.len())
    }
}
