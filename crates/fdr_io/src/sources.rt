//! Sources of bytes.

ghost use Rattle.std.specs.Prelude.{◌≡◌, ℕ, ◌+◌, ◌-◌, ◌<◌, ◌≤◌, ◌↔◌, ◌^◌, List, Option, Some, length, drop, min, is_some, IfOk, IfSome, IsOk, IsErr, OnOk, OnErr, Contains};
ghost use Rattle.fdr_io.specs.Faults.{Rose, next_count};
ghost use Rattle.fdr_io.specs.Told.{Gives, without_first};

use crate::Failed;
use crate::failing::FailingCalls;
use std::marker::Model;

/// A source of bytes that may fail. It counts its faults.
pub trait Source {
    // The bytes that are left, where the source tells them.
    ghost rest: { Self → Option (List ℕ) };

    // How many faults there were. At 2^64 - 1 the count stands still.
    ghost faults: { Self → ℕ };

    /// Puts the next bytes at the front of the buffer and answers how many, 0 at the end alone.
    /// After `Failed` the next call begins where this one did.
    fn read(&mut self, buf: &mut [u8]) -> Result<usize, Failed>
        requires { 0 < length buf.old }
        ensures bound { IfOk result (λ n. n ≤ length buf.new) }
        ensures given { IfOk result (λ n. IfSome (rest self.old) (λ left. Gives left buf.new n)) }
        ensures taken { IfOk result (λ n. rest self.new ≡ without_first n (rest self.old)) }
        ensures kept { OnErr result (rest self.new ≡ rest self.old) }
        ensures tells { is_some (rest self.new) ≡ is_some (rest self.old) }
        ensures cause { OnErr result (Rose (faults self.old) (faults self.new)) }
        ensures no_fault { OnOk result (faults self.new ≡ faults self.old) }
        ensures monotone { faults self.old ≤ faults self.new };
}

/// Copies what fits of the bytes from `at` on to the front of the buffer, and answers how many.
pub fn copy_next(bytes: &[u8], at: usize, buf: &mut [u8]) -> usize
    requires inside { at ≤ length bytes.now }
    requires room { 0 < length buf.old }
    ensures count { result ≡ min (length bytes.now - at) (length buf.new) }
    ensures given { Gives (drop at bytes.now) buf.new result }
{
    let left = &bytes[at..];
    let n = left.len().min(buf.len());
    buf[..n].copy_from_slice(&left[..n]);
    n
}

/// A source in memory whose listed calls fail.
#[derive(Drop)]
pub struct MemSource {
    bytes: Vec<u8>,
    at: usize,
    calls: FailingCalls,
    faults: u64,
}

impl Model for MemSource {
    ghost use Rattle.std.specs.Prelude.{◌≤◌, length, drop};
    ghost use Rattle.fdr_io.specs.Fakes.{Supply};

    ghost Value = { Supply };

    ghost view = { λ s. record { left = drop s.at s.bytes.items; plan = s.calls; faults = s.faults } };

    ghost invariant = { λ s. s.at ≤ length s.bytes.items };
}

impl MemSource {
    /// A source of these bytes. The calls whose numbers are listed fail, and take nothing. Calls
    /// are numbered from 0.
    pub fn new(bytes: Vec<u8>, failing: Vec<u64>) -> Self
        ensures { result ≡ record {
          left = bytes.items;
          plan = record { failing = failing.items; next = 0 };
          faults = 0;
        } }
    {
        MemSource {
            bytes,
            at: 0,
            calls: FailingCalls::new(failing),
            faults: 0,
        }
    }
}

impl Source for MemSource {
    ghost rest = { λ s. Some s.left };

    ghost faults = { λ s. s.faults };

    #[tactic(auto, unfolding(crate::specs::Told::without_first))]
    fn read(&mut self, buf: &mut [u8]) -> Result<usize, Failed>
        requires { 0 < length buf.old }
        ensures bound { IfOk result (λ n. n ≤ length buf.new) }
        ensures given { IfOk result (λ n. Gives self.old.left buf.new n) }
        ensures taken { IfOk result (λ n. Some self.new.left ≡ without_first n (Some self.old.left)) }
        ensures kept { OnErr result (self.new.left ≡ self.old.left) }
        ensures cause { OnErr result (self.new.faults ≡ next_count self.old.faults) }
        ensures no_fault { OnOk result (self.new.faults ≡ self.old.faults) }
        ensures monotone { self.old.faults ≤ self.new.faults }
        ensures full { IfOk result (λ n. n ≡ min (length self.old.left) (length buf.new)) }
        ensures listed { IsErr result ↔ Contains self.old.plan.failing self.old.plan.next }
        ensures counted { self.new.plan ≡ record self.old.plan { next = next_count self.old.plan.next } }
    {
        if let Err(failed) = self.calls.enter() {
            self.faults = self.faults.saturating_add(1);
            return Err(failed);
        }
        let n = copy_next(&self.bytes, self.at, buf);
        self.at += n;
        Ok(n)
    }
}

/// A source in memory that never fails.
#[derive(Drop)]
pub struct SureSource {
    bytes: Vec<u8>,
    at: usize,
}

impl Model for SureSource {
    ghost use Rattle.std.specs.Prelude.{◌≤◌, ℕ, List, length, drop};

    ghost Value = { List ℕ };

    ghost view = { λ s. drop s.at s.bytes.items };

    ghost invariant = { λ s. s.at ≤ length s.bytes.items };
}

impl SureSource {
    /// A source of these bytes.
    pub fn new(bytes: Vec<u8>) -> Self
        ensures { result ≡ bytes.items }
    {
        SureSource { bytes, at: 0 }
    }
}

impl Source for SureSource {
    ghost rest = { λ s. Some s };

    ghost faults = { λ _. 0 };

    #[tactic(auto, unfolding(crate::specs::Told::without_first))]
    fn read(&mut self, buf: &mut [u8]) -> Result<usize, Failed>
        requires { 0 < length buf.old }
        ensures bound { IfOk result (λ n. n ≤ length buf.new) }
        ensures given { IfOk result (λ n. Gives self.old buf.new n) }
        ensures taken { IfOk result (λ n. Some self.new ≡ without_first n (Some self.old)) }
        ensures full { IfOk result (λ n. n ≡ min (length self.old) (length buf.new)) }
        ensures sure { IsOk result }
    {
        let n = copy_next(&self.bytes, self.at, buf);
        self.at += n;
        Ok(n)
    }
}
