//! The rings of two sides, either of which may have failed.

ghost use Rattle.std.specs.Prelude.{◌≡◌, ◌≤◌};
ghost use Rattle.fdr_slot.specs.Limits.{IsInLimits, sequence_end};
ghost use Rattle.fdr_pair.specs.Living.{Follows, HasLiving, is_any_living};

use crate::PairFault;
use crate::record::record_block;
use fdr_ring::Ring;
use fdr_slot::{Header, SEQUENCE_END};
use fdr_twin::Twin;

/// The rings of the sides that haven't failed, of which there is at least one. They are in images with the same header, of version 2,
/// and go on with the same number.
#[derive(Drop)]
pub struct PairRings {
    header: Header,
    first: Option<Ring>,
    second: Option<Ring>,
    next: u64,
    ghost limits: { IsInLimits header },
    ghost current: { header.version ≡ 2 },
    ghost bound: { next ≤ sequence_end },
    ghost first_follows: { Follows header next first },
    ghost second_follows: { Follows header next second },
    ghost living: { HasLiving first second },
}

impl PairRings {
    ghost use Rattle.std.specs.Prelude.{◌≡◌, ◌↔◌, ◌<◌, ◌≤◌, [], ◌∷◌, Err, length, IfOk};
    ghost use Rattle.fdr_slot.specs.Limits.{IsInLimits, sequence_end};
    ghost use Rattle.fdr_pair.specs.Living.{Follows, HasLiving};
    ghost use Rattle.fdr_pair.specs.PairRecording.{AreSettled, BothFailed, PairRecordsAll, PairRecordsFirst};

    /// The rings of both sides, None where a side has failed.
    pub fn new(header: Header, first: Option<Ring>, second: Option<Ring>, next: u64) -> PairRings
        requires limits { IsInLimits header }
        requires current { header.version ≡ 2 }
        requires bound { next ≤ sequence_end }
        requires first_follows { Follows header next first }
        requires second_follows { Follows header next second }
        requires living { HasLiving first second }
        ensures header { result.header ≡ header }
        ensures first { result.first ≡ first }
        ensures second { result.second ≡ second }
        ensures next { result.next ≡ next }
    {
        PairRings {
            header,
            first,
            second,
            next,
        }
    }

    /// The header of the images.
    pub fn header(&self) -> Header
        ensures header { result ≡ self.now.header }
        ensures limits { IsInLimits result }
    {
        self.header
    }

    /// The number of the next block, at most 2^48.
    pub fn next(&self) -> u64
        ensures number { result ≡ self.now.next }
        ensures bound { result ≤ sequence_end }
    {
        self.next
    }

    /// Puts a block of a session on each side that hasn't failed, and then announces it. `SeqEnd` is answered, without a call
    /// of the twin, exactly where there is no number left, and `DiskFault` where both sides have failed. The call stays one: at
    /// most records no block is due.
    #[inline(never)]
    pub fn record<T: Twin>(
        self,
        twin: &mut T,
        session: u32,
        bytes: &[u8],
    ) -> Result<PairRings, PairFault>
        requires settled { AreSettled T.tells self (T.pair twin.old) }
        requires some_bytes { 0 < length bytes.now }
        requires fits { length bytes.now ≤ self.header.payload }
        ensures seq_end { (result ≡ Err PairFault.SeqEnd) ↔ (self.next ≡ sequence_end) }
        ensures untouched { result ≡ Err PairFault.SeqEnd → twin.new ≡ twin.old }
        ensures records { PairRecordsFirst T.tells self
            (record { number = self.next; session = session; payload = bytes.now } ∷ []) (T.pair twin.old) (T.pair twin.new) }
        ensures recorded { IfOk result (λ r. PairRecordsAll T.tells self r
            (record { number = self.next; session = session; payload = bytes.now } ∷ []) (T.pair twin.old) (T.pair twin.new)) }
        ensures both_failed { result ≡ Err PairFault.DiskFault → BothFailed T.tells self (T.pair twin.old) (T.pair twin.new) }
    {
        let PairRings {
            header,
            first,
            second,
            next,
        } = self;
        if next == SEQUENCE_END {
            return Err(PairFault::SeqEnd);
        }
        let (first, second) = record_block(twin, first, second, next, session, bytes);
        if !is_any_living(&first, &second) {
            return Err(PairFault::DiskFault);
        }
        let next = next + 1;
        Ok(PairRings {
            header,
            first,
            second,
            next,
        })
    }
}

/// Whether a side hasn't failed. One that has has no ring.
fn is_any_living(first: &Option<Ring>, second: &Option<Ring>) -> bool
    ensures { result ≡ is_any_living first.now second.now }
{
    match first {
        Some(_) => true,
        None => match second {
            Some(_) => true,
            None => false,
        },
    }
}
