//! Times, counted in word slots.

ghost use Rattle.std.specs.Prelude.{◌≡◌, ◌<◌, ◌≤◌, ◌+◌, ◌^◌, ◌↔◌, IsTrue};
ghost use Rattle.fdr_bus.specs.Records.{last_time};
ghost use Rattle.fdr_sampler.specs.SlotTimes.{slot_time, time_of_slot, slots_before};

use fdr_table::Frame;
use std::marker::Model;

/// A time since the start of a recording, in millionths of a word slot. Where W slots are sampled a second, slot k is sampled
/// at k * 1,000,000 of them, and t microseconds are t * W. Both are whole numbers, so that a bus word's time and a slot's are
/// compared without a division.
#[derive(Clone, Copy)]
pub struct SlotTime {
    millionths: u64,
}

impl Model for SlotTime {
    ghost use Rattle.std.specs.Prelude.{ℕ};

    ghost Value = { ℕ };

    ghost view = { λ t. t.millionths };

    ghost inverse = { λ n. record { millionths = n } };
}

impl SlotTime {
    /// The start of a recording.
    pub fn start() -> SlotTime
        ensures { result ≡ 0 }
    {
        SlotTime { millionths: 0 }
    }

    /// A time in microseconds, where a second has as many slots as a subframe has words.
    pub fn of_time(time: u64, frame: Frame) -> SlotTime
        requires { time ≤ last_time }
        ensures { result ≡ slot_time frame.words time }
    {
        SlotTime {
            millionths: time * u64::from(frame.words),
        }
    }

    /// When a slot is sampled, by its number, which counts from 0.
    pub fn of_slot(slot: u64) -> SlotTime
        requires { time_of_slot slot < 2 ^ 64 }
        ensures { result ≡ time_of_slot slot }
    {
        SlotTime {
            millionths: slot * 1_000_000,
        }
    }

    /// Whether this time is before another one.
    pub fn is_before(self, other: SlotTime) -> bool
        ensures { IsTrue result ↔ (self < other) }
    {
        self.millionths < other.millionths
    }

    /// How many slots are sampled before this time. It takes a division.
    pub fn slots_before(self) -> u64
        requires { self + 999999 < 2 ^ 64 }
        ensures { result ≡ slots_before self }
    {
        (self.millionths + 999_999) / 1_000_000
    }
}
