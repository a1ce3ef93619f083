//! The moments at which word slots are sampled.

ghost use Rattle.std.specs.Prelude.{◌≡◌, ◌+◌, nat_le};
ghost use Rattle.fdr_sampler.specs.SlotTimes.{slot_time, time_of_slot};

/// A word slot of a recording, as the moment at which it is sampled.
#[derive(Clone, Copy)]
pub(crate) struct Moment {
    /// The slot's number, counted from 0.
    pub(crate) slot: u64,
    /// How many slots are sampled in a second: as many as a subframe has words.
    pub(crate) words: u32,
}

impl Moment {
    /// Whether a bus word of this time isn't older than `age` at the moment, both in microseconds.
    pub(crate) fn is_within(self, time: u64, age: u64) -> bool
        ensures { result ≡ nat_le (time_of_slot self.slot) (slot_time self.words (time + age)) }
    {
        let last = (u128::from(time) + u128::from(age)) * u128::from(self.words);
        u128::from(self.slot) * 1_000_000 <= last
    }
}
