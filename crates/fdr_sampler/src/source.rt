//! Where the parameters come from.

ghost use Rattle.std.specs.Prelude.{◌≡◌, ◌<◌, ◌≤◌, ◌+◌, ◌-◌, ◌*◌, ◌^◌, ℕ, Some};
ghost use Rattle.fdr_sampler.specs.Held.{Source, source_of, is_fresh, field_held, raw_of_held};
ghost use Rattle.fdr_sampler.specs.HeldWords.{bus_labels, as_held_word, own_word, place_of};

use crate::moment::Moment;
use crate::timed_word::TimedWord;
use fdr_bus::label;
use fdr_table::Param;
use std::marker::Model;

/// Which of the five words that are held of a bus and a label is of any SDI; the others are of SDI 0 to 3.
pub(crate) const ANY_SDI: u32 = 4;

/// Where a parameter comes from: the words of a bus, and the field in them that has its raw number; how long they are
/// fresh, and whether the raw number tells freshness in place of a field.
#[derive(Drop)]
pub(crate) struct Source {
    bus: u8,
    label: u8,
    sdi: Option<u8>,
    lsb: u8,
    width: u8,
    // As many ones as the field has bits.
    ones: u32,
    // In microseconds; none where words are fresh for good.
    age: Option<u64>,
    tells: bool,
}

impl Model for Source {
    ghost use Rattle.std.specs.Prelude.{◌≡◌, ◌+◌, ◌-◌, ◌^◌, ◌≤◌, IsTrue, nat_le, true};
    ghost use Rattle.std.specs.Option.{option_map_or};
    ghost use Rattle.fdr_sampler.specs.Held.{Source};

    ghost Value = { Source };

    ghost view = { λ s. record { bus = s.bus; label = s.label; sdi = s.sdi; lsb = s.lsb; width = s.width; age = s.age; tells = s.tells } };

    ghost invariant = { λ s. (1 ≤ s.lsb) × (1 ≤ s.width) × (s.lsb + s.width ≤ 33) × IsTrue (option_map_or (λ sdi. nat_le sdi 3) s.sdi true)
        × (s.ones ≡ 2 ^ s.width - 1) };
}

impl Source {
    /// The source of a parameter.
    pub(crate) fn of(param: &Param) -> Source
        ensures { result ≡ source_of param.now }
    {
        Source {
            bus: param.bus,
            label: param.label,
            sdi: param.sdi,
            lsb: param.lsb,
            width: param.width,
            ones: ones(param.width),
            age: param.age,
            tells: param.tells,
        }
    }

    /// The raw number at a moment, where this is held.
    #[tactic(auto, unfolding(crate::specs::Held::raw_of_held))]
    pub(crate) fn raw_at(&self, held: TimedWord, moment: Moment) -> u32
        ensures { result ≡ raw_of_held moment.words self.now moment.slot (as_held_word held) }
    {
        if self.tells {
            if self.is_fresh(held, moment) { 1 } else { 0 }
        } else if self.age.is_none() || self.is_fresh(held, moment) {
            self.field(held)
        } else {
            self.ones
        }
    }

    /// Whether what is held is fresh at a moment.
    fn is_fresh(&self, held: TimedWord, moment: Moment) -> bool
        ensures { result ≡ is_fresh moment.words self.now moment.slot (as_held_word held) }
    {
        held.word != 0
            && match self.age {
                Some(age) => moment.is_within(held.time, age),
                None => true,
            }
    }

    /// The field of what is held, or 0 where nothing is.
    fn field(&self, held: TimedWord) -> u32
        ensures { result ≡ field_held self.now (as_held_word held) }
    {
        (held.word >> (self.lsb - 1)) & self.ones
    }

    /// Which of the words of its bus and label is the source's: the one of its SDI, or else the last one.
    pub(crate) fn own_word(&self) -> u32
        ensures value { result ≡ own_word self.now.sdi }
        ensures within { result < 5 }
        ensures two_bits { (sdi : ℕ) → self.now.sdi ≡ Some sdi → sdi < 4 }
    {
        match self.sdi {
            Some(sdi) => u32::from(sdi),
            None => ANY_SDI,
        }
    }

    /// Where the source is in the order of buses and of the first bytes of bus words.
    pub(crate) fn place(&self) -> u32
        ensures value { result ≡ place_of self.now }
        ensures within { result < bus_labels }
        ensures label { self.now.label < 256 }
    {
        place(self.bus, label(u32::from(self.label)))
    }
}

/// A number whose lowest `count` bits are 1.
pub(crate) fn ones(count: u8) -> u32
    requires some { 1 ≤ count }
    requires few { count ≤ 32 }
    ensures { result ≡ 2 ^ count - 1 }
{
    u32::MAX >> (32 - count)
}

/// Where the words of a bus with a first byte, which has their label, are in the order of these.
pub(crate) fn place(bus: u8, first: u8) -> u32
    ensures value { result ≡ bus * 256 + first }
    ensures within { result < bus_labels }
{
    u32::from(bus) * 256 + u32::from(first)
}
