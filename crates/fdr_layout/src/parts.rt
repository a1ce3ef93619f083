//! Samples and their parts.

ghost use Rattle.std.specs.Prelude.{◌≡◌, ◌/◌, ◌%◌, ◌<◌, ◌≤◌, length};
ghost use Rattle.fdr_layout.specs.Drafts.{listed};
ghost use Rattle.fdr_layout.specs.SlotParts.{plain_parts};
ghost use Rattle.fdr_layout.specs.Ranges.{LieInWord};
ghost use Rattle.fdr_layout.specs.Samples.{earliest_of, first_at, last_at};

use std::marker::Model;

/// A part of a sample, which lies in one word of the superframe.
#[derive(Clone, Copy, Debug, PartialEq, Eq)]
pub struct Part {
    /// The word slot, counted from the superframe's start.
    pub slot: u32,
    /// The part's lowest bit in its word, 1 to 12.
    pub lsb: u8,
    /// How many bits the part has, 1 to 12.
    pub width: u8,
    /// How many bits of the raw value are below the part, at most 36.
    pub shift: u8,
    /// The number of the part's sample.
    pub sample: u32,
}

impl Model for Part {
    ghost use Rattle.std.specs.Prelude.{◌+◌, ◌-◌, ◌*◌, ◌/◌, ◌%◌};
    ghost use Rattle.fdr_layout.specs.SlotParts.{SlotPart};
    ghost use Rattle.fdr_layout.specs.Ranges.{IsPart};

    ghost Value = { SlotPart };

    ghost view = { λ p. record { sample = p.sample; part = record { at = 12 * p.slot + (p.lsb - 1); width = p.width; shift = p.shift } } };

    ghost invariant = { λ p. IsPart p.slot p.lsb p.width p.shift };

    ghost inverse = { λ a. record { slot = a.part.at / 12; lsb = a.part.at % 12 + 1; width = a.part.width; shift = a.part.shift; sample = a.sample } };
}

impl Part {
    ghost use Rattle.fdr_layout.specs.Ranges.{LieInWord};

    /// The part whose lowest bit is this bit of the superframe.
    pub(crate) fn at_bit(bit: u32, width: u8, shift: u8, sample: u32) -> Part
        requires place { LieInWord bit width }
        requires shift { shift ≤ 36 }
        ensures { result ≡ record { sample = sample; part = record { at = bit; width = width; shift = shift } } }
    {
        Part {
            slot: bit / 12,
            lsb: (bit % 12) as u8 + 1,
            width,
            shift,
            sample,
        }
    }

    /// The bit of the superframe that is the part's lowest.
    pub(crate) fn bit(&self) -> u32
        ensures bit { result ≡ self.now.part.at }
        ensures within { result < 786432 }
    {
        12 * self.slot + (u32::from(self.lsb) - 1)
    }
}

/// A sample of a parameter within a superframe.
#[derive(Clone, Copy, Debug, PartialEq, Eq)]
pub struct Sample {
    /// The sample's number: samples are numbered by their parameter and then by their index.
    pub number: u32,
    /// The index of the parameter in its table.
    pub param: u32,
    /// The number of the sample within the superframe, among those of its parameter.
    pub index: u32,
    /// The word slot of the earliest part, counted from the superframe's start; 0 where there is no part.
    pub first: u32,
    /// The word slot of the last part; 0 where there is no part.
    pub last: u32,
}

impl Sample {
    ghost use Rattle.fdr_layout.specs.Drafts.{listed};
    ghost use Rattle.fdr_layout.specs.SlotParts.{plain_parts};

    /// The sample with these parts.
    pub(crate) fn of_parts(number: u32, param: u32, index: u32, parts: &[Part]) -> Sample
        ensures { result ≡ listed (number, record { param = param; index = index; parts = plain_parts parts.now }) }
    {
        Sample {
            number,
            param,
            index,
            first: first_bit(parts) / 12,
            last: last_bit(parts) / 12,
        }
    }
}

/// Where the earliest of these parts begins; 0 where there is none.
#[tactic(auto, unfolding(crate::specs::Samples::first_at))]
fn first_bit(parts: &[Part]) -> u32
    ensures { result ≡ first_at (plain_parts parts.now) }
{
    match parts {
        [] => 0,
        [first, rest @ ..] => earliest_of(first.bit(), rest),
    }
}

fn earliest_of(at: u32, parts: &[Part]) -> u32
    ensures { result ≡ earliest_of at (plain_parts parts.now) }
{
    let mut earliest = at;
    for part in parts {
        earliest = earliest.min(part.bit());
    }
    earliest
}

/// Where the last of these parts begins; 0 where there is none.
#[tactic(auto, unfolding(crate::specs::Samples::last_at))]
pub(crate) fn last_bit(parts: &[Part]) -> u32
    ensures { result ≡ last_at (plain_parts parts.now) }
{
    let mut last = 0;
    for part in parts {
        last = last.max(part.bit());
    }
    last
}
