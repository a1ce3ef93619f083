//! The samples of a table, by the cycle in which they end, and their parts by word slot.

ghost use Rattle.std.specs.Prelude.{◌≡◌, ◌<◌, ◌≤◌, ◌+◌, ◌^◌, Some, length, map, slice_get, All, IfOk};
ghost use Rattle.fdr_layout.specs.SlotParts.{laid_of, parts_of_sample};
ghost use Rattle.fdr_layout.specs.Flat.{segment, AreStarts};
ghost use Rattle.fdr_layout.specs.Listed.{numbered_parts, sample_in, IsListedSample};

use crate::flat::{FlatLists, flat_lists};
use crate::parts::{Part, Sample};
use fdr_check::Sound;
use fdr_table::NoMemory;
use std::alloc::Global;
use std::marker::Model;

/// Where the samples of a table are in a superframe: by the cycle in which they end, and the parts by word slot and by
/// sample.
#[derive(Drop)]
pub struct Layout {
    lists: FlatLists,
}

impl Model for Layout {
    ghost use Rattle.fdr_layout.specs.SlotParts.{Laid};

    ghost Value = { Laid };

    ghost use Rattle.fdr_layout.specs.LayoutView.{laid, IsKept};

    ghost view = { λ l. laid l.lists };

    ghost invariant = { λ l. IsKept l.lists };
}

impl Layout {
    /// The layout of a sound table. Fails only where memory ends.
    pub fn make(alloc: Global, t: &Sound) -> Result<Layout, NoMemory>
        ensures { IfOk result (λ l. l ≡ laid_of t.now) }
    {
        t.holds();
        Ok(Layout {
            lists: flat_lists(alloc, t)?,
        })
    }

    /// The parts that are in word slot `k` of the superframe, by lowest bit. Takes no memory.
    pub fn at_slot(&self, k: u32) -> &[Part]
        requires { k < length self.now.slots }
        ensures parts { slice_get self.now.slots k ≡ Some result.now }
        ensures numbers { All (λ a. a.sample < length self.now.samples) result.now }
    {
        segment(&self.lists.slot_starts, &self.lists.by_slot, k)
    }

    /// The samples whose last part lies in a cycle, in the order of last parts. Takes no memory.
    pub fn ending_in(&self, cycle: u8) -> &[Sample]
        requires { cycle < 16 }
        ensures samples { slice_get self.now.cycles cycle ≡ Some (map (sample_in self.now) result.now) }
        ensures listed { All (IsListedSample self.now) result.now }
        ensures countable { length result.now < 2 ^ 32 }
        ensures cycles { length self.now.cycles ≡ 16 }
    {
        segment(
            &self.lists.cycle_starts,
            &self.lists.ending,
            u32::from(cycle),
        )
    }

    /// The parts of the sample with this number, by part number. Takes no memory.
    pub fn parts(&self, sample: u32) -> &[Part]
        requires { sample < length self.now.samples }
        ensures parts { result.now ≡ parts_of_sample sample (numbered_parts self.now sample) }
        ensures four_parts { length result.now ≤ 4 }
    {
        segment(&self.lists.sample_starts, &self.lists.by_sample, sample)
    }

    /// How many samples a superframe has. Samples are numbered by their parameter and then by their index. Takes no
    /// memory.
    pub fn samples(&self) -> u32
        ensures { result ≡ length self.now.samples }
    {
        (self.lists.sample_starts.len() - 1) as u32
    }
}

/// List `k` of several that are one after another.
fn segment<'a, T>(starts: &[u32], items: &'a [T], k: u32) -> &'a [T]
    requires starts { AreStarts starts.now (length items.now) }
    requires within { k + 1 < length starts.now }
    ensures { result.now ≡ segment starts.now items.now k }
{
    let start = starts[k as usize] as usize;
    let end = starts[k as usize + 1] as usize;
    &items[start..end]
}
