//! What each slot of a superframe takes of the samples.

ghost use Rattle.std.specs.Prelude.{◌≡◌, ◌<◌, ◌+◌, ◌^◌, ◌++◌, All, IfOk, OnOk, length, map};
ghost use Rattle.fdr_layout.specs.Flat.{segment, AreStarts};
ghost use Rattle.fdr_layout.specs.Samples.{Sample};
ghost use Rattle.fdr_sampler.specs.Kept.{owners_of, slot_parts};
ghost use Rattle.fdr_sampler.specs.Schedule.{step_of, steps_in, slot_steps};

use crate::owners::owners_of;
use crate::pieces::first_slots;
use crate::source::ones;
use fdr_check::push;
use fdr_layout::{Layout, Part};
use fdr_table::{NoMemory, Param};
use std::alloc::Global;
use std::marker::Model;

/// A part, with what its slot needs of its sample.
#[derive(Drop)]
pub(crate) struct Step {
    /// The number of the sample.
    pub(crate) sample: u32,
    /// The index of the sample's parameter.
    pub(crate) param: u32,
    /// Whether the sample begins in the slot.
    pub(crate) begins: bool,
    /// How many bits of the raw value are below the part.
    pub(crate) shift: u8,
    /// How many bits of its word are below the part, at most 11.
    pub(crate) low: u8,
    /// How many bits the part has, 1 to 12.
    width: u8,
    /// As many ones as the part has bits.
    pub(crate) ones: u16,
    /// The part's bits in its word.
    pub(crate) mask: u16,
}

impl Model for Step {
    ghost use Rattle.std.specs.Prelude.{◌≡◌, ◌+◌, ◌-◌, ◌^◌, ◌≤◌};
    ghost use Rattle.fdr_sampler.specs.Schedule.{SlotStep};

    ghost Value = { SlotStep };

    ghost view = { λ s. record { sample = s.sample; param = s.param; begins = s.begins; shift = s.shift; low = s.low; width = s.width } };

    ghost invariant = { λ s. (1 ≤ s.width) × (s.low + s.width ≤ 12) × (s.shift ≤ 36) × (s.ones ≡ 2 ^ s.width - 1)
        × (s.mask ≡ 2 ^ (s.low + s.width) - 2 ^ s.low) };
}

impl Step {
    /// The step of a part in this slot. `owners` has the parameter of each sample, and `firsts` the slot that it begins in.
    fn of(part: &Part, slot: u32, owners: &[u32], firsts: &[u32]) -> Step
        requires owner { part.now.sample < length owners.now }
        requires first { part.now.sample < length firsts.now }
        ensures { result ≡ step_of owners.now firsts.now slot part.now }
    {
        let number = part.sample as usize;
        let low = part.lsb - 1;
        Step {
            sample: part.sample,
            param: owners[number],
            begins: firsts[number] == slot,
            shift: part.shift,
            low,
            width: part.width,
            ones: ones(part.width) as u16,
            mask: (1 << (low + part.width)) - (1 << low),
        }
    }
}

/// The steps of all slots of a superframe, one slot after another, with where those of each slot begin and where those of
/// the last end.
#[derive(Drop)]
pub(crate) struct Schedule {
    layout: Layout,
    starts: Vec<usize>,
    steps: Vec<Step>,
}

impl Model for Schedule {
    ghost use Rattle.fdr_layout.specs.SlotParts.{Laid};
    ghost use Rattle.fdr_sampler.specs.Schedule.{IsSchedule};

    ghost Value = { Laid };

    ghost view = { λ s. s.layout };

    ghost invariant = { λ s. IsSchedule s.layout s.starts.items s.steps.items };
}

/// Adds the steps of a slot.
fn add_steps(
    steps: &mut Vec<Step>,
    layout: &Layout,
    slot: u32,
    owners: &[u32],
    firsts: &[u32],
) -> Result<(), NoMemory>
    requires slot { slot < length layout.now.slots }
    requires owners { length owners.now ≡ length layout.now.samples }
    requires firsts { length firsts.now ≡ length layout.now.samples }
    ensures steps { OnOk result (steps.new.items ≡ steps.old.items ++ steps_in owners.now firsts.now layout.now slot) }
    ensures numbers { OnOk result (All (λ a. a.sample < length layout.now.samples) (slot_parts layout.now slot)) }
{
    for part in layout.at_slot(slot) {
        push(steps, Step::of(part, slot, owners, firsts))?;
    }
    Ok(())
}

impl Schedule {
    /// The schedule of a layout, slot by slot.
    pub(crate) fn of(
        alloc: Global,
        layout: Layout,
        params: &[Param],
        slots: u32,
    ) -> Result<Schedule, NoMemory>
        requires slots { slots ≡ length layout.slots }
        requires within_u32 { length params.now < 2 ^ 32 }
        requires owners { owners_of params.now ≡ map (λ (s : Sample). s.param) layout.samples }
        ensures { IfOk result (λ s. s ≡ layout) }
    {
        let owners = owners_of(alloc, params)?;
        let firsts = first_slots(alloc, &layout)?;
        let mut starts = Vec::with_capacity(alloc, slots as usize + 1)?;
        let mut steps = Vec::new(alloc);
        push(&mut starts, 0)?;
        for slot in 0..slots {
            add_steps(&mut steps, &layout, slot, &owners, &firsts)?;
            push(&mut starts, steps.len())?;
        }
        Ok(Schedule {
            layout,
            starts,
            steps,
        })
    }

    /// The steps of a slot.
    pub(crate) fn at_slot(&self, slot: u32) -> &[Step]
        requires { slot < length self.now.slots }
        ensures steps { result.now ≡ slot_steps self.now slot }
        ensures numbers { All (λ a. a.sample < length self.now.samples) (slot_parts self.now slot) }
    {
        steps_at(&self.starts, &self.steps, slot)
    }
}

/// The steps of a slot, which are in a list of those of all slots.
fn steps_at<'a>(starts: &[usize], steps: &'a [Step], slot: u32) -> &'a [Step]
    requires starts { AreStarts starts.now (length steps.now) }
    requires within { slot + 1 < length starts.now }
    ensures { result.now ≡ segment starts.now steps.now slot }
{
    let start = starts[slot as usize];
    let end = starts[slot as usize + 1];
    &steps[start..end]
}
