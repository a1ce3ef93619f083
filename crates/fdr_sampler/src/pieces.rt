//! The word of data of a slot.

ghost use Rattle.std.specs.Prelude.{◌≡◌, ◌<◌, ◌/◌, ◌%◌, ◌^◌, ℕ, All, IfOk, if◌then◌else◌, length, map, slice_index, slice_set};
ghost use Rattle.fdr_bits.specs.Fields.{with_field};
ghost use Rattle.fdr_layout.specs.Samples.{earliest_of, first_at};
ghost use Rattle.fdr_layout.specs.SlotParts.{plain_parts};
ghost use Rattle.fdr_sampler.specs.Held.{first_part_slot};
ghost use Rattle.fdr_sampler.specs.Kept.{raw_number_at, slot_parts, HaveValues, IsDrawnWord};

use crate::held_words::HeldWords;
use crate::moment::Moment;
use crate::schedule::{Schedule, Step};
use fdr_check::push;
use fdr_layout::{Layout, Part};
use fdr_table::NoMemory;
use std::alloc::Global;

/// The slot of the earliest of these parts; 0 where there is none.
#[tactic(auto, unfolding(fdr_layout::specs::Samples::first_at))]
fn first_slot(parts: &[Part]) -> u32
    ensures { result ≡ first_at (plain_parts parts.now) / 12 }
{
    match parts {
        [] => 0,
        [first, rest @ ..] => earliest_slot(first, rest),
    }
}

fn earliest_slot(first: &Part, parts: &[Part]) -> u32
    ensures { result ≡ earliest_of first.now.part.at (plain_parts parts.now) / 12 }
{
    let mut earliest = first.slot;
    for part in parts {
        earliest = earliest.min(part.slot);
    }
    earliest
}

/// The slot of the earliest part of each sample; 0 where there is none.
pub(crate) fn first_slots(alloc: Global, layout: &Layout) -> Result<Vec<u32>, NoMemory>
    ensures { IfOk result (λ v. v.items ≡ map first_part_slot layout.now.samples) }
{
    let mut firsts = Vec::with_capacity(alloc, layout.samples() as usize)?;
    for number in 0..layout.samples() {
        push(&mut firsts, first_slot(layout.parts(number)))?;
    }
    Ok(firsts)
}

/// The raw value of the sample of a step: it is kept from the slot that the sample begins in.
fn value_at(step: &Step, held: &HeldWords, moment: Moment, raws: &mut [u32]) -> u32
    requires param { step.now.param < length held.now.sources }
    requires number { step.now.sample < length raws.old }
    ensures value { result ≡ (if step.now.begins then raw_number_at moment.words moment.slot held.now.sources held.now.words step.now.param
        else slice_index raws.old step.now.sample) }
    ensures kept { raws.new ≡ slice_set raws.old step.now.sample result }
{
    let number = step.sample as usize;
    if step.begins {
        raws[number] = held.raw_number(step.param, moment);
    }
    raws[number]
}

/// The piece of a raw value that a step carries.
fn piece_of(raw: u32, step: &Step) -> u16
    ensures piece { result ≡ raw / 2 ^ step.now.shift % 2 ^ step.now.width }
    ensures fits { result < 2 ^ step.now.width }
{
    ((u64::from(raw) >> step.shift) & u64::from(step.ones)) as u16
}

/// The word with a step's piece of a raw value in the step's bits.
fn with_piece(word: u16, step: &Step, raw: u32) -> u16
    requires { word < 4096 }
    ensures value { result ≡ with_field word step.now.low step.now.width (raw / 2 ^ step.now.shift % 2 ^ step.now.width) }
    ensures twelve_bits { result < 4096 }
{
    (word & !step.mask) | (piece_of(raw, step) << step.low)
}

/// The pieces of the parts in a slot of the superframe, which is sampled at this moment, with 0 in all other bits.
pub(crate) fn data_word(
    schedule: &Schedule,
    slot: u32,
    held: &HeldWords,
    moment: Moment,
    raws: &mut [u32],
) -> u16
    requires slot { slot < length schedule.now.slots }
    requires params { All (λ s. s.param < length held.now.sources) schedule.now.samples }
    requires raws { length raws.old ≡ length schedule.now.samples }
    ensures word { (value : ℕ → ℕ) → HaveValues value schedule.now slot
        (raw_number_at moment.words moment.slot held.now.sources held.now.words) raws.old → IsDrawnWord value (slot_parts schedule.now slot) raws.old raws.new result }
    ensures twelve_bits { result < 4096 }
{
    let mut word = 0;
    for step in schedule.at_slot(slot) {
        let raw = value_at(step, held, moment, raws);
        word = with_piece(word, step, raw);
    }
    word
}
