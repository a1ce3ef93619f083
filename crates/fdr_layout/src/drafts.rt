//! The samples of a superframe by number, on the way to a layout.

ghost use Rattle.std.specs.Prelude.{◌≡◌, ◌<◌, ◌≤◌, ◌+◌, ◌*◌, ◌++◌, ◌∷◌, [], List, All, length, IfOk, OnOk};
ghost use Rattle.std.specs.List.{filter_map};
ghost use Rattle.fdr_table.specs.Rows.{PlaceRow};
ghost use Rattle.fdr_table.specs.Ranges.{IsPlaceInRange};
ghost use Rattle.fdr_check.specs.Occurrences.{part_width};
ghost use Rattle.fdr_layout.specs.Samples.{Sample as SampleOf, part_at, samples_of, samples};
ghost use Rattle.fdr_layout.specs.Drafts.{AreDrafted};

use crate::carriers::{Carrier, add_parts, carriers};
use crate::parts::{Part, Sample, last_bit};
use fdr_check::{Sound, places_by_param, push};
use fdr_table::{NoMemory, Place};
use std::alloc::Global;
use std::marker::Model;

/// Samples by number, the bits of their last parts, and all their parts, with where those of each sample begin and where
/// those of the last end.
#[derive(Drop)]
pub(crate) struct Draft {
    pub(crate) list: Vec<Sample>,
    pub(crate) lasts: Vec<u32>,
    pub(crate) parts: Vec<Part>,
    pub(crate) starts: Vec<u32>,
}

/// A draft with no sample.
fn no_samples(alloc: Global) -> Result<Draft, NoMemory>
    ensures { IfOk result (λ d. AreDrafted [] d.list.items d.lasts.items d.parts.items d.starts.items) }
{
    let mut starts = Vec::new(alloc);
    push(&mut starts, 0)?;
    Ok(Draft {
        list: Vec::new(alloc),
        lasts: Vec::new(alloc),
        parts: Vec::new(alloc),
        starts,
    })
}

/// Adds a sample of a parameter.
fn add_sample(
    draft: &mut Draft,
    carriers: &[Carrier],
    param: u32,
    index: u32,
) -> Result<(), NoMemory>
    requires within_superframe { length draft.old.list.items < 262144 }
    requires four { length carriers.now ≡ 4 }
    requires parts { length draft.old.parts.items ≤ 4 * length draft.old.list.items }
    ensures sample { OnOk result ((ss : List SampleOf) → AreDrafted ss draft.old.list.items draft.old.lasts.items draft.old.parts.items draft.old.starts.items
        → AreDrafted (ss ++ record { param = param; index = index; parts = filter_map (part_at index) carriers.now } ∷ [])
        draft.new.list.items draft.new.lasts.items draft.new.parts.items draft.new.starts.items) }
    ensures count { OnOk result (length draft.new.list.items ≡ length draft.old.list.items + 1) }
    ensures parts { OnOk result (length draft.new.parts.items ≤ 4 * length draft.new.list.items) }
{
    let number = draft.list.len() as u32;
    let start = draft.parts.len();
    add_parts(&mut draft.parts, carriers, number, index)?;
    let own = &draft.parts[start..];
    let sample = Sample::of_parts(number, param, index, own);
    let last = last_bit(own);
    push(&mut draft.list, sample)?;
    push(&mut draft.lasts, last)?;
    push(&mut draft.starts, draft.parts.len() as u32)?;
    Ok(())
}

/// Adds the samples of a parameter, by its own places. `slots` is room for the slots of a place.
fn add_samples(
    draft: &mut Draft,
    alloc: Global,
    slots: &mut Vec<u32>,
    words: u32,
    places: &[Place],
    param: u32,
    rate: u32,
) -> Result<(), NoMemory>
    requires some_words { 0 < words }
    requires word_limit { words ≤ 1024 }
    requires in_range { All IsPlaceInRange places.now }
    requires widths { All (λ (l : PlaceRow). l.param ≡ param → l.width ≡ part_width places.now param l.part) places.now }
    requires within_superframe { length draft.old.list.items + rate ≤ 262144 }
    requires parts { length draft.old.parts.items ≤ 4 * length draft.old.list.items }
    ensures samples { OnOk result ((ss : List SampleOf) → AreDrafted ss draft.old.list.items draft.old.lasts.items draft.old.parts.items draft.old.starts.items
        → AreDrafted (ss ++ samples_of words places.now param rate)
        draft.new.list.items draft.new.lasts.items draft.new.parts.items draft.new.starts.items) }
    ensures count { OnOk result (length draft.new.list.items ≡ length draft.old.list.items + rate) }
    ensures parts { OnOk result (length draft.new.parts.items ≤ 4 * length draft.new.list.items) }
{
    let carriers = carriers(alloc, slots, words, places, param)?;
    for index in 0..rate {
        add_sample(draft, &carriers, param, index)?;
    }
    Ok(())
}

/// The samples of a sound table.
pub(crate) fn draft_of(alloc: Global, t: &Sound) -> Result<Draft, NoMemory>
    ensures draft { IfOk result (λ d. AreDrafted (samples t.now) d.list.items d.lasts.items d.parts.items d.starts.items) }
    ensures parts { IfOk result (λ d. length d.parts.items ≤ 4 * length d.list.items) }
{
    t.holds();
    let table = t.table();
    let words = table.frame().words;
    let params = table.params();
    let groups = places_by_param(alloc, params.len(), table.places())?;
    let mut slots = Vec::new(alloc);
    let mut draft = no_samples(alloc)?;
    for (index, param) in params.iter().enumerate() {
        let places = groups[index].places();
        add_samples(
            &mut draft,
            alloc,
            &mut slots,
            words,
            places,
            index as u32,
            param.rate,
        )?;
    }
    Ok(draft)
}
