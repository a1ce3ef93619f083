//! The flat lists of a layout.

ghost use Rattle.std.specs.Prelude.{IfOk, ◌<◌, ◌≤◌, ◌≡◌};
ghost use Rattle.fdr_layout.specs.Samples.{samples};
ghost use Rattle.fdr_layout.specs.Drafts.{AreFlatLists};

use crate::drafts::{Draft, draft_of};
use crate::order::{bits_of, by_bit, cycle_starts, picked};
use crate::parts::{Part, Sample};
use fdr_check::{Sorted, Sound};
use fdr_table::NoMemory;
use std::alloc::Global;

/// The samples of a superframe by the cycle in which they end, and their parts by sample and by word slot. Of each list it
/// keeps where the items of each cycle, sample and slot begin, and where the last of them end.
#[derive(Drop)]
pub(crate) struct FlatLists {
    pub(crate) ending: Vec<Sample>,
    pub(crate) cycle_starts: Vec<u32>,
    pub(crate) by_sample: Vec<Part>,
    pub(crate) sample_starts: Vec<u32>,
    pub(crate) by_slot: Vec<Part>,
    pub(crate) slot_starts: Vec<u32>,
}

/// How many words a subframe of the table's frames has.
fn words_of(t: &Sound) -> u32
    ensures words { result ≡ t.now.frame.words }
    ensures some_words { 0 < result }
    ensures word_limit { result ≤ 1024 }
{
    t.holds();
    t.table().frame().words
}

/// The flat lists of a sound table's layout.
pub(crate) fn flat_lists(alloc: Global, t: &Sound) -> Result<FlatLists, NoMemory>
    ensures { IfOk result (λ l. AreFlatLists (samples t.now) t.now.frame.words l) }
{
    t.holds();
    let words = words_of(t);
    let Draft {
        list,
        lasts,
        parts,
        starts,
    } = draft_of(alloc, t)?;
    let bits = bits_of(alloc, &parts)?;
    let ends = by_bit(alloc, words, &lasts)?;
    let slots = by_bit(alloc, words, &bits)?;
    let Sorted {
        starts: slot_starts,
        numbers,
    } = slots;
    let by_slot = picked(alloc, &parts, &numbers)?;
    let cycle_starts = cycle_starts(alloc, words, &ends.starts)?;
    let ending = picked(alloc, &list, &ends.numbers)?;
    Ok(FlatLists {
        ending,
        cycle_starts,
        by_sample: parts,
        sample_starts: starts,
        by_slot,
        slot_starts,
    })
}
