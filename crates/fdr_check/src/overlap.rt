//! Places that share a bit.

ghost use Rattle.std.specs.Prelude.{◌≡◌, ◌<◌, ◌≤◌, IfOk, [], ◌∷◌, None};
ghost use Rattle.fdr_check.specs.Faults.{overlap_at, overlap_with, overlap_among};
ghost use Rattle.fdr_check.specs.Occurrences.{slots_of};
ghost use Rattle.fdr_check.specs.Walks.{AreMarks};

use crate::marks::{first_marked, mark, unmarked};
use crate::walk::put_slots;
use fdr_table::{NoMemory, Place, TableFault};
use std::alloc::Global;

/// A row and its fault, where there is one.
pub(crate) type RowFault = Option<(u32, TableFault)>;

/// The fault of two places that share this bit of the superframe.
fn overlap_at(words: u32, first: &Place, second: &Place, bit: u32) -> TableFault
    requires some_words { 0 < words }
    ensures { result ≡ overlap_at words first.now second.now bit }
{
    TableFault::Overlap {
        first: first.row,
        second: second.row,
        word: bit / 12 % words + 1,
        bit: (bit % 12) as u8 + 1,
    }
}

/// The fault of a place whose bits are marked, with the first place above that takes one of them.
fn overlap_above(
    alloc: Global,
    words: u32,
    above: &[Place],
    place: &Place,
    marks: &[u16],
) -> Result<RowFault, NoMemory>
    requires some_words { 0 < words }
    requires word_limit { words ≤ 1024 }
    requires marks { AreMarks words (place.now ∷ []) marks.now }
    ensures { IfOk result (λ f. f ≡ overlap_with words above.now place.now) }
{
    let mut slots = Vec::new(alloc);
    for other in above {
        put_slots(&mut slots, words, other)?;
        if let Some(bit) = first_marked(words, other, &slots, marks) {
            return Ok(Some((place.row, overlap_at(words, other, place, bit))));
        }
    }
    Ok(None)
}

/// The fault of a place that shares a bit with a place above it; its slots are given.
fn overlap_with(
    alloc: Global,
    words: u32,
    above: &[Place],
    place: &Place,
    slots: &[u32],
) -> Result<RowFault, NoMemory>
    requires some_words { 0 < words }
    requires word_limit { words ≤ 1024 }
    requires slots { slots.now ≡ slots_of words place.now }
    ensures { IfOk result (λ f. f ≡ overlap_with words above.now place.now) }
{
    let mut marks = unmarked(alloc, words)?;
    mark(words, place, slots, &mut marks);
    overlap_above(alloc, words, above, place, &marks)
}

/// The same, where the bits of the places above are marked: only a place that takes one of them is looked at again.
fn overlap_of(
    alloc: Global,
    words: u32,
    above: &[Place],
    place: &Place,
    slots: &[u32],
    marks: &[u16],
) -> Result<RowFault, NoMemory>
    requires some_words { 0 < words }
    requires word_limit { words ≤ 1024 }
    requires slots { slots.now ≡ slots_of words place.now }
    requires marks { AreMarks words above.now marks.now }
    ensures { IfOk result (λ f. f ≡ overlap_with words above.now place.now) }
{
    if first_marked(words, place, slots, marks).is_none() {
        return Ok(None);
    }
    overlap_with(alloc, words, above, place, slots)
}

/// The first place that shares a bit with a place above it.
pub(crate) fn overlap_among(
    alloc: Global,
    words: u32,
    places: &[Place],
) -> Result<RowFault, NoMemory>
    requires some_words { 0 < words }
    requires word_limit { words ≤ 1024 }
    ensures { IfOk result (λ f. f ≡ overlap_among words places.now) }
{
    let mut marks = unmarked(alloc, words)?;
    let mut slots = Vec::new(alloc);
    for (index, place) in places.iter().enumerate() {
        put_slots(&mut slots, words, place)?;
        let overlap = overlap_of(alloc, words, &places[..index], place, &slots, &marks)?;
        if overlap.is_some() {
            return Ok(overlap);
        }
        mark(words, place, &slots, &mut marks);
    }
    Ok(None)
}
