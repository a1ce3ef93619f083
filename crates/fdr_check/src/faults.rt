//! The faults of a table whose rows are read, in their order.

ghost use Rattle.std.specs.Prelude.{◌≡◌, ◌<◌, ◌≤◌, ◌==◌, ◌^◌, nat_lt, length, IfOk, ◌∷◌, []};
ghost use Rattle.fdr_table.specs.Rows.{PlaceRow};
ghost use Rattle.fdr_table.specs.Reading.{first_some};
ghost use Rattle.fdr_table.specs.Ranges.{IsInRange};
ghost use Rattle.fdr_table.specs.declared.fault.TableFault.TheVariants as fault;
ghost use Rattle.fdr_check.specs.Faults.{first_place, place_fault, sync_fault, meets_counter, counter_fault, overlap_fault, parts_fault, rate_fault, many_fault, table_fault};
ghost use Rattle.fdr_check.specs.Groups.{grouped};
ghost use Rattle.fdr_check.specs.Occurrences.{occurrences};

use crate::groups::{Group, places_by_param};
use crate::overlap::{RowFault, overlap_among};
use crate::parts::{has_parts, rate_of};
use crate::walk::{count_starts, has_subframe, is_on_word};
use fdr_table::{Frame, NoMemory, Place, Table, TableFault};
use std::alloc::Global;
use std::marker::Model;

/// How often all parts together may occur in a superframe.
const MAX_PARTS: u32 = 262_144;

/// The first place whose word is above the number of words.
#[tactic(auto, using(fdr_lists::proofs::Searches::find_here, fdr_lists::proofs::Searches::find_more))]
fn first_beyond(words: u32, places: &[Place]) -> RowFault
    ensures { result ≡ first_place (λ (p : PlaceRow). nat_lt words p.word) fault.Place places.now }
{
    for place in places {
        if words < place.word {
            return Some((place.row, TableFault::Place));
        }
    }
    None
}

#[tactic(auto, unfolding(crate::specs::Faults::place_fault))]
pub(crate) fn place_fault(t: &Table) -> RowFault
    ensures { result ≡ place_fault t.now }
{
    let frame = t.frame();
    if frame.words < frame.cword {
        return Some((0, TableFault::Place));
    }
    first_beyond(frame.words, t.places())
}

/// The first place on the sync words.
#[tactic(auto, using(fdr_lists::proofs::Searches::find_here, fdr_lists::proofs::Searches::find_more))]
fn first_on_sync(places: &[Place]) -> RowFault
    ensures { result ≡ first_place (λ (p : PlaceRow). p.word == 1) fault.OnSync places.now }
{
    for place in places {
        if place.word == 1 {
            return Some((place.row, TableFault::OnSync));
        }
    }
    None
}

#[tactic(auto, unfolding(crate::specs::Faults::sync_fault))]
pub(crate) fn sync_fault(t: &Table) -> RowFault
    ensures { result ≡ sync_fault t.now }
{
    first_on_sync(t.places())
}

/// Whether an occurrence of a place is in the counter's word. Each place occurs in its subframes of some frame.
fn meets_counter(frame: Frame, place: &Place) -> bool
    ensures { result ≡ meets_counter frame place.now }
{
    if !has_subframe(place.subs, frame.csub) {
        return false;
    }
    frame.cword <= frame.words && is_on_word(place, frame.cword)
}

/// The first place that meets the counter's word.
#[tactic(auto, using(fdr_lists::proofs::Searches::find_here, fdr_lists::proofs::Searches::find_more))]
fn first_on_counter(frame: Frame, places: &[Place]) -> RowFault
    ensures { result ≡ first_place (meets_counter frame) fault.OnCounter places.now }
{
    for place in places {
        if meets_counter(frame, place) {
            return Some((place.row, TableFault::OnCounter));
        }
    }
    None
}

#[tactic(auto, unfolding(crate::specs::Faults::counter_fault))]
pub(crate) fn counter_fault(t: &Table) -> RowFault
    ensures { result ≡ counter_fault t.now }
{
    first_on_counter(t.frame(), t.places())
}

/// Whether all parts together occur too often in a superframe.
fn are_too_many(words: u32, places: &[Place]) -> bool
    requires some_words { 0 < words }
    requires word_limit { words ≤ 1024 }
    ensures { result ≡ nat_lt 262144 (length (occurrences words places.now)) }
{
    let mut total = 0;
    for place in places {
        total += count_starts(words, place);
        if MAX_PARTS < total {
            return true;
        }
    }
    false
}

/// The number of words in a subframe.
#[tactic(auto, using(fdr_frame::proofs::WordCounts::word_count_bounds))]
pub(crate) fn words_of(t: &Table) -> u32
    ensures words { result ≡ t.now.frame.words }
    ensures some_words { 0 < result }
    ensures word_limit { result ≤ 1024 }
{
    t.frame().words
}

#[tactic(auto, unfolding(crate::specs::Faults::overlap_fault))]
fn overlap_fault(alloc: Global, t: &Table) -> Result<RowFault, NoMemory>
    ensures { IfOk result (λ f. f ≡ overlap_fault t.now) }
{
    overlap_among(alloc, words_of(t), t.places())
}

/// The first parameter that its parts don't make up.
fn parts_fault(t: &Table, groups: &[Group]) -> RowFault
    requires { groups.now ≡ grouped t.now.places (length t.now.params) }
    ensures { result ≡ parts_fault t.now }
{
    let params = t.params();
    for (index, param) in params.iter().enumerate() {
        if !has_parts(groups[index].places(), index, param) {
            return Some((param.row, TableFault::Parts));
        }
    }
    None
}

/// The first parameter of which a part doesn't occur as often as its rate says.
fn rate_fault(t: &Table, groups: &[Group]) -> RowFault
    requires groups { groups.now ≡ grouped t.now.places (length t.now.params) }
    requires fits { length (occurrences t.now.frame.words t.now.places) < 2 ^ 32 }
    ensures { result ≡ rate_fault t.now }
{
    let words = words_of(t);
    let params = t.params();
    for (index, param) in params.iter().enumerate() {
        let fault = rate_of(words, groups[index].places(), index, param);
        if fault.is_some() {
            return fault;
        }
    }
    None
}

#[tactic(auto, unfolding(crate::specs::Faults::many_fault, crate::specs::Soundness::most_superframe_parts))]
fn many_fault(t: &Table) -> RowFault
    ensures { result ≡ many_fault t.now }
{
    if are_too_many(words_of(t), t.places()) {
        Some((t.rows(), TableFault::TooMany))
    } else {
        None
    }
}

/// The first fault of the places alone.
fn places_fault(t: &Table) -> RowFault
    ensures { result ≡ first_some (place_fault t.now ∷ sync_fault t.now ∷ counter_fault t.now ∷ []) }
{
    let fault = place_fault(t);
    if fault.is_some() {
        return fault;
    }
    let fault = sync_fault(t);
    if fault.is_some() {
        return fault;
    }
    counter_fault(t)
}

/// The first fault of the parameters' parts. Places that share no bit occur fewer than 2^32 times.
fn samples_fault(t: &Table, groups: &[Group]) -> RowFault
    requires groups { groups.now ≡ grouped t.now.places (length t.now.params) }
    requires fits { length (occurrences t.now.frame.words t.now.places) < 2 ^ 32 }
    ensures { result ≡ first_some (parts_fault t.now ∷ rate_fault t.now ∷ many_fault t.now ∷ []) }
{
    let fault = parts_fault(t, groups);
    if fault.is_some() {
        return fault;
    }
    let fault = rate_fault(t, groups);
    if fault.is_some() {
        return fault;
    }
    many_fault(t)
}

/// The first fault of a table.
pub(crate) fn table_fault(alloc: Global, t: &Table) -> Result<RowFault, NoMemory>
    requires { IsInRange t.now }
    ensures { IfOk result (λ f. f ≡ table_fault t.now) }
{
    let fault = places_fault(t);
    if fault.is_some() {
        return Ok(fault);
    }
    let fault = overlap_fault(alloc, t)?;
    if fault.is_some() {
        return Ok(fault);
    }
    let groups = places_by_param(alloc, t.params().len(), t.places())?;
    Ok(samples_fault(t, &groups))
}
