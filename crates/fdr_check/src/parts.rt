//! The parts of a parameter.

ghost use Rattle.std.specs.Prelude.{◌≡◌, ◌<◌, ◌≤◌, ◌==◌, ◌^◌, length, sum_by, map, filter, if◌then◌else◌};
ghost use Rattle.std.specs.List.{list_all, range_with_len};
ghost use Rattle.fdr_table.specs.Rows.{PlaceRow};
ghost use Rattle.fdr_check.specs.Occurrences.{is_part, part_width, occurrences};
ghost use Rattle.fdr_check.specs.Soundness.{has_part};
ghost use Rattle.fdr_check.specs.Faults.{last_part, has_parts, count_of, rate_of};
ghost use Rattle.fdr_check.specs.Walks.{starts_of, off_rate_at};

use crate::overlap::RowFault;
use crate::walk::count_starts;
use fdr_table::{Param, Place, TableFault};
use std::marker::Model;

/// Whether a place carries this part of the parameter with this index.
pub(crate) fn is_part(place: &Place, param: usize, part: u8) -> bool
    ensures { result ≡ is_part param part place.now }
{
    place.param as usize == param && place.part == part
}

/// Whether a place carries this part.
#[tactic(auto, using(crate::proofs::Searches::list_any_here, crate::proofs::Searches::list_any_next))]
pub(crate) fn has_part(places: &[Place], param: usize, part: u8) -> bool
    ensures { result ≡ has_part places.now param part }
{
    for place in places {
        if is_part(place, param, part) {
            return true;
        }
    }
    false
}

/// The width of a part.
#[tactic(auto, using(fdr_lists::proofs::Searches::find_here, fdr_lists::proofs::Searches::find_more), unfolding(crate::specs::Occurrences::part_width))]
fn part_width(places: &[Place], param: usize, part: u8) -> u8
    ensures width { result ≡ part_width places.now param part }
    ensures one_word { result ≤ 12 }
{
    for place in places {
        if is_part(place, param, part) {
            return place.width;
        }
    }
    0
}

/// The widths of parts 1 to 4.
fn part_widths(places: &[Place], param: usize) -> [u8; 4]
    ensures { result ≡ map (part_width places.now param) (range_with_len 1 4) }
{
    [
        part_width(places, param, 1),
        part_width(places, param, 2),
        part_width(places, param, 3),
        part_width(places, param, 4),
    ]
}

/// The number of the part that a place carries, 0 where it is another parameter's.
fn part_of(place: &Place, param: usize) -> u8
    ensures part { result ≡ (if place.now.param == param then place.now.part else 0) }
    ensures four_parts { result ≤ 4 }
{
    if place.param as usize == param {
        place.part
    } else {
        0
    }
}

/// The greatest number of a part, 0 where there is none.
fn last_part(places: &[Place], param: usize) -> u8
    ensures last { result ≡ last_part places.now param }
    ensures four_parts { result ≤ 4 }
{
    let mut last = 0;
    for place in places {
        last = last.max(part_of(place, param));
    }
    last
}

/// Whether each part from 1 to the last has a place.
fn has_all_parts(places: &[Place], param: usize, last: u8) -> bool
    requires { last ≤ 4 }
    ensures { result ≡ list_all (has_part places.now param) (range_with_len 1 last) }
{
    for part in 1..last + 1 {
        if !has_part(places, param, part) {
            return false;
        }
    }
    true
}

/// Whether the places of each part have one width.
fn have_equal_widths(places: &[Place], param: usize) -> bool
    ensures { result ≡ list_all (λ (l : PlaceRow). l.width == part_width places.now param l.part)
        (filter (λ (l : PlaceRow). l.param == param) places.now) }
{
    let widths = part_widths(places, param);
    for place in places {
        if place.param as usize == param && place.width != widths[place.part as usize - 1] {
            return false;
        }
    }
    true
}

/// The widths of parts 1 to the last, added.
fn whole_width(places: &[Place], param: usize, last: u8) -> u8
    requires { last ≤ 4 }
    ensures { result ≡ sum_by (part_width places.now param) (range_with_len 1 last) }
{
    let mut width = 0;
    for part in 1..last + 1 {
        width += part_width(places, param, part);
    }
    width
}

/// Whether the parts of a parameter are numbered from 1 with none missing, each of one width, and make up the whole.
#[tactic(auto, unfolding(crate::specs::Faults::has_parts))]
pub(crate) fn has_parts(places: &[Place], index: usize, param: &Param) -> bool
    ensures { result ≡ has_parts places.now index param.now }
{
    let last = last_part(places, index);
    1 <= last
        && has_all_parts(places, index, last)
        && have_equal_widths(places, index)
        && param.width == whole_width(places, index, last)
}

/// How often a place occurs in a superframe, 0 where it carries another part.
fn count_in(words: u32, place: &Place, param: usize, part: u8) -> u32
    requires some_words { 0 < words }
    requires word_limit { words ≤ 1024 }
    ensures { result ≡ (if is_part param part place.now then starts_of words place.now else 0) }
{
    if is_part(place, param, part) {
        count_starts(words, place)
    } else {
        0
    }
}

/// How often a part occurs in a superframe.
fn count_of(words: u32, places: &[Place], param: usize, part: u8) -> u32
    requires some_words { 0 < words }
    requires word_limit { words ≤ 1024 }
    requires fits { length (occurrences words places.now) < 2 ^ 32 }
    ensures { result ≡ count_of words places.now param part }
{
    let mut count = 0;
    for place in places {
        count += count_in(words, place, param, part);
    }
    count
}

/// How often a part of a parameter occurs in a superframe, where that differs from the rate.
fn off_rate(words: u32, places: &[Place], param: usize, part: u8, rate: u32) -> Option<u32>
    requires some_words { 0 < words }
    requires word_limit { words ≤ 1024 }
    requires fits { length (occurrences words places.now) < 2 ^ 32 }
    ensures { result ≡ off_rate_at words places.now param rate part }
{
    if !has_part(places, param, part) {
        return None;
    }
    let count = count_of(words, places, param, part);
    if count == rate { None } else { Some(count) }
}

/// The fault of the lowest part that doesn't occur as often as the parameter's rate says.
pub(crate) fn rate_of(words: u32, places: &[Place], index: usize, param: &Param) -> RowFault
    requires some_words { 0 < words }
    requires word_limit { words ≤ 1024 }
    requires fits { length (occurrences words places.now) < 2 ^ 32 }
    ensures { result ≡ rate_of words places.now index param.now }
{
    for part in 1..5_u8 {
        if let Some(counted) = off_rate(words, places, index, part, param.rate) {
            let declared = param.rate;
            return Some((param.row, TableFault::Rate { declared, counted }));
        }
    }
    None
}
