//! The report of a table.

ghost use Rattle.std.specs.Prelude.{◌≡◌, ◌<◌, ◌≤◌, ◌++◌, length, codes, decimal, IfOk, OnOk};
ghost use Rattle.std.specs.List.{enumerate_from};
ghost use Rattle.fdr_check.specs.Occurrences.{occurrences};
ghost use Rattle.fdr_check.specs.Report.{is_even, frame_line, param_line, report_of};

use crate::faults::words_of;
use crate::groups::places_by_param;
use crate::slots::is_even;
use crate::sound::Sound;
use crate::walk::count_starts;
use fdr_table::{NoMemory, Param, Place};
use itoa::Buffer;
use std::alloc::Global;
use std::marker::Model;

/// How often all parts together occur in a superframe.
fn count_parts(words: u32, places: &[Place]) -> u32
    requires some_words { 0 < words }
    requires word_limit { words ≤ 1024 }
    requires fits { length (occurrences words places.now) ≤ 262144 }
    ensures { result ≡ length (occurrences words places.now) }
{
    let mut total = 0;
    for place in places {
        total += count_starts(words, place);
    }
    total
}

/// `frame,W,PARAMS,PARTS`
fn frame_line(alloc: Global, words: u32, params: usize, parts: u32) -> Result<Vec<u8>, NoMemory>
    ensures { IfOk result (λ line. line.items ≡ frame_line words params parts) }
{
    let mut digits = Buffer::new();
    let mut line = Vec::from_slice(alloc, b"frame,")?;
    line.extend_from_slice(digits.format(words).as_bytes())?;
    line.extend_from_slice(b",")?;
    line.extend_from_slice(digits.format(params).as_bytes())?;
    line.extend_from_slice(b",")?;
    line.extend_from_slice(digits.format(parts).as_bytes())?;
    line.extend_from_slice(b"\n")?;
    Ok(line)
}

/// Adds `param,NAME,RATE,even` or `param,NAME,RATE,uneven`.
fn add_param_line(text: &mut Vec<u8>, param: &Param, even: bool) -> Result<(), NoMemory>
    ensures { OnOk result (text.new.items ≡ text.old.items ++ param_line even param.now) }
{
    let mut digits = Buffer::new();
    text.extend_from_slice(b"param,")?;
    text.extend_from_slice(param.name.bytes())?;
    text.extend_from_slice(b",")?;
    text.extend_from_slice(digits.format(param.rate).as_bytes())?;
    if even {
        text.extend_from_slice(b",even\n")?;
    } else {
        text.extend_from_slice(b",uneven\n")?;
    }
    Ok(())
}

/// Adds the line of the parameter with this index, by its own places. `slots` is room for the slots of a place.
fn add_line(
    text: &mut Vec<u8>,
    alloc: Global,
    slots: &mut Vec<u32>,
    words: u32,
    places: &[Place],
    index: usize,
    param: &Param,
) -> Result<(), NoMemory>
    requires some_words { 0 < words }
    requires word_limit { words ≤ 1024 }
    ensures { OnOk result (text.new.items ≡ text.old.items
        ++ param_line (is_even words places.now index param.now.rate) param.now) }
{
    let even = is_even(alloc, slots, words, places, index, param.rate)?;
    add_param_line(text, param, even)
}

/// The report of a sound table: its frame's words, its numbers of parameters and parts, and for each parameter whether
/// its samples are at equal distances.
pub fn report(alloc: Global, t: &Sound) -> Result<Vec<u8>, NoMemory>
    ensures { IfOk result (λ v. v.items ≡ report_of t.now) }
{
    let table = t.checked();
    let words = words_of(table);
    let params = table.params();
    let groups = places_by_param(alloc, params.len(), table.places())?;
    let parts = count_parts(words, table.places());
    let mut text = frame_line(alloc, words, params.len(), parts)?;
    let mut slots = Vec::new(alloc);
    for (index, param) in params.iter().enumerate() {
        let places = groups[index].places();
        add_line(&mut text, alloc, &mut slots, words, places, index, param)?;
    }
    Ok(text)
}
