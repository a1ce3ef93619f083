//! The walk over the occurrences of a place in a superframe: through the frames that it occurs in, their subframes and
//! the words of these, so that no slot is looked at in vain.

ghost use Rattle.std.specs.Prelude.{◌≡◌, ◌<◌, ◌≤◌, ◌+◌, ◌*◌, ◌%◌, ◌++◌, ℕ, OnOk, length};
ghost use Rattle.fdr_table.specs.Ranges.{IsPlaceInRange};
ghost use Rattle.fdr_check.specs.Occurrences.{has_subframe, is_on_word, slots_of};
ghost use Rattle.fdr_check.specs.Walks.{words_on, IsStep, slots_on, subframe_slots, frame_slots, starts_of};

use crate::memory::push;
use fdr_table::{NoMemory, Place};
use std::marker::Model;

/// Whether subframe 1 to 4 is in a set.
pub(crate) fn has_subframe(subs: u8, subframe: u8) -> bool
    requires low { 1 ≤ subframe }
    requires high { subframe ≤ 4 }
    ensures { result ≡ has_subframe subs subframe }
{
    (subs >> (subframe - 1)) % 2 == 1
}

/// Whether a word of a subframe is one of the place's.
pub(crate) fn is_on_word(place: &Place, word: u32) -> bool
    ensures { result ≡ is_on_word place.now word }
{
    if place.step == 0 {
        word == place.word
    } else {
        place.word <= word && (word - place.word) % place.step == 0
    }
}

/// How many words on from one word of the place the next one is, or at least past the last word of the subframe.
fn step_of(words: u32, place: &Place) -> u32
    requires some_words { 0 < words }
    requires word_limit { words ≤ 1024 }
    ensures step { IsStep words place.now result }
    ensures near { result ≤ 1024 }
{
    if place.step == 0 { words } else { place.step }
}

/// Adds the slots of the words of a place in the subframe that starts at this slot.
fn add_words(slots: &mut Vec<u32>, words: u32, place: &Place, start: u32) -> Result<(), NoMemory>
    requires some_words { 0 < words }
    requires word_limit { words ≤ 1024 }
    requires within { start < 65536 }
    ensures { OnOk result (slots.new.items ≡ slots.old.items ++ slots_on words place.now start) }
{
    let step = step_of(words, place);
    let mut word = place.word;
    while word <= words {
        push(slots, start + (word - 1))?;
        word += step;
    }
    Ok(())
}

/// Adds the slots in which a place occurs in a subframe of a frame that it occurs in; subframes count from 0.
fn add_in_subframe(
    slots: &mut Vec<u32>,
    words: u32,
    place: &Place,
    frame: u32,
    subframe: u8,
) -> Result<(), NoMemory>
    requires some_words { 0 < words }
    requires word_limit { words ≤ 1024 }
    requires within { frame < 16 }
    requires frame { frame % place.now.period ≡ place.now.cycle }
    requires subframe { subframe < 4 }
    ensures { OnOk result (slots.new.items ≡ slots.old.items ++ subframe_slots words place.now (4 * frame + subframe)) }
{
    if has_subframe(place.subs, subframe + 1) {
        add_words(
            slots,
            words,
            place,
            (4 * frame + u32::from(subframe)) * words,
        )
    } else {
        Ok(())
    }
}

/// Adds the slots in which a place occurs in a frame that it occurs in.
fn add_in_frame(slots: &mut Vec<u32>, words: u32, place: &Place, frame: u32) -> Result<(), NoMemory>
    requires some_words { 0 < words }
    requires word_limit { words ≤ 1024 }
    requires within { frame < 16 }
    requires frame { frame % place.now.period ≡ place.now.cycle }
    ensures { OnOk result (slots.new.items ≡ slots.old.items ++ frame_slots words place.now frame) }
{
    for subframe in 0..4u8 {
        add_in_subframe(slots, words, place, frame, subframe)?;
    }
    Ok(())
}

/// The first frame of a superframe that a place occurs in.
fn first_frame(place: &Place) -> u32
    ensures first { result ≡ place.now.cycle }
    ensures own { result % place.now.period ≡ place.now.cycle }
    ensures in_range { IsPlaceInRange place.now }
{
    u32::from(place.cycle)
}

/// The next frame that it occurs in, or at least one past the end of the superframe.
fn next_frame(place: &Place, frame: u32) -> u32
    requires within { frame < 16 }
    requires own { frame % place.now.period ≡ place.now.cycle }
    ensures next { result ≡ frame + place.now.period }
    ensures own { result % place.now.period ≡ place.now.cycle }
    ensures later { frame < result }
{
    frame + u32::from(place.period)
}

/// Adds the word slots of a superframe in which a place occurs, in their order.
pub fn add_slots(slots: &mut Vec<u32>, words: u32, place: &Place) -> Result<(), NoMemory>
    requires some_words { 0 < words }
    requires word_limit { words ≤ 1024 }
    ensures { OnOk result (slots.new.items ≡ slots.old.items ++ slots_of words place.now) }
{
    let mut frame = first_frame(place);
    while frame < 16 {
        add_in_frame(slots, words, place, frame)?;
        frame = next_frame(place, frame);
    }
    Ok(())
}

/// Puts the word slots of a superframe in which a place occurs in place of others.
pub(crate) fn put_slots(slots: &mut Vec<u32>, words: u32, place: &Place) -> Result<(), NoMemory>
    requires some_words { 0 < words }
    requires word_limit { words ≤ 1024 }
    ensures { OnOk result (slots.new.items ≡ slots_of words place.now) }
{
    slots.clear();
    add_slots(slots, words, place)
}

/// How many words of a subframe a place is on.
fn count_words(words: u32, place: &Place) -> u32
    requires some_words { 0 < words }
    requires word_limit { words ≤ 1024 }
    ensures { result ≡ length (words_on words place.now) }
{
    let step = step_of(words, place);
    let mut count = 0;
    let mut word = place.word;
    while word <= words {
        count += 1;
        word += step;
    }
    count
}

/// How often a place occurs in a frame that it occurs in.
fn count_in_frame(words: u32, place: &Place) -> u32
    requires some_words { 0 < words }
    requires word_limit { words ≤ 1024 }
    ensures count { (frame : ℕ) → frame % place.now.period ≡ place.now.cycle → length (frame_slots words place.now frame) ≡ result }
    ensures within_frame { result ≤ 4096 }
{
    let in_subframe = count_words(words, place);
    let mut count = 0;
    for subframe in 0..4u8 {
        if has_subframe(place.subs, subframe + 1) {
            count += in_subframe;
        }
    }
    count
}

/// How often a place occurs in a superframe.
pub(crate) fn count_starts(words: u32, place: &Place) -> u32
    requires some_words { 0 < words }
    requires word_limit { words ≤ 1024 }
    ensures { result ≡ starts_of words place.now }
{
    let in_frame = count_in_frame(words, place);
    let mut count = 0;
    let mut frame = first_frame(place);
    while frame < 16 {
        count += in_frame;
        frame = next_frame(place, frame);
    }
    count
}
