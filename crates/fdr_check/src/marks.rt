//! Marks on the bits of a superframe.

ghost use Rattle.std.specs.Prelude.{◌≡◌, ◌<◌, ◌≤◌, ◌*◌, ◌/◌, ◌&&◌, ◌||◌, ℕ, IfOk, length, find, []};
ghost use Rattle.std.specs.List.{range_with_len};
ghost use Rattle.fdr_check.specs.Occurrences.{slots_of};
ghost use Rattle.fdr_check.specs.Soundness.{covers};
ghost use Rattle.fdr_check.specs.Walks.{is_marked, AreMarks, AreItsBits};

use fdr_table::{NoMemory, Place};
use std::alloc::Global;
use std::marker::Model;

/// Marks for a superframe, all unset: one of 12 bits for each word slot.
pub(crate) fn unmarked(alloc: Global, words: u32) -> Result<Vec<u16>, NoMemory>
    requires { words ≤ 1024 }
    ensures { IfOk result (λ marks. AreMarks words [] marks.items) }
{
    Ok(vec![in alloc; 0; 64 * words as usize]?)
}

/// The bits that a place takes of a word.
fn bits_of(place: &Place) -> u16
    ensures { AreItsBits place.now result }
{
    let low = place.lsb - 1;
    (1 << (low + place.width)) - (1 << low)
}

/// Marks the bits of a place in the slots in which it occurs.
pub(crate) fn mark(words: u32, place: &Place, slots: &[u32], marks: &mut [u16])
    requires word_limit { words ≤ 1024 }
    requires slots { slots.now ≡ slots_of words place.now }
    requires length { length marks.old ≡ 64 * words }
    ensures length { length marks.new ≡ length marks.old }
    ensures marked { (b : ℕ) → b < 768 * words → is_marked marks.new b
        ≡ (is_marked marks.old b || covers words place.now b) }
{
    let bits = bits_of(place);
    for slot in slots {
        marks[*slot as usize] |= bits;
    }
}

/// The first marked bit of a place, which occurs in these slots.
pub(crate) fn first_marked(words: u32, place: &Place, slots: &[u32], marks: &[u16]) -> Option<u32>
    requires word_limit { words ≤ 1024 }
    requires slots { slots.now ≡ slots_of words place.now }
    requires length { length marks.now ≡ 64 * words }
    ensures { result ≡ find (λ b. covers words place.now b && is_marked marks.now b)
        (range_with_len 0 (768 * words)) }
{
    let bits = bits_of(place);
    for slot in slots {
        let shared = marks[*slot as usize] & bits;
        if shared != 0 {
            return Some(12 * *slot + shared.trailing_zeros());
        }
    }
    None
}
