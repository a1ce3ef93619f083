//! The words of a stream that were drawn.

ghost use Rattle.std.specs.Prelude.{◌≡◌, ◌<◌, ◌≤◌, ◌+◌, ◌*◌, ◌/◌, ◌↔◌, ℕ, [], ◌∷◌, ◌++◌, None, length, take, drop, replicate, IfOk, IsTrue};
ghost use Rattle.fdr_slot.specs.Limits.{least_payload_bytes, most_payload_bytes};
ghost use Rattle.fdr_bus.specs.Records.{last_time};
ghost use Rattle.fdr_sampler.specs.Kept.{most_word_slots};
ghost use Rattle.fdr_sampler.specs.SlotTimes.{slot_time, time_of_slot};
ghost use Rattle.fdr_stream.specs.Kept.{stream_at_start, with_filled_byte, with_packed_words, with_empty_slots, HasEmptySlots, HasSampled};
ghost use Rattle.fdr_stream.specs.Packing.{last_byte};
ghost use Rattle.fdr_stream.specs.Past.{StreamPast, IsPacked, IsSampled};

use crate::waiting::Waiting;
use fdr_bus::{BusRecord, RecordKind};
use fdr_sampler::{Sampler, SlotTime};
use fdr_table::NoMemory;
use std::alloc::Global;
use std::marker::Model;

/// Draws the words of a stream, and keeps those that wait for a block.
#[derive(Drop)]
pub(crate) struct Drawing {
    sampler: Sampler,
    payload: usize,
    waiting: Waiting,
}

impl Model for Drawing {
    ghost use Rattle.fdr_stream.specs.Kept.{StreamKept, IsStreamKept};

    ghost Value = { StreamKept };

    ghost use Rattle.fdr_stream.specs.View.{drawing_kept};

    ghost view = { drawing_kept };

    ghost invariant = { λ d. IsStreamKept (drawing_kept d) d.waiting.capacity };
}

impl Drawing {
    /// Where nothing was drawn yet, for blocks of `payload` bytes.
    pub(crate) fn with_sampler(
        alloc: Global,
        sampler: Sampler,
        payload: usize,
    ) -> Result<Drawing, NoMemory>
        requires low { least_payload_bytes ≤ payload }
        requires high { payload ≤ most_payload_bytes }
        ensures { IfOk result (λ d. d ≡ stream_at_start sampler payload) }
    {
        let waiting = Waiting::with_capacity(alloc, payload + 2)?;
        Ok(Drawing {
            sampler,
            payload,
            waiting,
        })
    }

    /// How many empty slots come next, as far as the block has room for them and stays short of its last byte.
    pub(crate) fn next_empty_slots(&self) -> u32
        requires room { length self.now.bytes < self.now.payload }
        ensures { HasEmptySlots self.now result }
    {
        // Two words fill three bytes.
        let room = 2 * (self.payload - 1 - self.waiting.len()) / 3;
        self.sampler.next_empty_slots().min(room as u32)
    }

    /// A time in microseconds from the start, as the recording counts it.
    pub(crate) fn slot_time(&self, time: u64) -> SlotTime
        requires { time ≤ last_time }
        ensures { result ≡ slot_time self.now.sampler.frame.words time }
    {
        self.sampler.slot_time(time)
    }

    /// When the slot is sampled that is this many after the next one.
    pub(crate) fn sampling_time(&self, slots: u32) -> SlotTime
        ensures { result ≡ time_of_slot (self.now.sampler.slots_drawn + slots) }
    {
        self.sampler.sampling_time(slots)
    }

    /// How many slots were drawn.
    pub(crate) fn slots_drawn(&self) -> u64
        ensures { result ≡ self.now.sampler.slots_drawn }
    {
        self.sampler.slots_drawn()
    }

    /// Draws `count` empty slots.
    pub(crate) fn draw_empty_slots(&mut self, count: u32)
        requires empty { HasEmptySlots self.old count }
        requires slots { self.old.sampler.slots_drawn + count ≤ most_word_slots }
        ensures { self.new ≡ with_empty_slots self.old count }
    {
        let count = self.sampler.draw_empty_slots(count);
        self.pack_zeros(count);
    }

    /// Packs `count` words that are 0.
    fn pack_zeros(&mut self, count: u32)
        requires within_block { count ≤ 4096 }
        requires room { length self.old.bytes + 3 * count / 2 ≤ self.old.payload + 1 }
        ensures { self.new ≡ with_packed_words self.old (replicate count 0) }
    {
        self.waiting.push_zeros(count as usize);
    }

    /// Draws the word of the next slot.
    pub(crate) fn draw_word(&mut self)
        requires past { (past : StreamPast) × IsSampled self.old past × IsPacked self.old past }
        requires more { self.old.sampler.slots_drawn < most_word_slots }
        requires room { length self.old.bytes < self.old.payload }
        ensures sampled { (past : StreamPast) → IsSampled self.old past → IsSampled self.new past }
        ensures packed { (past : StreamPast) → IsSampled self.old past → IsPacked self.old past → IsPacked self.new past }
        ensures slots_drawn { self.new.sampler.slots_drawn ≡ self.old.sampler.slots_drawn + 1 }
        ensures payload { self.new.payload ≡ self.old.payload }
        ensures filled { length self.old.bytes < length self.new.bytes }
        ensures within_room { length self.new.bytes ≤ self.new.payload + 1 }
    {
        let word = self.sampler.next_word();
        self.pack(word);
    }

    /// Packs a further word.
    fn pack(&mut self, word: u16)
        requires twelve_bits { word < 4096 }
        requires room { length self.old.bytes < self.old.payload }
        ensures { self.new ≡ with_packed_words self.old (word ∷ []) }
    {
        self.waiting.push(word);
    }

    /// Fills four bits that wait for the next word with zero bits.
    fn fill_byte(&mut self)
        requires { length self.old.bytes < self.old.payload }
        ensures { self.new ≡ with_filled_byte self.old }
    {
        self.waiting.fill_byte();
    }

    /// Whether a whole block waits.
    pub(crate) fn is_full(&self) -> bool
        ensures { IsTrue result ↔ (self.now.payload ≤ length self.now.bytes) }
    {
        self.payload <= self.waiting.len()
    }

    /// Puts the block that waits at the front of `out`.
    pub(crate) fn give(&mut self, out: &mut [u8])
        requires whole { self.old.payload ≤ length self.old.bytes }
        requires few_left { length self.old.bytes ≤ self.old.payload + 1 }
        requires room { self.old.payload ≤ length out.old }
        ensures block { take self.old.payload out.new ≡ take self.old.payload self.old.bytes }
        ensures rest { self.new ≡ record self.old { bytes = drop self.old.payload self.old.bytes } }
        ensures beyond { drop self.old.payload out.new ≡ drop self.old.payload out.old }
    {
        self.waiting.give(self.payload, out);
    }

    /// Puts all bytes that wait at the front of `out`, the last of them filled with zero bits, and answers how many.
    pub(crate) fn give_rest(&mut self, out: &mut [u8]) -> usize
        requires few { length self.old.bytes < self.old.payload }
        requires room { self.old.payload ≤ length out.old }
        ensures count { result ≡ length (self.old.bytes ++ last_byte self.old.odd) }
        ensures rest { out.new ≡ self.old.bytes ++ last_byte self.old.odd ++ drop result out.old }
        ensures left { self.new ≡ record self.old { odd = None; bytes = [] } }
    {
        self.fill_byte();
        let count = self.waiting.len();
        self.waiting.give(count, out);
        count
    }

    /// Gives the sampler a record before which all slots but empty ones were drawn.
    pub(crate) fn take(&mut self, next: &BusRecord)
        ensures { HasSampled self.old self.new next.now }
    {
        match next.kind {
            RecordKind::Word => self.sampler.bus(next),
            RecordKind::End => {}
        }
    }
}
