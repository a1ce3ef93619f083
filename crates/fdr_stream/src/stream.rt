//! The stream.

ghost use Rattle.std.specs.Prelude.{◌≡◌, ◌<◌, ◌≤◌, ◌+◌, ◌-◌, ◌*◌, ◌↔◌, ℕ, [], ◌∷◌, ◌++◌, None, length, min, take, drop, IfOk};
ghost use Rattle.fdr_slot.specs.Limits.{least_payload_bytes, most_payload_bytes};
ghost use Rattle.fdr_bus.specs.Records.{last_time};
ghost use Rattle.fdr_sampler.specs.Kept.{most_word_slots};
ghost use Rattle.fdr_sampler.specs.SlotTimes.{time_of_slot, slots_before};
ghost use Rattle.fdr_sampler.specs.Stream.{stream_of};
ghost use Rattle.fdr_stream.specs.Blocks.{cut_block, blocks_of, due_blocks};
ghost use Rattle.fdr_stream.specs.Kept.{late_slots, with_empty_slots, with_late_slots, HasEmptySlots};
ghost use Rattle.fdr_stream.specs.Past.{StreamPast, stream_made, with_block, stream_with_record, HasFinished, MayFeedStream, RepresentsStream, IsDrawing};

use crate::drawing::Drawing;
use fdr_bus::BusRecord;
use fdr_check::Sound;
use fdr_layout::Layout;
use fdr_sampler::{Sampler, SlotTime};
use fdr_table::NoMemory;
use std::alloc::Global;
use std::marker::Model;

/// What a feed did.
#[derive(Clone, Copy, Debug, PartialEq, Eq)]
pub enum Fed {
    /// The record was taken, and the next one may be fed.
    Taken,
    /// A block was given, and the same record must be fed again.
    Block,
}

/// Makes the stream of a trace, a block at a time.
///
/// Empty slots are drawn late. A stream keeps how many of them come next, and when the slot after them is sampled. A record
/// that comes before that is just taken, and the empty slots before it count as drawn; a later record, or the end, draws
/// them.
#[derive(Drop)]
pub struct Stream {
    drawing: Drawing,
    // How many empty slots come next, as far as the block has room for them.
    empty_slots: u32,
    // When the slot after these is sampled.
    data_time: SlotTime,
    // The empty slots before this time count as drawn.
    counted_to: SlotTime,
}

impl Model for Stream {
    ghost use Rattle.fdr_stream.specs.Kept.{StreamKept, HasLateSlots};

    ghost Value = { StreamKept };

    ghost use Rattle.fdr_stream.specs.View.{stream_kept};

    ghost view = { stream_kept };

    ghost invariant = { λ s. HasLateSlots s.drawing s.empty_slots s.data_time s.counted_to };
}

impl Stream {
    /// A stream at the start of a trace by this table, in blocks of `payload` bytes, 64 to 4,096. Fails only where memory
    /// ends, and later calls take none.
    pub fn new(alloc: Global, sound: &Sound, payload: u32) -> Result<Stream, NoMemory>
        requires low { least_payload_bytes ≤ payload }
        requires high { payload ≤ most_payload_bytes }
        ensures { IfOk result (λ s. RepresentsStream s (stream_made sound.now payload)) }
    {
        let frame = sound.table().frame();
        prove!(frame.words <= 1024);
        let layout = Layout::make(alloc, sound)?;
        let sampler = Sampler::new(alloc, layout, sound)?;
        let drawing = Drawing::with_sampler(alloc, sampler, payload as usize)?;
        Ok(Stream {
            drawing,
            empty_slots: 0,
            data_time: SlotTime::start(),
            counted_to: SlotTime::start(),
        })
    }

    /// Feeds the next record of the trace. Where a whole block is due at it, the block is put at the front of `out`, and
    /// the record has to be fed again; else the record is taken. `out` has room for a block at least, and what it holds
    /// beyond the block stays.
    #[inline(always)]
    pub fn feed(&mut self, next: &BusRecord, out: &mut [u8]) -> Fed
        requires { (past : StreamPast) × RepresentsStream self.old past × MayFeedStream past next.now × (past.payload ≤ length out.old) }
        ensures exactly { (past : StreamPast) → RepresentsStream self.old past → MayFeedStream past next.now
            → (result ≡ Fed.Block) ↔ (past.blocks < due_blocks past.table past.payload (past.records ++ next.now ∷ [])) }
        ensures block { (past : StreamPast) → RepresentsStream self.old past → MayFeedStream past next.now → result ≡ Fed.Block
            → take past.payload out.new ≡ cut_block past.payload (stream_of past.table (past.records ++ next.now ∷ [])) past.blocks }
        ensures begun { (past : StreamPast) → RepresentsStream self.old past → MayFeedStream past next.now → result ≡ Fed.Block
            → RepresentsStream self.new (with_block past next.now) }
        ensures taken { (past : StreamPast) → RepresentsStream self.old past → MayFeedStream past next.now → result ≡ Fed.Taken
            → RepresentsStream self.new (stream_with_record past next.now) }
        ensures beyond { (past : StreamPast) → RepresentsStream self.old past → result ≡ Fed.Block
            → drop past.payload out.new ≡ drop past.payload out.old }
        ensures untouched { result ≡ Fed.Taken → out.new ≡ out.old }
    {
        let time = self.drawing.slot_time(next.time);
        if !self.data_time.is_before(time) {
            self.drawing.take(next);
            self.counted_to = time;
            return Fed::Taken;
        }
        self.empty_slots = draw_words(&mut self.drawing, self.empty_slots, time);
        self.data_time = self.drawing.sampling_time(self.empty_slots);
        if self.drawing.is_full() {
            self.drawing.give(out);
            self.counted_to = SlotTime::start();
            return Fed::Block;
        }
        self.drawing.take(next);
        self.counted_to = time;
        Fed::Taken
    }

    /// Puts the rest of the stream, its last block, at the front of `out`, and answers its length: at most `payload`, and 0
    /// where the blocks that were given hold the whole stream. Four zero bits follow an odd number of words. What `out`
    /// holds beyond that stays. Nothing may be fed after this, and nothing waits then.
    pub fn finish(&mut self, out: &mut [u8]) -> usize
        requires { (past : StreamPast) × RepresentsStream self.old past × (past.begun ≡ None) × (past.payload ≤ length out.old) }
        ensures rest { (past : StreamPast) → RepresentsStream self.old past → past.begun ≡ None
            → take result out.new ≡ drop (past.payload * past.blocks) (stream_of past.table past.records) }
        ensures count { (past : StreamPast) → RepresentsStream self.old past → past.begun ≡ None
            → result ≡ length (stream_of past.table past.records) - past.payload * past.blocks }
        ensures blocks { (past : StreamPast) → RepresentsStream self.old past → past.begun ≡ None
            → length (blocks_of past.payload (stream_of past.table past.records)) ≡ past.blocks + min result 1 }
        ensures last { (past : StreamPast) → RepresentsStream self.old past → past.begun ≡ None
            → take result out.new ≡ cut_block past.payload (stream_of past.table past.records) past.blocks }
        ensures within_payload { (past : StreamPast) → RepresentsStream self.old past → result ≤ past.payload }
        ensures within { result ≤ length out.new }
        ensures beyond { drop result out.new ≡ drop result out.old }
        ensures finished { (past : StreamPast) → RepresentsStream self.old past → past.begun ≡ None → HasFinished self.new past }
    {
        draw_late_slots(&mut self.drawing, self.counted_to);
        self.empty_slots = 0;
        self.data_time = self.drawing.sampling_time(0);
        self.counted_to = SlotTime::start();
        self.drawing.give_rest(out)
    }
}

/// Draws the words of the slots before this time, up to the first that makes a block whole. The first `empty_slots` of them
/// are empty, and one more comes before this time. Answers how many empty slots come next, as far as the block has room for
/// them; 0 where it is whole. The call stays one: most records come before the next slot that has data.
#[inline(never)]
fn draw_words(drawing: &mut Drawing, empty_slots: u32, time: SlotTime) -> u32
    requires past { (past : StreamPast) × (n : ℕ) × (n ≤ empty_slots) × IsDrawing (with_empty_slots drawing.old n) past time }
    requires empty { HasEmptySlots drawing.old empty_slots }
    requires due { time_of_slot (drawing.old.sampler.slots_drawn + empty_slots) < time }
    requires in_time { slots_before time ≤ most_word_slots }
    ensures draws { (past : StreamPast) (n : ℕ) → n ≤ empty_slots → IsDrawing (with_empty_slots drawing.old n) past time → IsDrawing drawing.new past time }
    ensures empty { length drawing.new.bytes < drawing.new.payload → HasEmptySlots drawing.new result }
    ensures all { length drawing.new.bytes < drawing.new.payload → time ≤ time_of_slot (drawing.new.sampler.slots_drawn + result) }
    ensures whole { drawing.new.payload ≤ length drawing.new.bytes → result ≡ 0 }
    ensures empty_drawn { drawing.old.sampler.slots_drawn + empty_slots ≤ drawing.new.sampler.slots_drawn }
    ensures within_room { length drawing.new.bytes ≤ drawing.new.payload + 1 }
{
    let mut empty = empty_slots;
    loop {
        drawing.draw_empty_slots(empty);
        drawing.draw_word();
        if drawing.is_full() {
            return 0;
        }
        empty = drawing.next_empty_slots();
        if !drawing.sampling_time(empty).is_before(time) {
            return empty;
        }
    }
}

/// Draws the slots before this time that weren't drawn, which are empty.
fn draw_late_slots(drawing: &mut Drawing, time: SlotTime)
    requires empty { HasEmptySlots drawing.old (late_slots drawing.old time) }
    requires in_time { slots_before time ≤ most_word_slots }
    requires slots { drawing.old.sampler.slots_drawn ≤ most_word_slots }
    ensures { drawing.new ≡ with_late_slots drawing.old time }
{
    let late_slots = time.slots_before().saturating_sub(drawing.slots_drawn());
    drawing.draw_empty_slots(late_slots as u32);
}
