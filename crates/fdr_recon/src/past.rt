//! The frames that were read, as far as rows still need them.

ghost use Rattle.std.specs.Prelude.{◌≡◌, ℕ, ◌+◌, ◌-◌, ◌*◌, ◌/◌, ◌^◌, ◌<◌, ◌≤◌, List, [], ◌∷◌, ◌++◌, false, Some, length, map, IfOk, IfSome, All, slice_get, unwrap_or};
ghost use Rattle.std.specs.List.{range_with_len, slice_index_or};
ghost use Rattle.fdr_frame.specs.WordCount.{IsWordCount};
ghost use Rattle.fdr_table.specs.Rows.{TableRows};
ghost use Rattle.fdr_layout.specs.SlotParts.{laid_of};
ghost use Rattle.fdr_layout.specs.Samples.{Sample};
ghost use Rattle.fdr_recon.specs.Plans.{row_plan, planned_bits, planned_raw, FitsWord};
ghost use Rattle.fdr_recon.specs.Rows.{ReadFrame, counter_in, counter_place, rows_looked_at};
ghost use Rattle.fdr_recon.specs.Kept.{kept_word, kept_counter, kept_cycle, kept_value, kept_row, kept_samples, is_next, word_back, EndsInCycle, IsRow, IsSampleOf, IsSmallValue};
ghost use Rattle.fdr_recon.specs.Past.{RepresentsRebuild, is_linked_at, read_frame};

use crate::Row;
use crate::plans::{Field, Plans, RowPlan};
use crate::scale::Scale;
use circular_buffer::HeapCircularBuffer;
use fdr_check::{Sound, push};
use fdr_layout::Layout;
use fdr_table::{Frame, NoMemory, Param};
use std::alloc::Global;
use std::marker::Model;

/// The most frames before the last that a sample may reach back to: a superframe has 16 frames.
const MAX_JOINED: u8 = 15;

/// Makes the rows of frames that are read one after another. It keeps the last sixteen frames.
#[derive(Drop)]
pub struct Rebuild {
    frame: Frame,
    scales: Vec<Scale>,
    plans: Plans,
    words: HeapCircularBuffer<u16>,
    // The last frame's counter; 0 before the first frame.
    counter: u16,
    joined: u8,
}

impl Model for Rebuild {
    ghost use Rattle.fdr_recon.specs.Kept.{RebuildKept, IsRebuildKept};

    ghost Value = { RebuildKept };

    ghost use Rattle.fdr_recon.specs.View.{rebuild_kept};

    ghost view = { rebuild_kept };

    ghost invariant = { λ r. IsRebuildKept (rebuild_kept r) r.words.capacity r.counter r.plans.words };
}

impl Rebuild {
    /// Makes room for the last sixteen frames of a recording by this table, whose layout is given. Fails only where
    /// memory ends.
    pub fn new(alloc: Global, layout: Layout, sound: &Sound) -> Result<Rebuild, NoMemory>
        requires { layout ≡ laid_of sound.now }
        ensures { IfOk result (λ r. RepresentsRebuild r sound.now []) }
    {
        sound.holds();
        let table = sound.table();
        Rebuild::with_layout(alloc, table.frame(), table.params(), layout)
    }

    /// Takes the next frame: whether it begins where the frame before ends, and its words. It is not adjacent where it
    /// is the first of a bit list. Takes no memory.
    pub fn frame(&mut self, adjacent: bool, words: &[u16])
        requires whole { length words.now ≡ 4 * self.old.frame.words }
        requires twelve_bits { All (λ word. word < 4096) words.now }
        ensures stands { (t : TableRows) (past : List ReadFrame) → RepresentsRebuild self.old t past
            → RepresentsRebuild self.new t (past ++ read_frame adjacent words.now ∷ []) }
        ensures frame { self.new.frame ≡ self.old.frame }
        ensures params { self.new.params ≡ self.old.params }
    {
        self.joined = if self.is_linked(adjacent, words) {
            (self.joined + 1).min(MAX_JOINED)
        } else {
            0
        };
        self.words.extend_from_slice(words);
        self.counter = counter_of(self.frame, words);
    }

    /// Whether the last frame is linked to the one before it: it begins where that ends, and its counter is one more. False
    /// before the second frame. Takes no memory.
    pub fn linked(&self) -> bool
        ensures before { (t : TableRows) → RepresentsRebuild self.now t [] → result ≡ false }
        ensures linked { (t : TableRows) (past : List ReadFrame) → RepresentsRebuild self.now t past → 0 < length past
            → result ≡ is_linked_at t.frame past (length past - 1) }
    {
        self.joined > 0
    }

    /// How many samples end in the last frame's cycle; 0 before the first frame. Takes no memory.
    pub fn rows(&self) -> u32
        ensures samples { result ≡ length (kept_samples self.now) }
        ensures before { (t : TableRows) → RepresentsRebuild self.now t [] → result ≡ 0 }
        ensures rows { (t : TableRows) (past : List ReadFrame) → RepresentsRebuild self.now t past → 0 < length past
            → result ≡ length (rows_looked_at t past (length past - 1)) }
    {
        self.plans().len() as u32
    }

    /// The row of a sample that ends in the last frame's cycle, in the order of last parts. There is none where the
    /// frames back to the sample's earliest part are not joined. Takes no memory.
    #[inline(always)]
    pub fn row(&self, i: u32) -> Option<Row>
        requires { i < length (kept_samples self.now) }
        ensures row { (t : TableRows) (past : List ReadFrame) → RepresentsRebuild self.now t past
            → slice_get (rows_looked_at t past (length past - 1)) i ≡ Some result }
        ensures range { IfSome result (IsRow (length self.now.params)) }
    {
        self.row_of(&self.plans()[i as usize])
    }

    /// Whether a next frame is linked to the last one.
    fn is_linked(&self, adjacent: bool, words: &[u16]) -> bool
        ensures { result ≡ is_next self.now adjacent words.now }
    {
        if !adjacent || self.words.is_empty() {
            return false;
        }
        counter_of(self.frame, words) == (self.counter + 1) % 4096
    }

    /// The plans of the samples that end in the last frame's cycle, none before the first frame.
    fn plans(&self) -> &[RowPlan]
        ensures rows { result.now ≡ map (row_plan self.now.frame.words (kept_cycle self.now)) (kept_samples self.now) }
        ensures countable { length result.now < 2 ^ 32 }
        ensures params { All (IsSampleOf self.now.params) (kept_samples self.now) }
        ensures ends { All (EndsInCycle self.now.frame.words (kept_cycle self.now)) (kept_samples self.now) }
        ensures frame { 0 < self.now.frame.words }
    {
        if self.words.is_empty() {
            &[]
        } else {
            self.plans.ending_in(self.cycle())
        }
    }

    #[inline(always)]
    fn row_of(&self, plan: &RowPlan) -> Option<Row>
        requires { (s : Sample) × (plan.now ≡ row_plan self.now.frame.words (kept_cycle self.now) s) × IsSampleOf self.now.params s
            × EndsInCycle self.now.frame.words (kept_cycle self.now) s }
        ensures row { (s : Sample) → plan.now ≡ row_plan self.now.frame.words (kept_cycle self.now) s → IsSampleOf self.now.params s
            → EndsInCycle self.now.frame.words (kept_cycle self.now) s → result ≡ kept_row self.now s }
        ensures range { IfSome result (IsRow (length self.now.params)) }
    {
        if plan.reach > self.joined {
            return None;
        }
        Some(Row {
            counter: self.counter(u32::from(plan.reach)),
            subframe: plan.subframe,
            word: plan.word,
            param: plan.param,
            value: self.value(plan),
        })
    }

    /// The value of a sample that ends in the last frame.
    #[tactic(auto, unfolding(crate::specs::Kept::kept_value, crate::specs::Rows::param_at))]
    #[inline(always)]
    fn value(&self, plan: &RowPlan) -> i64
        requires { (s : Sample) × (plan.now ≡ row_plan self.now.frame.words (kept_cycle self.now) s) × IsSampleOf self.now.params s
            × EndsInCycle self.now.frame.words (kept_cycle self.now) s }
        ensures value { (s : Sample) → plan.now ≡ row_plan self.now.frame.words (kept_cycle self.now) s → IsSampleOf self.now.params s
            → EndsInCycle self.now.frame.words (kept_cycle self.now) s → result ≡ kept_value self.now s }
        ensures small { IsSmallValue result }
    {
        let scale = &self.scales[plan.param as usize];
        let raw = self.raw(plan.fields()) as u32;
        scale.value(raw)
    }

    /// The raw value of these fields of the last frames.
    fn raw(&self, fields: &[Field]) -> u64
        requires four { length fields.now ≤ 4 }
        requires fit { All FitsWord fields.now }
        ensures raw { result ≡ planned_raw self.now fields.now }
        ensures fifty_bits { result ≤ 2 ^ 50 }
    {
        let mut raw = 0;
        for field in fields {
            raw += self.field_bits(field);
        }
        raw
    }

    /// The bits of a field, at their place in the raw value.
    fn field_bits(&self, field: &Field) -> u64
        requires { FitsWord field.now }
        ensures bits { result ≡ planned_bits self.now field.now }
        ensures four_words { result < 2 ^ 48 }
    {
        let word = self.word_back(field.back);
        u64::from((word >> field.low) & field.ones) << field.shift
    }

    fn with_layout(
        alloc: Global,
        frame: Frame,
        params: &[Param],
        layout: Layout,
    ) -> Result<Rebuild, NoMemory>
        requires params { All (λ samples. All (IsSampleOf params.now) samples) layout.cycles }
        requires ends { (cycle : ℕ) → All (EndsInCycle frame.words cycle) (slice_index_or layout.cycles cycle []) }
        ensures { IfOk result (λ r. r ≡ record { frame = frame; params = params.now; laid = layout; words = []; joined = 0 }) }
    {
        let scales = scales_of(alloc, params)?;
        let words = room_for_words(alloc, frame)?;
        let plans = Plans::of(alloc, layout, frame_words(frame))?;
        Ok(Rebuild {
            frame,
            scales,
            plans,
            words,
            counter: 0,
            joined: 0,
        })
    }

    /// The word at a place of the frame that is this many frames before the last, or 0 where there is none.
    fn word(&self, back: u32, place: u32) -> u16
        requires { back < 16 }
        ensures word { result ≡ kept_word self.now back place }
        ensures twelve_bits { result < 4096 }
    {
        let len = 4 * frame_words(self.frame);
        if place >= len {
            return 0;
        }
        self.word_back(len * back + (len - 1 - place))
    }

    /// The word before which this many were kept last, or 0 where there is none.
    fn word_back(&self, count: u32) -> u16
        ensures word { result ≡ word_back self.now count }
        ensures twelve_bits { result < 4096 }
    {
        self.words.nth_back(count as usize).copied().unwrap_or(0)
    }

    fn counter(&self, back: u32) -> u16
        requires { back < 16 }
        ensures counter { result ≡ kept_counter self.now back }
        ensures twelve_bits { result < 4096 }
    {
        if back == 0 {
            self.counter
        } else {
            self.word(back, counter_place(self.frame))
        }
    }

    /// The last frame's cycle.
    fn cycle(&self) -> u8
        ensures cycle { result ≡ kept_cycle self.now }
        ensures within_superframe { result < 16 }
    {
        (self.counter % 16) as u8
    }
}

/// The same parameters once more, each with what makes its values.
fn scales_of(alloc: Global, params: &[Param]) -> Result<Vec<Scale>, NoMemory>
    ensures { IfOk result (λ v. v.items ≡ params.now) }
{
    let mut scales = Vec::new(alloc);
    for param in params {
        push(&mut scales, Scale::of(param.copied()))?;
    }
    Ok(scales)
}

/// Room for the words of sixteen frames.
fn room_for_words(alloc: Global, frame: Frame) -> Result<HeapCircularBuffer<u16>, NoMemory>
    ensures none { IfOk result (λ w. w.items ≡ []) }
    ensures room { IfOk result (λ w. w.capacity ≡ 64 * frame.words) }
    ensures some_words { 0 < frame.words }
{
    HeapCircularBuffer::with_capacity(alloc, 64 * frame_words(frame) as usize).map_err(|_| NoMemory)
}

/// The counter among the words of a frame; 0 where there is none.
fn counter_of(frame: Frame, words: &[u16]) -> u16
    ensures counter { result ≡ counter_in frame words.now }
    ensures twelve_bits { All (λ word. word < 4096) words.now → result < 4096 }
{
    words
        .get(counter_place(frame) as usize)
        .copied()
        .unwrap_or(0)
}

/// How many words a subframe has.
fn frame_words(frame: Frame) -> u32
    ensures words { result ≡ frame.words }
    ensures count { IsWordCount result }
    ensures some_words { 0 < result }
    ensures word_limit { result ≤ 1024 }
{
    frame.words
}

/// Where the counter's word is among the words of a frame.
fn counter_place(frame: Frame) -> u32
    ensures place { result ≡ counter_place frame }
    ensures twelve_bits { result < 4096 }
{
    frame_words(frame) * (u32::from(frame.csub) - 1) + (frame.cword - 1)
}
