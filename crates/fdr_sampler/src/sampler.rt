//! The sampler.

ghost use Rattle.std.specs.Prelude.{◌≡◌, ◌<◌, ◌≤◌, ◌+◌, ◌*◌, ◌^◌, ◌↔◌, ℕ, All, IsTrue, IfOk, length, map, replicate};
ghost use Rattle.fdr_bus.specs.declared.RecordKind.TheVariants.{Word};
ghost use Rattle.fdr_bus.specs.Records.{last_time};
ghost use Rattle.fdr_sampler.specs.SlotWord.{slot_word, slot_within, word_with};
ghost use Rattle.fdr_layout.specs.Samples.{Sample};
ghost use Rattle.fdr_layout.specs.SlotParts.{laid_of};
ghost use Rattle.fdr_sampler.specs.Empty.{HasEmptyRun, IsEmptyRun};
ghost use Rattle.fdr_sampler.specs.Kept.{sampler_at_start, with_slots_passed, most_word_slots, owners_of, HasHeld};
ghost use Rattle.fdr_sampler.specs.Past.{SamplerPast, sampler_made, sampler_with_record, sampler_with_word, sampler_with_words, MayTake, RepresentsSampler};
ghost use Rattle.fdr_sampler.specs.SlotTimes.{slot_time, time_of_slot};

use crate::empty::empty_runs;
use crate::held_words::HeldWords;
use crate::moment::Moment;
use crate::pieces::data_word;
use crate::schedule::Schedule;
use crate::slot_time::SlotTime;
use fdr_bus::BusRecord;
use fdr_check::Sound;
use fdr_frame::{
    SYNC, SlotKind, counter_of, frame_words_before, frames_before, slot_kind, subframe_of,
};
use fdr_layout::Layout;
use fdr_table::{Frame, NoMemory, Param};
use std::alloc::Global;
use std::marker::Model;

/// Makes the words of a recording, one after another, of the bus words that it is given in between.
#[derive(Drop)]
pub struct Sampler {
    frame: Frame,
    held: HeldWords,
    schedule: Schedule,
    // How many empty slots follow one another from each slot of a superframe on.
    empty_runs: Vec<u32>,
    // How many do from the next slot on.
    next_empty_slots: u32,
    raws: Vec<u32>,
    slots_drawn: u64,
}

impl Model for Sampler {
    ghost use Rattle.fdr_sampler.specs.Kept.{SamplerKept, IsSamplerKept};

    ghost Value = { SamplerKept };

    ghost use Rattle.fdr_sampler.specs.Empty.{AreEmptyRuns, IsEmptyRun};
    ghost use Rattle.fdr_sampler.specs.SlotWord.{slot_within};
    ghost use Rattle.fdr_sampler.specs.View.{sampler_kept};

    ghost view = { sampler_kept };

    ghost invariant = { λ s. IsSamplerKept (sampler_kept s) × AreEmptyRuns s.frame s.schedule s.empty_runs.items
        × IsEmptyRun s.frame s.schedule (slot_within s.frame.words s.slots_drawn) s.next_empty_slots };
}

impl Sampler {
    /// A sampler at the start of a recording by this table, whose layout is given. Fails only where memory ends.
    pub fn new(alloc: Global, layout: Layout, sound: &Sound) -> Result<Sampler, NoMemory>
        requires { layout ≡ laid_of sound.now }
        ensures { IfOk result (λ s. RepresentsSampler s (sampler_made sound.now)) }
    {
        sound.holds();
        let table = sound.table();
        Sampler::with_layout(alloc, table.frame(), table.params(), layout)
    }

    /// Whether the next slot comes before this time, in microseconds from the start. Takes no memory.
    pub fn due(&self, time: u64) -> bool
        requires { time ≤ last_time }
        ensures { (past : SamplerPast) → RepresentsSampler self.now past →
            IsTrue result ↔ (past.slots_drawn * 1000000 < time * past.table.frame.words) }
    {
        self.sampling_time(0).is_before(self.slot_time(time))
    }

    /// Holds the next bus word. It counts for the slots that it should where all slots before its time were drawn, and no
    /// others; of these, empty ones may as well be drawn later. Takes no memory.
    pub fn bus(&mut self, r: &BusRecord)
        requires { r.now.kind ≡ Word }
        ensures held { HasHeld self.old self.new r.now }
        ensures stands { (past : SamplerPast) → RepresentsSampler self.old past → MayTake past r.now → RepresentsSampler self.new (sampler_with_record past r.now) }
    {
        self.held.hold(r);
    }

    /// The word of the next slot. A recording has at most 1,474,560,000. Takes no memory.
    pub fn next_word(&mut self) -> u16
        requires { (past : SamplerPast) × RepresentsSampler self.old past × (past.slots_drawn < most_word_slots) }
        ensures word { (past : SamplerPast) → RepresentsSampler self.old past → result ≡ slot_word past.table past.records past.slots_drawn }
        ensures stands { (past : SamplerPast) → RepresentsSampler self.old past → RepresentsSampler self.new (sampler_with_word past) }
        ensures twelve_bits { result < 4096 }
    {
        let frame = self.frame;
        let slot = slot_within(frame, self.slots_drawn);
        let moment = Moment {
            slot: self.slots_drawn,
            words: frame.words,
        };
        let plain = data_word(&self.schedule, slot, &self.held, moment, &mut self.raws);
        let word = word_with(frame, self.slots_drawn, plain);
        self.slots_drawn += 1;
        self.next_empty_slots = self.empty_runs[slot_within(frame, self.slots_drawn) as usize];
        word
    }

    /// How many slots that have no part, no sync word and no counter come next in the superframe. Takes no memory.
    pub fn next_empty_slots(&self) -> u32
        ensures { IsEmptyRun self.now.frame self.now.laid (slot_within self.now.frame.words self.now.slots_drawn) result }
    {
        self.next_empty_slots
    }

    /// How many slots were drawn. Takes no memory.
    pub fn slots_drawn(&self) -> u64
        ensures { result ≡ self.now.slots_drawn }
    {
        self.slots_drawn
    }

    /// A time in microseconds from the start, as the recording counts it. Takes no memory.
    pub fn slot_time(&self, time: u64) -> SlotTime
        requires { time ≤ last_time }
        ensures { result ≡ slot_time self.now.frame.words time }
    {
        SlotTime::of_time(time, self.frame)
    }

    /// When the slot is sampled that is this many after the next one. Takes no memory.
    pub fn sampling_time(&self, slots: u32) -> SlotTime
        ensures { result ≡ time_of_slot (self.now.slots_drawn + slots) }
    {
        SlotTime::of_slot(self.slots_drawn + u64::from(slots))
    }

    /// Draws slots that have no part, no sync word and no counter, as long as they come next in the superframe, and at most
    /// `most`. Their words are 0. Answers how many it drew. Takes no memory.
    pub fn draw_empty_slots(&mut self, most: u32) -> u32
        requires { self.old.slots_drawn + most ≤ most_word_slots }
        ensures most { result ≤ most }
        ensures empty { HasEmptyRun self.old.frame self.old.laid (slot_within self.old.frame.words self.old.slots_drawn) result }
        ensures all { result < most → IsEmptyRun self.old.frame self.old.laid (slot_within self.old.frame.words self.old.slots_drawn) result }
        ensures passed { self.new ≡ with_slots_passed self.old result }
        ensures zeros { (past : SamplerPast) → RepresentsSampler self.old past
            → (k : ℕ) → k < result → slot_word past.table past.records (past.slots_drawn + k) ≡ 0 }
        ensures stands { (past : SamplerPast) → RepresentsSampler self.old past → RepresentsSampler self.new (sampler_with_words past result) }
    {
        let count = self.next_empty_slots.min(most);
        self.next_empty_slots -= count;
        self.slots_drawn += u64::from(count);
        count
    }

    fn with_layout(
        alloc: Global,
        frame: Frame,
        params: &[Param],
        layout: Layout,
    ) -> Result<Sampler, NoMemory>
        requires slots { length layout.slots ≡ 64 * frame.words }
        requires few { length params.now ≤ 2 ^ 24 }
        requires owners { owners_of params.now ≡ map (λ (s : Sample). s.param) layout.samples }
        requires params { All (λ s. s.param < length params.now) layout.samples }
        ensures { IfOk result (λ s. s ≡ sampler_at_start frame params.now layout) }
    {
        let held = HeldWords::of(alloc, params)?;
        let empty_runs = empty_runs(alloc, frame, &layout)?;
        let raws = zeros(alloc, layout.samples() as usize)?;
        let schedule = Schedule::of(alloc, layout, params, 64 * frame.words)?;
        Ok(Sampler {
            frame,
            held,
            schedule,
            empty_runs,
            // A superframe begins with a sync word.
            next_empty_slots: 0,
            raws,
            slots_drawn: 0,
        })
    }
}

/// A vector of `count` zeros.
pub(crate) fn zeros(alloc: Global, count: usize) -> Result<Vec<u32>, NoMemory>
    ensures { IfOk result (λ v. v.items ≡ replicate count 0) }
{
    vec![in alloc; 0; count].map_err(|_| NoMemory)
}

/// Which slot of its superframe slot `k` is. A frame has four subframes, and a superframe 16 frames.
fn slot_within(frame: Frame, k: u64) -> u32
    ensures slot { result ≡ slot_within frame.words k }
    ensures below { result < 64 * frame.words }
{
    let cycle = (frames_before(k, frame.words) % 16) as u32;
    4 * frame.words * cycle + frame_words_before(k, frame.words) as u32
}

/// The word of slot `k`, where this would be its word of data.
fn word_with(frame: Frame, k: u64, plain: u16) -> u16
    requires { plain < 4096 }
    ensures word { result ≡ word_with frame k plain }
    ensures twelve_bits { result < 4096 }
{
    match slot_kind(k, frame.words, frame.cword, frame.csub) {
        SlotKind::Sync => SYNC[usize::from(subframe_of(k, frame.words) - 1)],
        SlotKind::Counter => counter_of(k, frame.words),
        SlotKind::Plain => plain,
    }
}
