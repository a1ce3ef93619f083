//! What the row of each sample needs, worked out once.

ghost use Rattle.std.specs.Prelude.{◌≡◌, ◌+◌, ◌*◌, ◌/◌, ◌^◌, ◌<◌, ◌≤◌, ◌++◌, ℕ, IfOk, OnOk, All, [], length};
ghost use Rattle.std.specs.List.{slice_index_or};
ghost use Rattle.fdr_check.specs.Occurrences.{cycle_of};
ghost use Rattle.fdr_frame.specs.WordCount.{IsWordCount};
ghost use Rattle.fdr_layout.specs.Flat.{segment, AreStarts};
ghost use Rattle.fdr_layout.specs.Listed.{sample_in, IsListedSample};
ghost use Rattle.fdr_recon.specs.Kept.{EndsInCycle};
ghost use Rattle.fdr_recon.specs.Plans.{field_plan, row_plan, cycle_plans, FitsWord};

use fdr_check::push;
use fdr_frame::{frames_before, subframe_of, word_of};
use fdr_layout::{Layout, Part, Sample};
use fdr_table::NoMemory;
use std::alloc::Global;
use std::marker::Model;

/// How many frames a superframe has.
const CYCLES: u8 = 16;

/// How many parts a sample has at most.
const MOST_PARTS: usize = 4;

/// The bits of a part.
#[derive(Clone, Copy)]
pub(crate) struct Field {
    /// How many words are after its word, up to the end of the frame in which its sample ends.
    pub(crate) back: u32,
    /// As many ones as it has bits.
    pub(crate) ones: u16,
    /// How many bits of the word are below it.
    pub(crate) low: u8,
    /// How many bits of the raw value are below it.
    pub(crate) shift: u8,
}

/// No bits.
const NONE: Field = Field {
    back: 0,
    ones: 0,
    low: 0,
    shift: 0,
};

/// What the row of a sample needs.
#[derive(Drop)]
pub(crate) struct RowPlan {
    /// The index of the sample's parameter.
    pub(crate) param: u32,
    /// The word of the earliest part within its subframe, from 1 on.
    pub(crate) word: u32,
    /// The subframe of that part, 1 to 4.
    pub(crate) subframe: u8,
    /// How many frames that part is before the last part.
    pub(crate) reach: u8,
    count: u8,
    fields: [Field; MOST_PARTS],
}

impl Model for RowPlan {
    ghost use Rattle.std.specs.Prelude.{◌<◌, ◌≤◌, take, All};
    ghost use Rattle.fdr_recon.specs.Plans.{RowPlan, FitsWord};

    ghost Value = { RowPlan };

    ghost view = { λ p. record { param = p.param; reach = p.reach; subframe = p.subframe; word = p.word; fields = take p.count p.fields } };

    ghost invariant = { λ p. All FitsWord (take p.count p.fields) × (p.count ≤ 4) × (1 ≤ p.subframe) × (p.subframe ≤ 4) × (1 ≤ p.word) × (p.word ≤ 1024) × (p.reach < 16) };
}

impl RowPlan {
    /// The bits of the sample's parts.
    pub(crate) fn fields(&self) -> &[Field]
        ensures fields { result.now ≡ self.now.fields }
        ensures four { length result.now ≤ 4 }
        ensures fit { All FitsWord result.now }
    {
        &self.fields[..usize::from(self.count)]
    }
}

/// The bits of a part of a sample that ends before slot `end` of its superframe, at the end of the frame of this cycle.
fn field_of(part: &Part, words: u32, cycle: u8, end: u32) -> Field
    requires end { end ≡ 4 * words * (cycle + 1) }
    requires some_words { 0 < words }
    requires ends { cycle_of words part.now.part.at ≤ cycle }
    ensures field { result ≡ field_plan words cycle part.now.part }
    ensures fits { FitsWord result }
{
    Field {
        back: end - 1 - part.slot,
        ones: (1 << part.width) - 1,
        low: part.lsb - 1,
        shift: part.shift,
    }
}

/// The frame, counted from 0, that a word slot of the superframe is in.
fn frame_of(slot: u32, words: u32) -> u32
    requires { IsWordCount words }
    ensures { result ≡ slot / (4 * words) }
{
    frames_before(u64::from(slot), words) as u32
}

/// The plan of a sample that ends in this cycle.
fn plan_of(layout: &Layout, words: u32, cycle: u8, sample: &Sample) -> RowPlan
    requires count { IsWordCount words }
    requires word_limit { words ≤ 1024 }
    requires some_words { 0 < words }
    requires cycle { cycle < 16 }
    requires listed { IsListedSample layout.now sample.now }
    requires ends { EndsInCycle words cycle (sample_in layout.now sample.now) }
    ensures { result ≡ row_plan words cycle (sample_in layout.now sample.now) }
{
    let end = 4 * words * (u32::from(cycle) + 1);
    let mut fields = [NONE; MOST_PARTS];
    let mut count = 0;
    for part in layout.parts(sample.number) {
        fields[usize::from(count)] = field_of(part, words, cycle, end);
        count += 1;
    }
    let slot = u64::from(sample.first);
    RowPlan {
        param: sample.param,
        word: word_of(slot, words),
        subframe: subframe_of(slot, words),
        reach: u32::from(cycle).saturating_sub(frame_of(sample.first, words)) as u8,
        count,
        fields,
    }
}

/// Adds the plans of the samples that end in this cycle.
fn add_plans(
    rows: &mut Vec<RowPlan>,
    layout: &Layout,
    words: u32,
    cycle: u8,
) -> Result<(), NoMemory>
    requires count { IsWordCount words }
    requires word_limit { words ≤ 1024 }
    requires some_words { 0 < words }
    requires cycle { cycle < 16 }
    requires ends { All (EndsInCycle words cycle) (slice_index_or layout.now.cycles cycle []) }
    ensures rows { OnOk result (rows.new.items ≡ rows.old.items ++ cycle_plans layout.now words cycle) }
    ensures countable { OnOk result (length (slice_index_or layout.now.cycles cycle []) < 2 ^ 32) }
{
    for sample in layout.ending_in(cycle) {
        push(rows, plan_of(layout, words, cycle, sample))?;
    }
    Ok(())
}

/// The plans of all samples of a superframe, by the cycle that they end in.
#[derive(Drop)]
pub(crate) struct Plans {
    layout: Layout,
    words: u32,
    starts: Vec<usize>,
    rows: Vec<RowPlan>,
}

impl Model for Plans {
    ghost use Rattle.fdr_recon.specs.Plans.{Planned, ArePlans};

    ghost Value = { Planned };

    ghost view = { λ p. record { laid = p.layout; words = p.words } };

    ghost invariant = { λ p. ArePlans p.layout p.words p.starts.items p.rows.items };
}

impl Plans {
    /// The plans of a layout's samples, where a subframe has `words` words.
    pub(crate) fn of(alloc: Global, layout: Layout, words: u32) -> Result<Plans, NoMemory>
        requires count { IsWordCount words }
        requires word_limit { words ≤ 1024 }
        requires some_words { 0 < words }
        requires ends { (cycle : ℕ) → All (EndsInCycle words cycle) (slice_index_or layout.cycles cycle []) }
        ensures { IfOk result (λ p. p ≡ record { laid = layout; words = words }) }
    {
        let mut starts = Vec::with_capacity(alloc, usize::from(CYCLES) + 1)?;
        let mut rows = Vec::with_capacity(alloc, layout.samples() as usize)?;
        push(&mut starts, 0)?;
        for cycle in 0..CYCLES {
            add_plans(&mut rows, &layout, words, cycle)?;
            push(&mut starts, rows.len())?;
        }
        Ok(Plans {
            layout,
            words,
            starts,
            rows,
        })
    }

    /// The plans of the samples that end in a cycle, in the order of last parts.
    pub(crate) fn ending_in(&self, cycle: u8) -> &[RowPlan]
        requires { cycle < 16 }
        ensures rows { result.now ≡ cycle_plans self.now.laid self.now.words cycle }
        ensures countable { length result.now < 2 ^ 32 }
    {
        plans_at(&self.starts, &self.rows, cycle)
    }
}

/// The plans of a cycle, which are in a list of those of all cycles.
fn plans_at<'a>(starts: &[usize], rows: &'a [RowPlan], cycle: u8) -> &'a [RowPlan]
    requires starts { AreStarts starts.now (length rows.now) }
    requires within { cycle + 1 < length starts.now }
    ensures { result.now ≡ segment starts.now rows.now cycle }
{
    let start = starts[usize::from(cycle)];
    let end = starts[usize::from(cycle) + 1];
    &rows[start..end]
}
