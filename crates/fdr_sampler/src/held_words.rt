//! The bus words that are held for the parameters.

ghost use Rattle.std.specs.Prelude.{◌≡◌, ◌<◌, ◌≤◌, ◌+◌, ◌*◌, ◌^◌, ℕ, IfOk, Some, None, length, map, replicate, slice_get, slice_index, slice_index_or};
ghost use Rattle.fdr_bus.specs.declared.RecordKind.TheVariants.{Word};
ghost use Rattle.fdr_sampler.specs.Held.{Source, source_of};
ghost use Rattle.fdr_sampler.specs.HeldWords.{bus_labels, no_word, AreLabelStarts};
ghost use Rattle.fdr_sampler.specs.Kept.{held_word_after, raw_number_at};

use crate::moment::Moment;
use crate::sampler::zeros;
use crate::source::{ANY_SDI, Source, place};
use crate::timed_word::TimedWord;
use fdr_bus::{BusRecord, is_odd, sdi};
use fdr_check::push;
use fdr_table::{NoMemory, Param};
use std::alloc::Global;
use std::marker::Model;

/// How many pairs of a bus and a label there are.
const BUS_LABELS: usize = 65_536;

/// How many words are held of a bus and a label: one of each SDI, and one of any.
const WORDS: u32 = 5;

/// A source, with where its word is among those that are held.
#[derive(Drop)]
pub(crate) struct HeldSource {
    source: Source,
    at: u32,
}

/// The sources of the parameters, in their order, and the bus words that are held for them.
#[derive(Drop)]
pub(crate) struct HeldWords {
    sources: Vec<HeldSource>,
    // Where the words of each bus and label begin; 0 where no parameter is from there.
    starts: Vec<u32>,
    // The first five are of no parameter.
    words: Vec<TimedWord>,
}

impl Model for HeldWords {
    ghost use Rattle.fdr_sampler.specs.HeldWords.{HeldBySource, held_by_source, AreHeldWords};

    ghost Value = { HeldBySource };

    ghost view = { λ h. held_by_source h.sources.items h.words.items };

    ghost invariant = { λ h. AreHeldWords h.sources.items h.starts.items h.words.len };
}

impl HeldWords {
    /// The sources of the parameters, where no word came yet.
    pub(crate) fn of(alloc: Global, params: &[Param]) -> Result<HeldWords, NoMemory>
        requires { length params.now ≤ 2 ^ 24 }
        ensures sources { IfOk result (λ h. h.sources ≡ map source_of params.now) }
        ensures words { IfOk result (λ h. h.words ≡ replicate (length params.now) None) }
    {
        let mut starts = zeros(alloc, BUS_LABELS)?;
        let mut sources = Vec::with_capacity(alloc, params.len())?;
        let mut end = WORDS;
        for param in params {
            let source = Source::of(param);
            let place = source.place();
            end = begin(&mut starts, place, end);
            let at = starts[place as usize] + source.own_word();
            push(&mut sources, HeldSource { source, at })?;
        }
        let words = no_words(alloc, end as usize)?;
        Ok(HeldWords {
            sources,
            starts,
            words,
        })
    }

    /// Holds a bus word for each of the sources that it is from.
    pub(crate) fn hold(&mut self, r: &BusRecord)
        requires { r.now.kind ≡ Word }
        ensures sources { self.new.sources ≡ self.old.sources }
        ensures long { length self.new.words ≡ length self.old.words }
        ensures words { (n : ℕ) (s : Source) → slice_get self.old.sources n ≡ Some s →
            slice_index_or self.new.words n None ≡ held_word_after s r.now (slice_index_or self.old.words n None) }
    {
        let start = if is_odd(r.word) {
            self.starts[place(r.bus, (r.word % 256) as u8) as usize] as usize
        } else {
            0
        };
        let word = TimedWord {
            word: r.word,
            time: r.time,
        };
        self.words[start + usize::from(sdi(r.word))] = word;
        self.words[start + ANY_SDI as usize] = word;
    }

    /// The raw number of a source at a moment, by the word that is held for it.
    pub(crate) fn raw_number(&self, source: u32, moment: Moment) -> u32
        requires { source < length self.now.sources }
        ensures { result ≡ raw_number_at moment.words moment.slot self.now.sources self.now.words source }
    {
        let held = &self.sources[source as usize];
        held.source.raw_at(self.words[held.at as usize], moment)
    }
}

/// `count` words, none of which came.
fn no_words(alloc: Global, count: usize) -> Result<Vec<TimedWord>, NoMemory>
    ensures { IfOk result (λ v. v.items ≡ replicate count no_word) }
{
    let none = TimedWord { word: 0, time: 0 };
    vec![in alloc; none; count].map_err(|_| NoMemory)
}

/// Gives a bus and a label words of their own, where they have none, from `end` on, which is after those of the others.
/// Answers where the words end then.
fn begin(starts: &mut [u32], place: u32, end: u32) -> u32
    requires starts { AreLabelStarts starts.old end }
    requires place { place < bus_labels }
    requires room { end + 5 < 2 ^ 32 }
    ensures starts { AreLabelStarts starts.new result }
    ensures begun { 0 < slice_index starts.new place }
    ensures others { (k : ℕ) → 0 < slice_index starts.old k → slice_index starts.new k ≡ slice_index starts.old k }
    ensures few { result ≤ end + 5 }
{
    if starts[place as usize] == 0 {
        starts[place as usize] = end;
        end + WORDS
    } else {
        end
    }
}
