//! The generator.

ghost use Rattle.std.specs.Prelude.{◌≡◌, ◌<◌, ◌≤◌, ◌↔◌, Some, IfOk, IsNone, MatchOption, length, slice_get};
ghost use Rattle.fdr_gen.specs.Draws.{next_state};
ghost use Rattle.fdr_gen.specs.Trace.{generated_trace, most_frames};
ghost use Rattle.fdr_gen.specs.Past.{GeneratorPast, generator_made, generator_with_record, RepresentsGenerator};

use crate::sender::{Sender, senders_of};
use fdr_bus::{BusRecord, RecordKind};
use fdr_check::Sound;
use fdr_table::NoMemory;
use std::alloc::Global;
use std::marker::Model;

const SECONDS_IN_A_FRAME: u32 = 4;

const MICROSECONDS: u64 = 1_000_000;

const MULTIPLIER: u64 = 6_364_136_223_846_793_005;

const INCREMENT: u64 = 1_442_695_040_888_963_407;

/// Gives the records of a generated trace, one after another.
#[derive(Drop)]
pub struct Gen {
    senders: Vec<Sender>,
    seconds: u32,
    second: u32,
    place: usize,
    state: u64,
    ended: bool,
}

impl Model for Gen {
    ghost use Rattle.fdr_gen.specs.Past.{GeneratorKept, IsGeneratorKept};

    ghost Value = { GeneratorKept };

    ghost use Rattle.fdr_gen.specs.View.{generator_kept};

    ghost view = { generator_kept };

    ghost invariant = { λ s. IsGeneratorKept (generator_kept s) };
}

impl Gen {
    /// A generator at the start of the trace of this table and seed, for `frames` frames. Fails only where memory ends.
    pub fn new(alloc: Global, t: &Sound, seed: u64, frames: u32) -> Result<Gen, NoMemory>
        requires some_frames { 1 ≤ frames }
        requires frame_limit { frames ≤ most_frames }
        ensures { IfOk result (λ g. RepresentsGenerator g (generator_made t.now seed frames)) }
    {
        let senders = senders_of(alloc, t.table().params())?;
        let seconds = SECONDS_IN_A_FRAME * frames;
        let second = if senders.is_empty() { seconds } else { 0 };
        Ok(Gen {
            senders,
            seconds,
            second,
            place: 0,
            state: seed,
            ended: false,
        })
    }

    /// The next record, or `None` after the end record. Takes no memory.
    pub fn next(&mut self) -> Option<BusRecord>
        ensures record { (past : GeneratorPast) → RepresentsGenerator self.old past →
            result ≡ slice_get (generated_trace past.table past.seed past.frames) past.given }
        ensures none { (past : GeneratorPast) → RepresentsGenerator self.old past →
            IsNone result ↔ (past.given ≡ length (generated_trace past.table past.seed past.frames)) }
        ensures stands { (past : GeneratorPast) → RepresentsGenerator self.old past →
            MatchOption result (RepresentsGenerator self.new past) (λ r. RepresentsGenerator self.new (generator_with_record past)) }
    {
        if self.second < self.seconds {
            return Some(self.next_word());
        }
        if self.ended {
            return None;
        }
        self.ended = true;
        Some(BusRecord {
            kind: RecordKind::End,
            bus: 0,
            word: 0,
            time: MICROSECONDS * u64::from(self.seconds),
        })
    }

    /// The record of the next word, which there must be.
    fn next_word(&mut self) -> BusRecord
        requires { self.old.second < self.old.seconds }
        ensures record { (past : GeneratorPast) → RepresentsGenerator self.old past →
            slice_get (generated_trace past.table past.seed past.frames) past.given ≡ Some result }
        ensures stands { (past : GeneratorPast) → RepresentsGenerator self.old past → RepresentsGenerator self.new (generator_with_record past) }
    {
        let state = next_state(self.state);
        let sender = &self.senders[self.place];
        let record = BusRecord {
            kind: RecordKind::Word,
            bus: sender.bus(),
            word: sender.word((state >> 32) as u32),
            time: MICROSECONDS * u64::from(self.second),
        };
        self.state = state;
        if self.place + 1 < self.senders.len() {
            self.place += 1;
        } else {
            self.place = 0;
            self.second += 1;
        }
        record
    }
}

/// The state that a draw makes of a state.
fn next_state(state: u64) -> u64
    ensures { result ≡ next_state state }
{
    state.wrapping_mul(MULTIPLIER).wrapping_add(INCREMENT)
}
