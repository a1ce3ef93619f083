//! Recordings on a twin in memory as it is made.

ghost use Rattle.std.specs.Prelude.{◌≡◌, ℕ, List, [], true, map, string_bytes};
ghost use Rattle.fdr_twin.specs.declared.side.Side.TheVariants as side;
ghost use Rattle.fdr_deck.specs.Memory.{held_in};
ghost use Rattle.fdr_twin.specs.TwinMemory.{memory_on, twin_pair};
ghost use Rattle.fdr_table.specs.Rows.{TableRows};
ghost use Rattle.fdr_pair.specs.PairWords.{fits_pair_form};
ghost use Rattle.fdr_pair.specs.PairStages.{IsPastPairTable};
ghost use Rattle.fdr_pair.specs.PairMoments.{MayRecordPair};
ghost use Rattle.fdr_pair.specs.PairRun.{ByPairTable};
ghost use Rattle.fdr_pair_sure.specs.BothInMemory.{IsRecordedOnBoth};

use fdr_io::Source;
use fdr_pair::{PairOutcome, run_pair};
use fdr_twin::MemTwin;
use std::alloc::Global;

/// A twin in memory of these images and this line. The calls with the numbers in `failing` fail, and from a given call on each
/// call of a dead disk. What the promises on stops ask of both disks holds of it, whatever these are.
pub fn made_twin(
    alloc: Global,
    first: Vec<u8>,
    second: Vec<u8>,
    line: Vec<u8>,
    failing: Vec<u64>,
    dead_first: Option<u64>,
    dead_second: Option<u64>,
) -> MemTwin
    ensures may_record { MayRecordPair (twin_pair result) }
    ensures first { held_in (memory_on side.First result) ≡ first.items }
    ensures second { held_in (memory_on side.Second result) ≡ second.items }
    ensures line { result.input ≡ line.items }
    ensures failing { result.failing ≡ failing.items }
    ensures dead_first { result.dead_first ≡ dead_first }
    ensures dead_second { result.dead_second ≡ dead_second }
    ensures turned { result.turned ≡ side.First }
    ensures taken { result.span.taken ≡ 0 }
    ensures pulled_before { result.span.pulled_before ≡ 0 }
    ensures announced { result.span.announced.number ≡ 0 }
    ensures first_faults { result.span.first_faults ≡ 0 }
    ensures second_faults { result.span.second_faults ≡ 0 }
    ensures input_faults { result.input_faults ≡ 0 }
    ensures unused { result.entries ≡ [] }
{
    MemTwin::new(alloc, first, second, line, failing, dead_first, dead_second)
}

/// What a recording on two disks answered, and the twin in memory that it used.
#[derive(Drop)]
pub struct PairRan {
    pub answer: PairOutcome,
    pub twin: MemTwin,
}

/// Records on a twin in memory as it is made, and hands out the twin with all calls that it saw. Once the words and the table
/// are right, all promises on stops hold, with no premise on the twin.
pub fn run_pair_in_memory<T: Source>(
    alloc: Global,
    words: &[String],
    table: &mut T,
    first: Vec<u8>,
    second: Vec<u8>,
    line: Vec<u8>,
    failing: Vec<u64>,
    dead_first: Option<u64>,
    dead_second: Option<u64>,
) -> PairRan
    ensures { fits_pair_form (map string_bytes words.now) ≡ true → IsPastPairTable result.answer
        → ByPairTable (T.rest table.old) (λ (t : TableRows). IsRecordedOnBoth t first.items second.items line.items result.answer result.twin) }
{
    let mut twin = made_twin(alloc, first, second, line, failing, dead_first, dead_second);
    let answer = run_pair(alloc, words, table, &mut twin);
    PairRan { answer, twin }
}
