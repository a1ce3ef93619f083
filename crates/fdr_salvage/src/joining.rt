//! Numbers put in order, and joined into runs.

ghost use Rattle.std.specs.Prelude.{◌≡◌, ◌+◌, ◌<◌, List, [], ◌∷◌, ◌++◌, length, map, sum_by, All, IsPermutation, OnOk, IsErrOf};
ghost use Rattle.std.specs.List.Sorted.{IsNonDecreasing};
ghost use Rattle.fdr_slot.specs.Limits.{sequence_end};
ghost use Rattle.fdr_recover.specs.Blocks.{Block};
ghost use Rattle.fdr_recover.specs.Stretches.{stretches};
ghost use Rattle.fdr_salvage.specs.Runs.{goes_on_with, run_numbers, run_length, HasBlockNumbers};

use crate::memory::push;
use crate::{Run, SalvageFault};

/// The numbers in their order.
pub(crate) fn in_order(numbers: Vec<u64>) -> Vec<u64>
    ensures permutation { IsPermutation numbers.items result.items }
    ensures order { IsNonDecreasing result.items }
{
    let mut numbers = numbers;
    numbers.sort_unstable();
    numbers
}

/// Adds a run of one number.
fn begin_run(runs: &mut Vec<Run>, number: u64) -> Result<(), SalvageFault>
    requires fits { number < sequence_end }
    ensures begun { OnOk result (runs.new.items ≡ runs.old.items ++ record { first = number; next = number + 1 } ∷ []) }
    ensures only { IsErrOf result SalvageFault.DiskFault → ⊥ }
{
    push(
        runs,
        Run {
            first: number,
            next: number + 1,
        },
    )
}

/// Adds a number that comes after those of the runs: to the last run, where it is that one's next, and else as a run of its own.
fn join_number(runs: &mut Vec<Run>, number: u64) -> Result<(), SalvageFault>
    requires fits { number < sequence_end }
    requires within { All HasBlockNumbers runs.old.items }
    ensures joined { (blocks : List Block) (b : Block) → b.number ≡ number
        → runs.old.items ≡ map run_numbers (stretches goes_on_with blocks)
        → OnOk result (runs.new.items ≡ map run_numbers (stretches goes_on_with (blocks ++ b ∷ []))) }
    ensures within { OnOk result (All HasBlockNumbers runs.new.items) }
    ensures more { OnOk result (sum_by run_length runs.new.items ≡ sum_by run_length runs.old.items + 1) }
    ensures only { IsErrOf result SalvageFault.DiskFault → ⊥ }
{
    let Some(last) = runs.pop() else {
        return begin_run(runs, number);
    };
    if last.next == number {
        return push(
            runs,
            Run {
                first: last.first,
                next: number + 1,
            },
        );
    }
    push(runs, last)?;
    begin_run(runs, number)
}

/// Adds the runs of the blocks that have these numbers.
pub(crate) fn join_numbers(numbers: &[u64], runs: &mut Vec<Run>) -> Result<(), SalvageFault>
    requires fit { All (λ number. number < sequence_end) numbers.now }
    requires empty { runs.old.items ≡ [] }
    ensures joined { (blocks : List Block) → map (λ (b : Block). b.number) blocks ≡ numbers.now
        → OnOk result (runs.new.items ≡ map run_numbers (stretches goes_on_with blocks)) }
    ensures within { OnOk result (All HasBlockNumbers runs.new.items) }
    ensures few { OnOk result (sum_by run_length runs.new.items ≡ length numbers.now) }
    ensures only { IsErrOf result SalvageFault.DiskFault → ⊥ }
{
    for number in numbers {
        join_number(runs, *number)?;
    }
    Ok(())
}
