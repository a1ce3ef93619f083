//! What follows of the definition of an image's runs.

ghost use Rattle.std.specs.Prelude.{◌≡◌, ◌<◌, ◌↔◌, ℕ, List, Some, length, filter, All, AllPairs, Contains};
ghost use Rattle.fdr_slot.specs.declared.image.Header.{Header};
ghost use Rattle.fdr_slot.specs.Limits.{IsInLimits};
ghost use Rattle.fdr_recover.specs.Blocks.{Block};
ghost use Rattle.fdr_recover.specs.Images.{block_in, recovered_run};
ghost use Rattle.fdr_recover.specs.Stretches.{AreStretches};
ghost use Rattle.fdr_salvage.specs.Runs.{valid_blocks, runs_of, goes_on_with, run_numbers, blocks_in_run, has_number, EndsWithRun};

/// Whatever the bytes of an image are, its runs are all blocks of its valid slots, each in one run, in the order of their numbers,
/// parted where a number has no block and nowhere else. The last run is the recovered one. It does no work.
pub fn runs_have_all_blocks()
    ensures held { (h : Header) (image : List ℕ) (b : Block) → IsInLimits h
        → Contains (valid_blocks h image) b ↔ ((slot : ℕ) × (slot < h.slots) × (block_in h image slot ≡ Some b)) }
    ensures rising { (h : Header) (image : List ℕ) → IsInLimits h → AllPairs (λ (b c : Block). b.number < c.number) (valid_blocks h image) }
    ensures maximal { (h : Header) (image : List ℕ) → AreStretches goes_on_with (valid_blocks h image) (runs_of h image) }
    ensures in_one { (h : Header) (image : List ℕ) (slot : ℕ) (b : Block) → IsInLimits h → block_in h image slot ≡ Some b
        → length (filter (has_number b.number) (runs_of h image)) ≡ 1 }
    ensures numbered { (h : Header) (image : List ℕ) → IsInLimits h
        → All (λ (run : List Block). blocks_in_run h image (run_numbers run) ≡ run) (runs_of h image) }
    ensures last { (h : Header) (image : List ℕ) → IsInLimits h → EndsWithRun (runs_of h image) (recovered_run h image) }
{}
