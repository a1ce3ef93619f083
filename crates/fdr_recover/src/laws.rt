//! What follows of the definitions of an image and of its blocks.

ghost use Rattle.std.specs.Prelude.{◌≡◌, ℕ, Bool, List};
ghost use Rattle.fdr_slot.specs.Limits.{IsInLimits};
ghost use Rattle.fdr_slot.specs.declared.image.Header.{Header};
ghost use Rattle.fdr_recover.specs.Blocks.{Block};
ghost use Rattle.fdr_recover.specs.Stretches.{stretches, AreStretches};
ghost use Rattle.fdr_recover.specs.Images.{next_of, IsNextNumber, recovered_run, IsRecovered};

/// Whatever the bytes of an image are, its recovered run is the longest list of blocks that are with consecutive numbers
/// up to the greatest, and there is no other such list. It does no work.
#[tactic(auto, using(crate::proofs::BlockLemmas::recovered))]
pub fn recovered_run_is_longest()
    ensures greatest { (h : Header) (image : List ℕ) → IsInLimits h → IsNextNumber h image (next_of h image) }
    ensures longest { (h : Header) (image : List ℕ) → IsInLimits h → IsRecovered h image (recovered_run h image) }
    ensures only { (h : Header) (image : List ℕ) (run : List Block) → IsInLimits h → IsRecovered h image run
        → run ≡ recovered_run h image }
{}

/// A list of blocks is cut into stretches where two neighbours don't belong together, and nowhere else, and there is no other such
/// cut. It does no work.
pub fn stretches_are_maximal()
    ensures maximal { (together : Block → Block → Bool) (blocks : List Block) → AreStretches together blocks (stretches together blocks) }
    ensures only { (together : Block → Block → Bool) (blocks : List Block) (parts : List (List Block))
        → AreStretches together blocks parts → parts ≡ stretches together blocks }
{}
