//! The runs of both sides, with which a recording on two disks starts.

ghost use Rattle.std.specs.Prelude.{◌≡◌, ◌≤◌, IfOk, IfErr};
ghost use Rattle.fdr_slot.specs.Limits.{IsInLimits};
ghost use Rattle.fdr_slot.specs.Places.{image_size};
ghost use Rattle.fdr_twin.specs.Pair.{disk_on};
ghost use Rattle.fdr_twin.specs.declared.side.Side.TheVariants as side;
ghost use Rattle.fdr_pair.specs.Opening.{OnLiving};
ghost use Rattle.fdr_pair.specs.SideRuns.{IsRunOn, LooksAtBoth, AreRunsOfBoth, IsRunOfOne, AreFoundRuns, IsRefusalOfBoth, IsRefusalOfOne};
ghost use Rattle.fdr_pair.specs.SideRuns.{IsRunsRefusal};

use crate::compare::compare_sides;
use crate::look::scan_on;
use crate::open::{LivingSides, Opened};
use crate::outcome::PairOutcome;
use fdr_recover::Found;
use fdr_slot::Header;
use fdr_twin::{Side, Twin};

/// The runs that were found on the sides that haven't failed.
#[derive(Clone, Copy, PartialEq, Eq, Debug)]
pub enum SideRuns {
    /// Those of both sides.
    Both {
        /// The run of the first side.
        first: Found,
        /// The run of the second side.
        second: Found,
    },
    /// That of one side; the other has failed.
    Alone {
        /// The side.
        side: Side,
        /// Its run.
        found: Found,
    },
}

// Finds the run of one side, where the other has failed.
fn find_alone<T: Twin>(twin: &mut T, side: Side, h: &Header) -> Result<SideRuns, PairOutcome>
    requires limits { IsInLimits h.now }
    requires whole { image_size h.now ≤ (disk_on side (T.pair twin.old)).extent }
    ensures found { IfOk result (λ runs. IsRunOfOne T.tells h.now side runs (T.pair twin.old) (T.pair twin.new)) }
    ensures refused { IfErr result (λ why. IsRefusalOfOne side why (T.pair twin.old) (T.pair twin.new)) }
    ensures looks { LooksAtBoth T.tells (T.pair twin.old) (T.pair twin.new) }
{
    match scan_on(twin, side, h) {
        Ok(found) => Ok(SideRuns::Alone { side, found }),
        Err(_) => Err(PairOutcome::DiskFault),
    }
}

// The runs of both sides, which have the same blocks where both have one of a number. Of a side that fails while they are
// compared only the other's is left.
fn compare_runs<T: Twin>(
    twin: &mut T,
    h: &Header,
    first: Found,
    second: Found,
) -> Result<SideRuns, PairOutcome>
    requires limits { IsInLimits h.now }
    requires first_whole { image_size h.now ≤ (T.pair twin.old).first.extent }
    requires second_whole { image_size h.now ≤ (T.pair twin.old).second.extent }
    requires first_run { IsRunOn T.tells h.now side.First first (T.pair twin.old) }
    requires second_run { IsRunOn T.tells h.now side.Second second (T.pair twin.old) }
    ensures found { IfOk result (λ runs. AreRunsOfBoth T.tells h.now runs (T.pair twin.old) (T.pair twin.new)) }
    ensures refused { IfErr result (λ why. IsRefusalOfBoth T.tells h.now why (T.pair twin.old) (T.pair twin.new)) }
    ensures looks { LooksAtBoth T.tells (T.pair twin.old) (T.pair twin.new) }
{
    match compare_sides(twin, h, &first, &second) {
        Ok(None) => Ok(SideRuns::Both { first, second }),
        Ok(Some(seq)) => Err(PairOutcome::BlocksDiffer { seq }),
        Err(Side::First) => Ok(SideRuns::Alone {
            side: Side::Second,
            found: second,
        }),
        Err(Side::Second) => Ok(SideRuns::Alone {
            side: Side::First,
            found: first,
        }),
    }
}

// Finds the runs of both sides, neither of which has failed.
fn find_both<T: Twin>(twin: &mut T, h: &Header) -> Result<SideRuns, PairOutcome>
    requires limits { IsInLimits h.now }
    requires first_whole { image_size h.now ≤ (T.pair twin.old).first.extent }
    requires second_whole { image_size h.now ≤ (T.pair twin.old).second.extent }
    ensures found { IfOk result (λ runs. AreRunsOfBoth T.tells h.now runs (T.pair twin.old) (T.pair twin.new)) }
    ensures refused { IfErr result (λ why. IsRefusalOfBoth T.tells h.now why (T.pair twin.old) (T.pair twin.new)) }
    ensures looks { LooksAtBoth T.tells (T.pair twin.old) (T.pair twin.new) }
{
    let Ok(first) = scan_on(twin, Side::First, h) else {
        return find_alone(twin, Side::Second, h);
    };
    match scan_on(twin, Side::Second, h) {
        Ok(second) => compare_runs(twin, h, first, second),
        Err(_) => Ok(SideRuns::Alone {
            side: Side::First,
            found: first,
        }),
    }
}

/// Finds the runs of the sides that haven't failed, and compares them where these are both. A side that fails is left aside;
/// where none is left, the answer is `DiskFault`. `BlocksDiffer` names the least number at which the runs of both differ. The
/// disks of both sides are left, and nothing is pulled or announced.
pub fn find_runs<T: Twin>(twin: &mut T, opened: &Opened) -> Result<SideRuns, PairOutcome>
    requires limits { IsInLimits opened.now.header }
    requires whole { OnLiving opened.now.living (λ side. image_size opened.now.header ≤ (disk_on side (T.pair twin.old)).extent) }
    ensures found { IfOk result (λ runs. AreFoundRuns T.tells opened.now.header opened.now.living runs (T.pair twin.old) (T.pair twin.new)) }
    ensures refused { IfErr result
        (λ why. IsRunsRefusal T.tells opened.now.header opened.now.living why (T.pair twin.old) (T.pair twin.new)) }
    ensures looks { LooksAtBoth T.tells (T.pair twin.old) (T.pair twin.new) }
{
    match opened.living {
        LivingSides::Both => find_both(twin, &opened.header),
        LivingSides::OnlyFirst => find_alone(twin, Side::First, &opened.header),
        LivingSides::OnlySecond => find_alone(twin, Side::Second, &opened.header),
    }
}
