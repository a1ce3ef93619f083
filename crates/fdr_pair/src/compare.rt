//! The runs of both sides, compared.

ghost use Rattle.std.specs.Prelude.{◌≡◌, ◌≤◌, ◌<◌, ◌↔◌, IfOk, OnOk, IfErr, IsTrue};
ghost use Rattle.fdr_slot.specs.Limits.{IsInLimits, sequence_end};
ghost use Rattle.fdr_slot.specs.Places.{image_size};
ghost use Rattle.fdr_recover.specs.Images.{block_numbered, recovered_run};
ghost use Rattle.fdr_pair.specs.PairWork.{IsSameContent, PairWork, IsLookedAt};
ghost use Rattle.fdr_pair.specs.Bringing.{HasNoFault, HasFailedAlone};
ghost use Rattle.fdr_pair.specs.Differ.{IsLeastDifference, HasFound};

use crate::read::block_on;
use fdr_io::Failed;
use fdr_recover::Found;
use fdr_slot::{Header, MAX_PAYLOAD};
use fdr_twin::{Side, Twin};

/// Whether both sides have the same block with a number, or neither has one. Where a side fails, it is answered. The disks of both
/// are left.
fn is_alike<T: Twin>(twin: &mut T, h: &Header, seq: u64) -> Result<bool, Side>
    requires limits { IsInLimits h.now }
    requires first_whole { image_size h.now ≤ (T.pair twin.old).first.extent }
    requires second_whole { image_size h.now ≤ (T.pair twin.old).second.extent }
    requires fits { seq < sequence_end }
    ensures alike { IsTrue T.tells.bytes → IfOk result (λ alike. IsTrue alike
        ↔ (block_numbered h.now (T.pair twin.old).first.held seq ≡ block_numbered h.now (T.pair twin.old).second.held seq)) }
    ensures first { IsSameContent (T.pair twin.old).first (T.pair twin.new).first }
    ensures second { IsSameContent (T.pair twin.old).second (T.pair twin.new).second }
    ensures work { PairWork T.tells (IsLookedAt (T.pair twin.old)) (T.pair twin.old) (T.pair twin.new) }
    ensures no_fault { OnOk result (HasNoFault (T.pair twin.old) (T.pair twin.new)) }
    ensures cause { IfErr result (λ side. HasFailedAlone side (T.pair twin.old) (T.pair twin.new)) }
{
    let mut first = [0; MAX_PAYLOAD];
    let mut second = [0; MAX_PAYLOAD];
    let Ok(one) = block_on(twin, Side::First, h, seq, &mut first) else {
        return Err(Side::First);
    };
    let Ok(other) = block_on(twin, Side::Second, h, seq, &mut second) else {
        return Err(Side::Second);
    };
    Ok(one.session == other.session && first[..one.len] == second[..other.len])
}

/// Compares the runs that were found on both sides: the least number of a block that both have, and not the same, by its session or
/// its payload, or None where there is no such number. Where a side fails, it is answered. The disks of both are left.
pub fn compare_sides<T: Twin>(
    twin: &mut T,
    h: &Header,
    first: &Found,
    second: &Found,
) -> Result<Option<u64>, Side>
    requires limits { IsInLimits h.now }
    requires first_whole { image_size h.now ≤ (T.pair twin.old).first.extent }
    requires second_whole { image_size h.now ≤ (T.pair twin.old).second.extent }
    requires bound { first.now.next ≤ sequence_end }
    requires first_found { IsTrue T.tells.bytes → HasFound h.now first.now (T.pair twin.old).first.held }
    requires second_found { IsTrue T.tells.bytes → HasFound h.now second.now (T.pair twin.old).second.held }
    ensures least { IsTrue T.tells.bytes → IfOk result (IsLeastDifference
        (recovered_run h.now (T.pair twin.old).first.held) (recovered_run h.now (T.pair twin.old).second.held)) }
    ensures first { IsSameContent (T.pair twin.old).first (T.pair twin.new).first }
    ensures second { IsSameContent (T.pair twin.old).second (T.pair twin.new).second }
    ensures work { PairWork T.tells (IsLookedAt (T.pair twin.old)) (T.pair twin.old) (T.pair twin.new) }
    ensures no_fault { OnOk result (HasNoFault (T.pair twin.old) (T.pair twin.new)) }
    ensures cause { IfErr result (λ side. HasFailedAlone side (T.pair twin.old) (T.pair twin.new)) }
{
    for seq in first.first.max(second.first)..first.next.min(second.next) {
        if !is_alike(twin, h, seq)? {
            return Ok(Some(seq));
        }
    }
    Ok(None)
}
