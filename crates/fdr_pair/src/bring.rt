//! A side that is brought up to the lead.

ghost use Rattle.std.specs.Prelude.{◌≡◌, ◌+◌, ◌≤◌, ◌<◌, [], Err, None, IfOk, IsTrue};
ghost use Rattle.fdr_slot.specs.Limits.{sequence_end};
ghost use Rattle.fdr_slot.specs.Places.{image_size};
ghost use Rattle.fdr_recover.specs.Images.{next_of, block_numbered, blocks_between};
ghost use Rattle.fdr_twin.specs.Pair.{disk_on, other_side};
ghost use Rattle.fdr_pair.specs.SidePuts.{IsSettledRing};
ghost use Rattle.fdr_pair.specs.PairWork.{IsSameContent, PairWork};
ghost use Rattle.fdr_pair.specs.Brought.{missing_blocks, IsFarBehind};
ghost use Rattle.fdr_pair.specs.Bringing.{IsBringing, HasBrought, HasFailedAlone};

use crate::one_side::put_on;
use crate::read::block_on;
use fdr_ring::Ring;
use fdr_slot::MAX_PAYLOAD;
use fdr_twin::{Side, Twin};

/// Why a side wasn't brought up to the lead.
#[derive(Drop)]
pub enum BringFault {
    /// The side that follows failed: its count of faults rose in this call.
    FollowerFailed,
    /// The lead failed: its count of faults rose in this call.
    LeadFailed,
    /// The lead hasn't the next block of this ring, in which the blocks before it were brought, though it neither failed nor is the
    /// other side too far behind. Only a twin that doesn't tell its bytes shows that.
    NotFound(Ring),
}

// The other one.
pub fn other_side(side: Side) -> Side
    ensures { result ≡ other_side side }
{
    match side {
        Side::First => Side::Second,
        Side::Second => Side::First,
    }
}

// Puts the lead's block with a number, the ring's next one, on the side that follows, with its session.
fn bring_block<T: Twin>(twin: &mut T, lead: Side, ring: Ring, seq: u64) -> Result<Ring, BringFault>
    requires ring { IsSettledRing T.tells (other_side lead) ring (T.pair twin.old) }
    requires whole { image_size ring.header ≤ (disk_on lead (T.pair twin.old)).extent }
    requires number { seq ≡ ring.next }
    requires bound { seq < sequence_end }
    ensures next { IfOk result (λ r. r.next ≡ ring.next + 1) }
    ensures brought { IfOk result (λ r. HasBrought T.tells lead ring r
        (blocks_between ring.header (disk_on lead (T.pair twin.old)).held ring.next (ring.next + 1)) (T.pair twin.old) (T.pair twin.new)) }
    ensures lead { IsSameContent (disk_on lead (T.pair twin.old)) (disk_on lead (T.pair twin.new)) }
    ensures work { PairWork T.tells (IsBringing ring.header lead
        (blocks_between ring.header (disk_on lead (T.pair twin.old)).held ring.next (ring.next + 1)) (T.pair twin.old))
        (T.pair twin.old) (T.pair twin.new) }
    ensures follower_failed { result ≡ Err BringFault.FollowerFailed
        → HasFailedAlone (other_side lead) (T.pair twin.old) (T.pair twin.new) }
    ensures lead_failed { result ≡ Err BringFault.LeadFailed → HasFailedAlone lead (T.pair twin.old) (T.pair twin.new) }
    ensures unmoved { result ≡ Err BringFault.LeadFailed
        → (disk_on (other_side lead) (T.pair twin.new)).held ≡ (disk_on (other_side lead) (T.pair twin.old)).held }
    ensures not_found { (r : Ring) → result ≡ Err (BringFault.NotFound r) → (r ≡ ring)
        × HasBrought T.tells lead ring r [] (T.pair twin.old) (T.pair twin.new)
        × (IsTrue T.tells.bytes → block_numbered ring.header (disk_on lead (T.pair twin.old)).held ring.next ≡ None) }
{
    let header = ring.header();
    let mut payload = [0; MAX_PAYLOAD];
    let Ok(info) = block_on(twin, lead, &header, seq, &mut payload) else {
        return Err(BringFault::LeadFailed);
    };
    if info.len == 0 {
        return Err(BringFault::NotFound(ring));
    }
    let follower = other_side(lead);
    let Ok(ring) = put_on(twin, follower, ring, info.session, &payload[..info.len]) else {
        return Err(BringFault::FollowerFailed);
    };
    Ok(ring)
}

/// Brings a side up to the lead: puts the lead's blocks from the ring's next number on, below `end`, on the side that follows, each
/// with its own session. The lead is only read, and nothing is pulled or announced. At each moment the image of the side that
/// follows keeps its own run and the first of the blocks that are brought.
pub fn bring_up<T: Twin>(twin: &mut T, lead: Side, ring: Ring, end: u64) -> Result<Ring, BringFault>
    requires ring { IsSettledRing T.tells (other_side lead) ring (T.pair twin.old) }
    requires whole { image_size ring.header ≤ (disk_on lead (T.pair twin.old)).extent }
    requires behind { ring.next ≤ end }
    requires bound { end ≤ sequence_end }
    requires end { IsTrue T.tells.bytes → end ≡ next_of ring.header (disk_on lead (T.pair twin.old)).held }
    requires near { IsTrue T.tells.bytes → IsFarBehind ring.header (disk_on lead (T.pair twin.old)).held
        (disk_on (other_side lead) (T.pair twin.old)).held → ⊥ }
    ensures next { IfOk result (λ r. r.next ≡ end) }
    ensures brought { IfOk result (λ r. HasBrought T.tells lead ring r (missing_blocks ring.header
        (disk_on lead (T.pair twin.old)).held (disk_on (other_side lead) (T.pair twin.old)).held) (T.pair twin.old) (T.pair twin.new)) }
    ensures lead { IsSameContent (disk_on lead (T.pair twin.old)) (disk_on lead (T.pair twin.new)) }
    ensures work { PairWork T.tells (IsBringing ring.header lead (missing_blocks ring.header
        (disk_on lead (T.pair twin.old)).held (disk_on (other_side lead) (T.pair twin.old)).held) (T.pair twin.old))
        (T.pair twin.old) (T.pair twin.new) }
    ensures follower_failed { result ≡ Err BringFault.FollowerFailed
        → HasFailedAlone (other_side lead) (T.pair twin.old) (T.pair twin.new) }
    ensures lead_failed { result ≡ Err BringFault.LeadFailed → (ring.next < end) × HasFailedAlone lead (T.pair twin.old) (T.pair twin.new) }
    ensures still_behind { result ≡ Err BringFault.LeadFailed
        → IsTrue T.tells.bytes → next_of ring.header (disk_on (other_side lead) (T.pair twin.new)).held < end }
    ensures not_found { (r : Ring) → result ≡ Err (BringFault.NotFound r) → (ring.next ≤ r.next) × (r.next < end)
        × HasBrought T.tells lead ring r (blocks_between ring.header (disk_on lead (T.pair twin.old)).held ring.next r.next)
        (T.pair twin.old) (T.pair twin.new) × (IsTrue T.tells.bytes → ⊥) }
{
    let mut level = ring;
    for seq in level.next()..end {
        level = bring_block(twin, lead, level, seq)?;
    }
    Ok(level)
}
