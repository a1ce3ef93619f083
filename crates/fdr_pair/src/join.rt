//! The side that follows is brought up to the one that leads.

ghost use Rattle.std.specs.Prelude.{◌≡◌, ◌≤◌, ℕ, min, Err, IfOk, IfErr, IsTrue};
ghost use Rattle.fdr_slot.specs.Limits.{IsInLimits, sequence_end};
ghost use Rattle.fdr_slot.specs.Places.{image_size};
ghost use Rattle.fdr_recover.specs.Images.{next_of};
ghost use Rattle.fdr_twin.specs.Pair.{disk_on, other_side};
ghost use Rattle.fdr_pair.specs.Brought.{missing_blocks, IsFarBehind};
ghost use Rattle.fdr_pair.specs.PairWork.{IsSameContent, PairWork};
ghost use Rattle.fdr_pair.specs.Bringing.{IsBringing};
ghost use Rattle.fdr_pair.specs.SidePuts.{IsSettledRing};
ghost use Rattle.fdr_pair.specs.SideRuns.{IsRunOn};
ghost use Rattle.fdr_pair.specs.Joining.{IsBroughtIn, IsJoining, HasJoined, IsJoinRefusal, HaveRuns, JoinMoment, AreJoinedSides, AreNotJoined};

use crate::bring::{BringFault, bring_up, other_side};
use crate::lead::{is_far_behind, lead_of};
use crate::look::attach_on;
use crate::outcome::PairOutcome;
use crate::runs::SideRuns;
use fdr_recover::Found;
use fdr_ring::Ring;
use fdr_slot::Header;
use fdr_twin::{Side, Twin};

/// The side that doesn't lead.
#[derive(Drop)]
pub enum Follower {
    /// It has failed.
    Failed,
    /// It has the lead's next number, and its ring isn't attached yet.
    Level,
    /// It was brought up to the lead in this ring.
    Brought(Ring),
}

/// The side that leads, what was found of its run, and the other side.
#[derive(Drop)]
pub struct Joined {
    /// The side that leads.
    pub lead: Side,
    /// Its run.
    pub found: Found,
    /// The other side.
    pub follower: Follower,
}

// The answer that names the next block of this ring, which the lead hasn't.
fn missing_block(ring: &Ring) -> PairOutcome
    ensures { result ≡ PairOutcome.BlocksDiffer ring.now.next }
{
    PairOutcome::BlocksDiffer { seq: ring.next() }
}

// Puts the lead's blocks from the ring's next number on, below `end`, on the side that follows.
fn bring<T: Twin>(twin: &mut T, lead: Side, ring: Ring, end: u64) -> Result<Follower, PairOutcome>
    requires ring { IsSettledRing T.tells (other_side lead) ring (T.pair twin.old) }
    requires whole { image_size ring.header ≤ (disk_on lead (T.pair twin.old)).extent }
    requires bound { end ≤ sequence_end }
    requires end { IsTrue T.tells.bytes → end ≡ next_of ring.header (disk_on lead (T.pair twin.old)).held }
    requires behind { IsTrue T.tells.bytes → ring.next ≤ end }
    requires near { IsTrue T.tells.bytes → IsFarBehind ring.header (disk_on lead (T.pair twin.old)).held
        (disk_on (other_side lead) (T.pair twin.old)).held → ⊥ }
    ensures brought { IfOk result (λ follower. IsBroughtIn T.tells lead ring end follower (T.pair twin.old) (T.pair twin.new)) }
    ensures refused { IfErr result (λ why. IsJoinRefusal T.tells ring.header lead end why (T.pair twin.old) (T.pair twin.new)) }
    ensures not_far { (side : Side) → result ≡ Err (PairOutcome.FarBehind side) → ⊥ }
    ensures number { (seq : ℕ) → result ≡ Err (PairOutcome.BlocksDiffer seq) → (min ring.next end ≤ seq) × (seq ≤ end) }
    ensures lead { IsSameContent (disk_on lead (T.pair twin.old)) (disk_on lead (T.pair twin.new)) }
    ensures work { PairWork T.tells (IsBringing ring.header lead (missing_blocks ring.header
        (disk_on lead (T.pair twin.old)).held (disk_on (other_side lead) (T.pair twin.old)).held) (T.pair twin.old))
        (T.pair twin.old) (T.pair twin.new) }
{
    // Only a twin that doesn't tell its bytes has another number here than the one that was found.
    if end < ring.next() {
        return Err(PairOutcome::BlocksDiffer { seq: end });
    }
    match bring_up(twin, lead, ring, end) {
        Ok(ring) => Ok(Follower::Brought(ring)),
        Err(BringFault::FollowerFailed) => Ok(Follower::Failed),
        Err(BringFault::LeadFailed) => Err(PairOutcome::LeadFault(lead)),
        Err(BringFault::NotFound(ring)) => Err(missing_block(&ring)),
    }
}

// Attaches the ring of the side that follows, and brings it up to the lead, whose next number is `end`.
fn follow<T: Twin>(twin: &mut T, h: Header, lead: Side, end: u64) -> Result<Follower, PairOutcome>
    requires limits { IsInLimits h }
    requires lead_whole { image_size h ≤ (disk_on lead (T.pair twin.old)).extent }
    requires whole { image_size h ≤ (disk_on (other_side lead) (T.pair twin.old)).extent }
    requires bound { end ≤ sequence_end }
    requires end { IsTrue T.tells.bytes → end ≡ next_of h (disk_on lead (T.pair twin.old)).held }
    requires behind { IsTrue T.tells.bytes → next_of h (disk_on (other_side lead) (T.pair twin.old)).held ≤ end }
    requires near { IsTrue T.tells.bytes → IsFarBehind h (disk_on lead (T.pair twin.old)).held
        (disk_on (other_side lead) (T.pair twin.old)).held → ⊥ }
    ensures joined { IfOk result (λ follower. HasJoined T.tells h lead end follower (T.pair twin.old) (T.pair twin.new)) }
    ensures refused { IfErr result (λ why. IsJoinRefusal T.tells h lead end why (T.pair twin.old) (T.pair twin.new)) }
    ensures lead { IsSameContent (disk_on lead (T.pair twin.old)) (disk_on lead (T.pair twin.new)) }
    ensures work { PairWork T.tells (IsJoining h lead (T.pair twin.old)) (T.pair twin.old) (T.pair twin.new) }
{
    match attach_on(twin, other_side(lead), h) {
        Ok(ring) => bring(twin, lead, ring, end),
        Err(_) => Ok(Follower::Failed),
    }
}

// The side that leads by what was found of both sides, and the other, brought up to it.
fn join_both<T: Twin>(
    twin: &mut T,
    h: Header,
    lead: Side,
    found: Found,
    behind: Found,
) -> Result<Joined, PairOutcome>
    requires limits { IsInLimits h }
    requires lead_whole { image_size h ≤ (disk_on lead (T.pair twin.old)).extent }
    requires whole { image_size h ≤ (disk_on (other_side lead) (T.pair twin.old)).extent }
    requires lead_run { IsRunOn T.tells h lead found (T.pair twin.old) }
    requires run { IsRunOn T.tells h (other_side lead) behind (T.pair twin.old) }
    requires leads { behind.next ≤ found.next }
    ensures lead_of { IfOk result (λ joined. (joined.lead ≡ lead) × (joined.found ≡ found)) }
    ensures joined { IfOk result (λ joined. HasJoined T.tells h lead found.next joined.follower (T.pair twin.old) (T.pair twin.new)) }
    ensures refused { IfErr result (λ why. IsJoinRefusal T.tells h lead found.next why (T.pair twin.old) (T.pair twin.new)) }
    ensures near { IfOk result (λ joined. IsTrue T.tells.bytes → IsFarBehind h (disk_on lead (T.pair twin.old)).held
        (disk_on (other_side lead) (T.pair twin.old)).held → ⊥) }
    ensures lead { IsSameContent (disk_on lead (T.pair twin.old)) (disk_on lead (T.pair twin.new)) }
    ensures work { PairWork T.tells (IsJoining h lead (T.pair twin.old)) (T.pair twin.old) (T.pair twin.new) }
{
    if is_far_behind(&found, &behind) {
        return Err(PairOutcome::FarBehind(other_side(lead)));
    }
    let follower = if behind.next < found.next {
        follow(twin, h, lead, found.next)?
    } else {
        Follower::Level
    };
    Ok(Joined {
        lead,
        found,
        follower,
    })
}

/// Brings the side that follows up to the one that leads. Where one side has failed, the other leads.
pub fn join_sides<T: Twin>(twin: &mut T, h: Header, runs: &SideRuns) -> Result<Joined, PairOutcome>
    requires limits { IsInLimits h }
    requires runs { HaveRuns T.tells h runs.now (T.pair twin.old) }
    ensures joined { IfOk result (λ joined. AreJoinedSides T.tells h runs.now joined (T.pair twin.old) (T.pair twin.new)) }
    ensures refused { IfErr result (λ why. AreNotJoined T.tells h runs.now why (T.pair twin.old) (T.pair twin.new)) }
    ensures work { PairWork T.tells (JoinMoment h runs.now (T.pair twin.old)) (T.pair twin.old) (T.pair twin.new) }
{
    match runs {
        SideRuns::Alone { side, found } => Ok(Joined {
            lead: *side,
            found: *found,
            follower: Follower::Failed,
        }),
        SideRuns::Both { first, second } => match lead_of(first, second) {
            Side::First => join_both(twin, h, Side::First, *first, *second),
            Side::Second => join_both(twin, h, Side::Second, *second, *first),
        },
    }
}
