//! Both sides, attached for a recording.

ghost use Rattle.std.specs.Prelude.{◌≡◌, ◌≤◌, IfOk, IfErr, IsTrue};
ghost use Rattle.fdr_slot.specs.Limits.{IsInLimits, sequence_end};
ghost use Rattle.fdr_twin.specs.Rest.{LeavesSide};
ghost use Rattle.fdr_twin.specs.Pair.{other_side, disk_on};
ghost use Rattle.fdr_twin.specs.Same.{IsSameDisk};
ghost use Rattle.fdr_twin.specs.declared.side.Side.TheVariants as side;
ghost use Rattle.fdr_pair.specs.PairWork.{PairWork};
ghost use Rattle.fdr_pair.specs.Attaching.{start_on, IsAttachReady, HasNext, AttachedNow, AttachMoment, AreAttachMoments, AgreeOnNext};
ghost use Rattle.fdr_pair.specs.Attaching.{IsNotGoneOn, HasGoneOnFrom, IsGoingRefused};

use crate::announce::announce_living;
use crate::join::{Follower, Joined};
use crate::look::attach_on;
use crate::outcome::PairOutcome;
use crate::rings::PairRings;
use fdr_ring::Ring;
use fdr_slot::Header;
use fdr_twin::{Side, Twin};

/// What each side is attached from.
#[derive(Drop)]
struct SideStarts {
    first: Follower,
    second: Follower,
}

/// The rings of both sides, None where a side has failed.
#[derive(Drop)]
struct SideRings {
    first: Option<Ring>,
    second: Option<Ring>,
}

// What each side is attached from: the lead as a side whose ring isn't attached yet.
fn side_starts(lead: Side, follower: Follower) -> SideStarts
    ensures first { result.first ≡ start_on side.First lead follower }
    ensures second { result.second ≡ start_on side.Second lead follower }
{
    match lead {
        Side::First => SideStarts {
            first: Follower::Level,
            second: follower,
        },
        Side::Second => SideStarts {
            first: follower,
            second: Follower::Level,
        },
    }
}

// The ring of a side, or None where it has failed or fails now.
fn ring_on<T: Twin>(twin: &mut T, side: Side, h: Header, start: Follower) -> Option<Ring>
    requires limits { IsInLimits h }
    requires ready { IsAttachReady T.tells h side start (T.pair twin.old) }
    ensures now { AttachedNow T.tells h side start result (T.pair twin.old) (T.pair twin.new) }
    ensures still { start ≡ Follower.Failed → IsSameDisk (disk_on side (T.pair twin.old)) (disk_on side (T.pair twin.new)) }
    ensures away { LeavesSide (other_side side) (T.pair twin.old) (T.pair twin.new) }
    ensures work { PairWork T.tells (AttachMoment h side start (T.pair twin.old)) (T.pair twin.old) (T.pair twin.new) }
{
    match start {
        Follower::Failed => None,
        Follower::Level => match attach_on(twin, side, h) {
            Ok(ring) => Some(ring),
            Err(_) => None,
        },
        Follower::Brought(ring) => Some(ring),
    }
}

// Attaches each ring that isn't attached yet.
fn attach_sides<T: Twin>(twin: &mut T, h: Header, lead: Side, follower: Follower) -> SideRings
    requires limits { IsInLimits h }
    requires first_ready { IsAttachReady T.tells h side.First (start_on side.First lead follower) (T.pair twin.old) }
    requires second_ready { IsAttachReady T.tells h side.Second (start_on side.Second lead follower) (T.pair twin.old) }
    ensures first { AttachedNow T.tells h side.First (start_on side.First lead follower) result.first (T.pair twin.old) (T.pair twin.new) }
    ensures second { AttachedNow T.tells h side.Second (start_on side.Second lead follower) result.second (T.pair twin.old) (T.pair twin.new) }
    ensures first_still { start_on side.First lead follower ≡ Follower.Failed → IsSameDisk (T.pair twin.old).first (T.pair twin.new).first }
    ensures second_still { start_on side.Second lead follower ≡ Follower.Failed
        → IsSameDisk (T.pair twin.old).second (T.pair twin.new).second }
    ensures work { PairWork T.tells (AreAttachMoments h lead follower (T.pair twin.old)) (T.pair twin.old) (T.pair twin.new) }
{
    let starts = side_starts(lead, follower);
    let first = ring_on(twin, Side::First, h, starts.first);
    let second = ring_on(twin, Side::Second, h, starts.second);
    SideRings { first, second }
}

// The number that the rings go on with.
fn next_of_rings(rings: &SideRings) -> Result<u64, PairOutcome>
    ensures next { IfOk result (λ next. AgreeOnNext rings.now.first rings.now.second next) }
    ensures bound { IfOk result (λ next. next ≤ sequence_end) }
    ensures refused { IfErr result (λ why. IsNotGoneOn rings.now.first rings.now.second why) }
{
    match &rings.first {
        None => match &rings.second {
            None => Err(PairOutcome::DiskFault),
            Some(second) => Ok(second.next()),
        },
        Some(first) => match &rings.second {
            None => Ok(first.next()),
            // Only a twin that doesn't tell its bytes has other numbers here than those that were found.
            Some(second) if first.next() != second.next() => Err(PairOutcome::BlocksDiffer {
                seq: first.next().min(second.next()),
            }),
            Some(_) => Ok(first.next()),
        },
    }
}

/// Attaches each ring that isn't attached yet, and announces the next number. A side that fails is left aside; where none is
/// left, the answer is `DiskFault`. Only a twin that doesn't tell its bytes shows `BlocksDiffer`. Nothing is pulled.
pub fn go_on<T: Twin>(twin: &mut T, h: Header, joined: Joined) -> Result<PairRings, PairOutcome>
    requires limits { IsInLimits h }
    requires current { h.version ≡ 2 }
    requires first_ready { IsAttachReady T.tells h side.First (start_on side.First joined.lead joined.follower) (T.pair twin.old) }
    requires second_ready { IsAttachReady T.tells h side.Second (start_on side.Second joined.lead joined.follower) (T.pair twin.old) }
    requires first_next { HasNext T.tells h side.First (start_on side.First joined.lead joined.follower) joined.found.next (T.pair twin.old) }
    requires second_next { HasNext T.tells h side.Second (start_on side.Second joined.lead joined.follower) joined.found.next (T.pair twin.old) }
    ensures gone_on { IfOk result (λ rings. HasGoneOnFrom T.tells h joined rings (T.pair twin.old) (T.pair twin.new)) }
    ensures refused { IfErr result (λ why. IsGoingRefused T.tells h joined why (T.pair twin.old) (T.pair twin.new)) }
{
    let rings = attach_sides(twin, h, joined.lead, joined.follower);
    let next = next_of_rings(&rings)?;
    let SideRings { first, second } = rings;
    announce_living(twin, &first, &second, next);
    Ok(PairRings::new(h, first, second, next))
}
