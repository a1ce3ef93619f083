//! Which side leads.

ghost use Rattle.std.specs.Prelude.{◌≡◌, ◌↔◌, ◌<◌, Some, IsTrue};
ghost use Rattle.fdr_pair.specs.Brought.{leader_by};

use fdr_recover::Found;
use fdr_twin::Side;

/// The side that leads, by the runs that were found on both: the one with the greater next number, and the first at a tie.
pub fn lead_of(first: &Found, second: &Found) -> Side
    ensures { result ≡ leader_by (Some first.now.next) (Some second.now.next) }
{
    if first.next < second.next {
        Side::Second
    } else {
        Side::First
    }
}

/// Whether the side that follows is too far behind the lead to be brought up to it: the lead no longer has its next block.
pub fn is_far_behind(lead: &Found, follower: &Found) -> bool
    ensures { IsTrue result ↔ follower.now.next < lead.now.first }
{
    follower.next < lead.first
}
