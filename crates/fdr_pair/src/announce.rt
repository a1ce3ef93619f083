//! An announcement.

ghost use Rattle.fdr_pair.specs.Announcing.{PairAnnounces, AnnouncesLiving};

use fdr_ring::Ring;
use fdr_twin::{Side, Twin};

/// Announces this count while the twin is turned to this side. The disks of both sides are left.
pub fn announce_on<T: Twin>(twin: &mut T, side: Side, count: u64)
    ensures { PairAnnounces T.tells side count (T.pair twin.old) (T.pair twin.new) }
{
    twin.turn(side);
    twin.announce(count);
}

/// Announces this count while the twin is turned to a side that hasn't failed, where there is one. A side has failed where its
/// ring is None.
pub fn announce_living<T: Twin>(
    twin: &mut T,
    first: &Option<Ring>,
    second: &Option<Ring>,
    count: u64,
)
    ensures { AnnouncesLiving T.tells first.now second.now count (T.pair twin.old) (T.pair twin.new) }
{
    match first {
        Some(_) => announce_on(twin, Side::First, count),
        None => match second {
            Some(_) => announce_on(twin, Side::Second, count),
            None => {}
        },
    }
}
