//! A block on both sides.

ghost use Rattle.std.specs.Prelude.{◌≡◌, ◌+◌, ◌<◌, ◌≤◌, [], ◌∷◌, length};
ghost use Rattle.fdr_slot.specs.Limits.{sequence_end};
ghost use Rattle.fdr_twin.specs.Serving.{EachPairMoment};
ghost use Rattle.fdr_twin.specs.declared.side.Side.TheVariants as side;
ghost use Rattle.fdr_pair.specs.Numbers.{CountsOn};
ghost use Rattle.fdr_pair.specs.Ahead.{StaysNearOn};
ghost use Rattle.fdr_slot.specs.declared.image.Header.{Header};
ghost use Rattle.fdr_twin.specs.declared.side.Side.{Side};
ghost use Rattle.fdr_pair.specs.Living.{Follows, IsReadyFor, HasLiving, SideKept, SideMoment, SideNow};

use crate::announce::announce_living;
use crate::one_side::put_unless_failed;
use fdr_ring::Ring;
use fdr_twin::{Side, Twin};

/// Puts a block of a session on each side that hasn't failed, and then announces that it is there. Either side may fail meanwhile, and the
/// other goes on: at each moment each side has failed by then, or its image keeps its run and the block, and every block that
/// is announced at that moment, where no number above the block's could be announced before. The rings of the sides that
/// haven't failed are handed back.
pub fn record_block<T: Twin>(
    twin: &mut T,
    first: Option<Ring>,
    second: Option<Ring>,
    next: u64,
    session: u32,
    bytes: &[u8],
) -> (Option<Ring>, Option<Ring>)
    requires bound { next < sequence_end }
    requires some_bytes { 0 < length bytes.now }
    requires first_ready { IsReadyFor T.tells side.First first next session bytes.now (T.pair twin.old) }
    requires second_ready { IsReadyFor T.tells side.Second second next session bytes.now (T.pair twin.old) }
    ensures first_moments { (T.pair twin.old).greatest ≤ next → EachPairMoment T.tells (T.pair twin.old) (T.pair twin.new)
        (SideMoment side.First first (record { number = next; session = session; payload = bytes.now } ∷ []) (T.pair twin.old)) }
    ensures second_moments { (T.pair twin.old).greatest ≤ next → EachPairMoment T.tells (T.pair twin.old) (T.pair twin.new)
        (SideMoment side.Second second (record { number = next; session = session; payload = bytes.now } ∷ []) (T.pair twin.old)) }
    ensures first_kept { EachPairMoment T.tells (T.pair twin.old) (T.pair twin.new)
        (SideKept side.First first (record { number = next; session = session; payload = bytes.now } ∷ []) (T.pair twin.old)) }
    ensures second_kept { EachPairMoment T.tells (T.pair twin.old) (T.pair twin.new)
        (SideKept side.Second second (record { number = next; session = session; payload = bytes.now } ∷ []) (T.pair twin.old)) }
    ensures first_now { SideNow T.tells side.First first result.0 (record { number = next; session = session; payload = bytes.now } ∷ [])
        (T.pair twin.old) (T.pair twin.new) }
    ensures second_now { SideNow T.tells side.Second second result.1 (record { number = next; session = session; payload = bytes.now } ∷ [])
        (T.pair twin.old) (T.pair twin.new) }
    ensures near { (h : Header) → (T.pair twin.old).announced ≡ next → Follows h next first → Follows h next second → (side : Side)
        → StaysNearOn T.tells h side (T.pair twin.old) (T.pair twin.new) }
    ensures numbers { CountsOn T.tells next 1 (T.pair twin.old) (T.pair twin.new) }
    ensures announced { HasLiving result.0 result.1 → (T.pair twin.new).announced ≡ next + 1 }
{
    let first = put_unless_failed(twin, Side::First, first, session, bytes);
    let second = put_unless_failed(twin, Side::Second, second, session, bytes);
    announce_living(twin, &first, &second, next + 1);
    (first, second)
}
