//! A block on one side of a twin.

ghost use Rattle.std.specs.Prelude.{◌≡◌, ◌⊎◌, ◌+◌, ◌<◌, ◌≤◌, [], ◌∷◌, Err, length, IfOk, OnOk, OnErr, IsTrue};
ghost use Rattle.fdr_io.specs.Faults.{Rose};
ghost use Rattle.fdr_deck.specs.Disk.{IsSettled};
ghost use Rattle.fdr_slot.specs.Limits.{sequence_end};
ghost use Rattle.fdr_ring.specs.Rings.{IsRing, IsSureRing, OfSettled};
ghost use Rattle.fdr_twin.specs.Pair.{seen, disk_on};
ghost use Rattle.fdr_twin.specs.Serving.{Serves};
ghost use Rattle.fdr_pair.specs.Putting.{AddsExactly, HasPut, MayPut};
ghost use Rattle.fdr_pair.specs.Ahead.{StaysNearOn};
ghost use Rattle.fdr_pair.specs.SidePuts.{IsPutReady, PutsUnlessFailed};
ghost use Rattle.fdr_pair.specs.SideCounts.{CountsBoth};

use crate::put::put_block;
use fdr_recover::RingFault;
use fdr_ring::Ring;
use fdr_twin::{Side, Twin};

/// Turns to a side, and prepares a block of a session there and commits it. The other side is left. DiskFault comes only where the count of
/// the side rose, SeqEnd only where the numbers are used up.
pub fn put_on<T: Twin>(
    twin: &mut T,
    side: Side,
    ring: Ring,
    session: u32,
    bytes: &[u8],
) -> Result<Ring, RingFault>
    requires fact { IsRing T.tells ring.header ring.next (seen side (T.pair twin.old)) }
    requires session { ring.header.version ≡ 1 → session ≡ 0 }
    requires some_bytes { 0 < length bytes.now }
    requires fits { length bytes.now ≤ ring.header.payload }
    ensures only { OnErr result (result ≡ Err RingFault.SeqEnd ⊎ result ≡ Err RingFault.DiskFault) }
    ensures seq_end { result ≡ Err RingFault.SeqEnd → ring.next ≡ sequence_end }
    ensures ring { IfOk result (λ r. (r.header ≡ ring.header) × (r.next ≡ ring.next + 1) × (r.session ≡ session)) }
    ensures fact { IfOk result (λ r. IsSureRing T.tells r.header r.next (seen side (T.pair twin.new))) }
    ensures put { OnOk result (IsTrue T.tells.bytes → HasPut ring.header
        (record { number = ring.next; session = session; payload = bytes.now })
        (disk_on side (T.pair twin.old)).held (disk_on side (T.pair twin.new)).held) }
    ensures exact { OnOk result (IsTrue T.tells.bytes → AddsExactly ring.header
        (record { number = ring.next; session = session; payload = bytes.now } ∷ [])
        (disk_on side (T.pair twin.old)).held (disk_on side (T.pair twin.new)).held) }
    ensures settled { OnOk result (IsTrue T.tells.stops → IsSettled (seen side (T.pair twin.new))) }
    ensures serves { Serves T.tells side
        (OfSettled (seen side (T.pair twin.old)) (MayPut ring.header (record { number = ring.next; session = session; payload = bytes.now })))
        (T.pair twin.old) (T.pair twin.new) }
    ensures near { (IsTrue T.tells.stops → IsSettled (seen side (T.pair twin.old))) → (T.pair twin.old).announced ≡ ring.next
        → StaysNearOn T.tells ring.header side (T.pair twin.old) (T.pair twin.new) }
    ensures counts { CountsBoth (T.pair twin.old) (T.pair twin.new) }
    ensures no_fault { OnOk result ((disk_on side (T.pair twin.new)).faults ≡ (disk_on side (T.pair twin.old)).faults) }
    ensures cause { result ≡ Err RingFault.DiskFault
        → Rose (disk_on side (T.pair twin.old)).faults (disk_on side (T.pair twin.new)).faults }
{
    twin.turn(side);
    put_block(twin, ring, session, bytes)
}

/// Puts a block on a side that has this ring, unless it has failed, which is None. Where it fails now, it has failed from now
/// on.
pub fn put_unless_failed<T: Twin>(
    twin: &mut T,
    side: Side,
    ring: Option<Ring>,
    session: u32,
    bytes: &[u8],
) -> Option<Ring>
    requires ready { IsPutReady T.tells side ring session bytes.now (T.pair twin.old) }
    requires some_bytes { 0 < length bytes.now }
    ensures { PutsUnlessFailed T.tells side ring result session bytes.now (T.pair twin.old) (T.pair twin.new) }
{
    match ring {
        None => None,
        Some(ring) => match put_on(twin, side, ring, session, bytes) {
            Ok(ring) => Some(ring),
            Err(_) => None,
        },
    }
}
