//! A block on a deck.

ghost use Rattle.std.specs.Prelude.{◌≡◌, ◌⊎◌, ◌+◌, ◌<◌, ◌≤◌, [], ◌∷◌, Err, length, IfOk, OnOk, OnErr, IsTrue};
ghost use Rattle.fdr_io.specs.Faults.{Rose};
ghost use Rattle.fdr_deck.specs.Disk.{IsSettled};
ghost use Rattle.fdr_deck.specs.Calls.{IsDiskWork, Succeeds};
ghost use Rattle.fdr_slot.specs.Limits.{sequence_end};
ghost use Rattle.fdr_ring.specs.Rings.{IsRing, IsSureRing, OfSettled};
ghost use Rattle.fdr_pair.specs.Putting.{AddsExactly, HasPut, MayPut};
ghost use Rattle.fdr_pair.specs.Ahead.{StaysNear};

use fdr_deck::Deck;
use fdr_recover::RingFault;
use fdr_ring::Ring;

/// Prepares a block of a session and commits it. In version 1 the session is 0. At each moment the image keeps its run, with the block or without it.
pub fn put_block<D: Deck>(
    deck: &mut D,
    ring: Ring,
    session: u32,
    bytes: &[u8],
) -> Result<Ring, RingFault>
    requires fact { IsRing D.tells ring.header ring.next (D.state deck.old) }
    requires session { ring.header.version ≡ 1 → session ≡ 0 }
    requires some_bytes { 0 < length bytes.now }
    requires fits { length bytes.now ≤ ring.header.payload }
    ensures only { OnErr result (result ≡ Err RingFault.SeqEnd ⊎ result ≡ Err RingFault.DiskFault) }
    ensures seq_end { result ≡ Err RingFault.SeqEnd → ring.next ≡ sequence_end }
    ensures ring { IfOk result (λ r. (r.header ≡ ring.header) × (r.next ≡ ring.next + 1) × (r.session ≡ session)) }
    ensures fact { IfOk result (λ r. IsSureRing D.tells r.header r.next (D.state deck.new)) }
    ensures put { OnOk result (IsTrue D.tells.bytes → HasPut ring.header
        (record { number = ring.next; session = session; payload = bytes.now }) (D.state deck.old).held (D.state deck.new).held) }
    ensures exact { OnOk result (IsTrue D.tells.bytes → AddsExactly ring.header
        (record { number = ring.next; session = session; payload = bytes.now } ∷ []) (D.state deck.old).held (D.state deck.new).held) }
    ensures settled { OnOk result (IsTrue D.tells.stops → IsSettled (D.state deck.new)) }
    ensures extent { (D.state deck.new).extent ≡ (D.state deck.old).extent }
    ensures disk_work { IsDiskWork D.tells
        (OfSettled (D.state deck.old) (MayPut ring.header (record { number = ring.next; session = session; payload = bytes.now })))
        (D.state deck.old) (D.state deck.new) }
    ensures near { (IsTrue D.tells.stops → IsSettled (D.state deck.old)) → (D.state deck.old).announced ≡ ring.next
        → StaysNear D.tells ring.header (D.state deck.old) (D.state deck.new) }
    ensures succeeds { OnOk result (Succeeds (D.state deck.old) (D.state deck.new)) }
    ensures cause { result ≡ Err RingFault.DiskFault
        → Rose (D.state deck.old).disk_faults (D.state deck.new).disk_faults }
    ensures rest { D.same_rest deck.old deck.new }
{
    let prepared = ring.prepare(deck, session, bytes)?;
    prepared.commit(deck)
}
