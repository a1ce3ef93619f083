//! The writes that bring a block into its slot.

ghost use Rattle.std.specs.Prelude.{◌≡◌, ℕ, ◌+◌, ◌≤◌, ◌<◌, ◌^◌, List, [], ◌∷◌, take, length, OnOk, OnErr, IsTrue};
ghost use Rattle.fdr_io.specs.Faults.{Rose};
ghost use Rattle.fdr_deck.specs.Disk.{IsSettled, Torn, patched};
ghost use Rattle.fdr_deck.specs.Calls.{Succeeds};
ghost use Rattle.fdr_slot.specs.Limits.{IsInLimits, most_payload_bytes};
ghost use Rattle.fdr_slot.specs.Places.{image_size, gate_at};
ghost use Rattle.fdr_ring.specs.Bodies.{body_bytes, image_with_body};
ghost use Rattle.fdr_ring.specs.Rings.{ChangesImage};

use fdr_deck::Deck;
use fdr_io::Failed;
use fdr_slot::{Header, MAX_PAYLOAD, OPEN, gate_at, write_slot_head};

/// The rest of a head after its gate, and the largest payload.
const MAX_BODY: usize = 15 + MAX_PAYLOAD;

/// Puts the bytes there.
fn put(room: &mut [u8], at: usize, bytes: &[u8])
    requires { at + length bytes.now ≤ length room.old }
    ensures { room.new ≡ patched at bytes.now room.old }
{
    room[at..at + bytes.len()].copy_from_slice(bytes);
}

/// What is after the gate of a block's slot, at the front of an array that has room for the
/// largest.
fn body_of(seq: u64, session: u32, bytes: &[u8]) -> [u8; MAX_BODY]
    requires { length bytes.now ≤ most_payload_bytes }
    ensures { take (15 + length bytes.now) result ≡ body_bytes seq session bytes.now }
{
    let head = write_slot_head(bytes.len() as u16, session, seq);
    let mut body = [0; MAX_BODY];
    put(&mut body, 0, &head[1..]);
    put(&mut body, 15, bytes);
    body
}

/// Writes what is after the gate of a block's slot, in one write. It isn't durable yet.
pub fn write_body<D: Deck>(
    deck: &mut D,
    h: &Header,
    seq: u64,
    session: u32,
    bytes: &[u8],
) -> Result<(), Failed>
    requires limits { IsInLimits h.now }
    requires fits { length bytes.now ≤ h.now.payload }
    requires whole { image_size h.now ≤ (D.state deck.old).extent }
    ensures changes { ChangesImage D.tells (Torn (gate_at h.now seq + 1) (15 + length bytes.now)) (D.state deck.old) (D.state deck.new) }
    ensures written { OnOk result (IsTrue D.tells.bytes
        → (D.state deck.new).held ≡ image_with_body h.now seq session bytes.now (D.state deck.old).held) }
    ensures succeeds { OnOk result (Succeeds (D.state deck.old) (D.state deck.new)) }
    ensures cause { OnErr result (Rose (D.state deck.old).disk_faults (D.state deck.new).disk_faults) }
    ensures rest { D.same_rest deck.old deck.new }
{
    let body = body_of(seq, session, bytes);
    deck.write(gate_at(h, seq) + 1, &body[..15 + bytes.len()])
}

/// Opens a gate, and makes it durable.
pub fn open_gate<D: Deck>(deck: &mut D, at: u64) -> Result<(), Failed>
    requires { at + 1 ≤ (D.state deck.old).extent }
    ensures changes { ChangesImage D.tells (Torn at 1) (D.state deck.old) (D.state deck.new) }
    ensures written { OnOk result (IsTrue D.tells.bytes
        → (D.state deck.new).held ≡ patched at (0x5a ∷ []) (D.state deck.old).held) }
    ensures settled { OnOk result (IsTrue D.tells.stops → IsSettled (D.state deck.new)) }
    ensures succeeds { OnOk result (Succeeds (D.state deck.old) (D.state deck.new)) }
    ensures cause { OnErr result (Rose (D.state deck.old).disk_faults (D.state deck.new).disk_faults) }
    ensures rest { D.same_rest deck.old deck.new }
{
    deck.write(at, &[OPEN])?;
    deck.sync()
}
