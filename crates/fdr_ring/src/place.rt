//! A block after the closed gate of its slot.

ghost use Rattle.std.specs.Prelude.{◌≡◌, ◌<◌, ◌≤◌, length, OnOk, OnErr};
ghost use Rattle.fdr_io.specs.Faults.{Rose};
ghost use Rattle.fdr_slot.specs.Limits.{IsInLimits, sequence_end};
ghost use Rattle.fdr_ring.specs.Rings.{IsRing, IsPrepared, IsPreparing, ChangesImage, HasPlaced};

use crate::close::close_open_gate;
use crate::write::write_body;
use fdr_deck::Deck;
use fdr_io::Failed;
use fdr_slot::{Header, gate_at};

/// Writes the block of the next number and of a session after its closed gate, and the gate of the
/// slot after it closed, and makes both durable at once.
pub fn place_block<D: Deck>(
    deck: &mut D,
    h: &Header,
    next: u64,
    session: u32,
    bytes: &[u8],
) -> Result<(), Failed>
    requires limits { IsInLimits h.now }
    requires number { next < sequence_end }
    requires session { h.now.version ≡ 1 → session ≡ 0 }
    requires fact { IsRing D.tells h.now next (D.state deck.old) }
    requires some_bytes { 0 < length bytes.now }
    requires fits { length bytes.now ≤ h.now.payload }
    ensures fact { OnOk result (IsPrepared D.tells h.now next (D.state deck.new)) }
    ensures placed { OnOk result (HasPlaced D.tells h.now next session bytes.now (D.state deck.old) (D.state deck.new)) }
    ensures changes { ChangesImage D.tells (IsPreparing h.now next (length bytes.now)) (D.state deck.old) (D.state deck.new) }
    ensures cause { OnErr result (Rose (D.state deck.old).disk_faults (D.state deck.new).disk_faults) }
    ensures rest { D.same_rest deck.old deck.new }
{
    write_body(deck, h, next, session, bytes)?;
    close_open_gate(deck, gate_at(h, next + 1))?;
    deck.sync()
}
