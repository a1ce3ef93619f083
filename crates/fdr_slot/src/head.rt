//! The head of a slot.

ghost use Rattle.std.specs.Prelude.{◌≡◌, ◌<◌, ◌↔◌, IsTrue};
ghost use Rattle.fdr_slot.specs.Heads.{head_of, head_bytes, closed_head, IsValid};
ghost use Rattle.fdr_slot.specs.Heads as heads;
ghost use Rattle.fdr_slot.specs.Limits.{IsInLimits};

use crate::{Header, OPEN, SEQUENCE_END, slot_of};
use byteorder::{BigEndian, ByteOrder};

/// What a slot's head says.
#[derive(Clone, Copy, PartialEq, Eq, Debug)]
pub struct SlotHead {
    /// Whether the gate is open.
    pub gate: bool,
    /// How many bytes the block has.
    pub len: u16,
    /// The session that the block is of. In version 1 these bytes say nothing: `session_in` answers the session.
    pub session: u32,
    /// The block's sequence number.
    pub seq: u64,
}

/// What the first 16 bytes of a slot say.
#[tactic(auto, unfolding(crate::specs::Heads::head_of))]
pub fn read_slot(bytes: &[u8; 16]) -> SlotHead
    ensures { result ≡ head_of bytes.now }
{
    SlotHead {
        gate: bytes[0] == OPEN,
        len: BigEndian::read_u16(&bytes[2..]),
        session: BigEndian::read_u32(&bytes[4..]),
        seq: BigEndian::read_u64(&bytes[8..]),
    }
}

/// The first 16 bytes of a slot, with the gate closed.
pub fn write_slot_head(len: u16, session: u32, seq: u64) -> [u8; 16]
    ensures bytes { result ≡ head_bytes len session seq }
    ensures reads_back { head_of result ≡ closed_head len session seq }
{
    let mut bytes = [0; 16];
    BigEndian::write_u16(&mut bytes[2..], len);
    BigEndian::write_u32(&mut bytes[4..], session);
    BigEndian::write_u64(&mut bytes[8..], seq);
    bytes
}

/// The session of a block with this head. In version 1 it is 0, whatever the head says.
pub fn session_in(h: &Header, head: &SlotHead) -> u32
    ensures { result ≡ heads.session_in h.now head.now }
{
    if h.version == 2 { head.session } else { 0 }
}

/// Whether a slot with this head holds a block: its gate is open, its number is below 2^48 and is
/// the slot's number modulo the number of slots, and it has 1 to `payload` bytes.
pub fn is_valid(head: &SlotHead, h: &Header, slot: u32) -> bool
    requires limits { IsInLimits h.now }
    requires exists { slot < h.now.slots }
    ensures valid { IsTrue result ↔ IsValid h.now slot head.now }
    ensures value { result ≡ heads.is_valid h.now slot head.now }
{
    head.gate
        && head.seq < SEQUENCE_END
        && slot_of(h, head.seq) == slot
        && head.len > 0
        && u32::from(head.len) <= h.payload
}
