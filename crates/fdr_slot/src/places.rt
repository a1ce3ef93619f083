//! Where the slots of an image are.

ghost use Rattle.std.specs.Prelude.{◌≡◌, ◌+◌, ◌≤◌, ◌<◌};
ghost use Rattle.fdr_slot.specs.Limits.{IsInLimits};
ghost use Rattle.fdr_slot.specs.Places as places;

use crate::Header;

/// How many bytes an image with this header has: the header and all slots.
pub fn image_size(h: &Header) -> u64
    requires { IsInLimits h.now }
    ensures { result ≡ places.image_size h.now }
{
    64 + u64::from(h.slots) * (16 + u64::from(h.payload))
}

/// Where a slot begins in an image with this header.
pub fn slot_at(h: &Header, slot: u32) -> u64
    requires limits { IsInLimits h.now }
    requires exists { slot < h.now.slots }
    ensures { result ≡ places.slot_at h.now slot }
{
    64 + u64::from(slot) * (16 + u64::from(h.payload))
}

/// The slot that the block with a sequence number takes: the number modulo the number of slots.
pub fn slot_of(h: &Header, seq: u64) -> u32
    requires { IsInLimits h.now }
    ensures slot { result ≡ places.slot_number_of h.now.slots seq }
    ensures exists { result < h.now.slots }
{
    (seq % u64::from(h.slots)) as u32
}

/// Where the gate of the slot of a sequence number is, in bytes from the start of an image with this header.
pub fn gate_at(h: &Header, seq: u64) -> u64
    requires { IsInLimits h.now }
    ensures at { result ≡ places.gate_at h.now seq }
    ensures within { result + 16 + h.now.payload ≤ places.image_size h.now }
    ensures after_header { 64 ≤ result }
{
    slot_at(h, slot_of(h, seq))
}
