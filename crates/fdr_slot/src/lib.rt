//! The image of a recording: its header, and the heads of its slots.
//!
//! An image has a header of 64 bytes, and after it slots of one size. A slot has a head of 16 bytes
//! and room for a block's payload. Numbers are big-endian.
#![tactic(auto)]

mod head;
mod image;
mod places;

pub use head::{SlotHead, is_valid, read_slot, session_in, write_slot_head};
pub use image::{Header, ImageFault, in_limits, read_header, write_header};
pub use places::{gate_at, image_size, slot_at, slot_of};

/// The byte of an open gate, in a header and in a slot's head. Any other byte is a closed one.
pub const OPEN: u8 = 0x5a;

/// The least slots of an image.
pub const MIN_SLOTS: u32 = 4;

/// The most slots of an image.
pub const MAX_SLOTS: u32 = 65_536;

/// The least bytes that the blocks of an image may have at most.
pub const MIN_PAYLOAD: u32 = 64;

/// The most bytes of a block, in whichever image.
pub const MAX_PAYLOAD: usize = 4_096;

/// Sequence numbers of blocks are below this, 2^48.
pub const SEQUENCE_END: u64 = 1 << 48;

// The numbers that the format promises: `least_slot_count`, `most_slot_count`, `least_payload_bytes`, `most_payload_bytes`
// and `sequence_end` of the definitions.
const _: () = prove!(MIN_SLOTS == 4 && MAX_SLOTS == 65_536 && MIN_PAYLOAD == 64);

const _: () = prove!(MAX_PAYLOAD == 4_096 && SEQUENCE_END == 0x1_0000_0000_0000);
