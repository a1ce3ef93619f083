//! Bytes in which the sync word of a first subframe may begin, 32 of them at a time.
//!
//! The word has 12 bits and may begin at each of a byte's eight. So its bits are in five halves of bytes: both of
//! the byte in which it begins, both of the next, and the lower one of the third. A table for each says at which of
//! the eight bits the word may begin, given that half. It begins at those on which all five agree.

ghost use Rattle.std.specs.Prelude.{◌≡◌, ℕ, ◌+◌, ◌-◌, ◌*◌, ◌/◌, ◌%◌, ◌^◌, ◌≤◌, ◌<◌, length, map, slice_index, bit_and};
ghost use Rattle.std.specs.Int.{bit_at};
ghost use Rattle.fdr_frame.specs.Slots.{sync_word};
ghost use Rattle.fdr_lanes.specs.Syncs.{IsSyncPosition};

use std::simd::prelude::*;

/// The number of bytes that are looked at together.
pub(crate) const BLOCK: usize = 32;

// Bit r is set where the word may begin at bit r of the first byte.
const FIRST_LOW: [u8; 16] = [
    0xf0, 0xf0, 0xf0, 0xf0, 0xf0, 0xf0, 0xf0, 0xf1, 0xf8, 0xf8, 0xf8, 0xf8, 0xfc, 0xfc, 0xfe, 0xfe,
];

const FIRST_HIGH: [u8; 16] = [
    0x00, 0x04, 0x00, 0x08, 0x01, 0x00, 0x00, 0x10, 0x82, 0x80, 0x80, 0x80, 0xc0, 0xc0, 0xe0, 0xe0,
];

const SECOND_LOW: [u8; 16] = [
    0x00, 0x40, 0x09, 0x80, 0x12, 0x00, 0x00, 0x00, 0x20, 0x04, 0x00, 0x00, 0x00, 0x00, 0x00, 0x00,
];

const SECOND_HIGH: [u8; 16] = [
    0x07, 0x09, 0x93, 0x01, 0x27, 0x01, 0x03, 0x01, 0x07, 0x49, 0x03, 0x01, 0x07, 0x01, 0x03, 0x01,
];

const THIRD_LOW: [u8; 16] = [
    0x7f, 0x9f, 0x3f, 0x1f, 0x7f, 0x1f, 0x3f, 0x1f, 0x7f, 0x9f, 0x3f, 0x1f, 0x7f, 0x1f, 0x3f, 0x1f,
];

// A table's places, once for each half of 32 lanes.
const TWICE: [usize; 32] = [
    0, 1, 2, 3, 4, 5, 6, 7, 8, 9, 10, 11, 12, 13, 14, 15, 0, 1, 2, 3, 4, 5, 6, 7, 8, 9, 10, 11, 12,
    13, 14, 15,
];

// What the table says of the lower half of each byte.
#[inline(always)]
fn by_low(table: [u8; 16], bytes: u8x32) -> u8x32
    ensures { result ≡ map (λ x. slice_index table (bit_and x 15)) bytes }
{
    let table = u8x16::from_array(table).swizzle::<32>(TWICE);
    table.swizzle_dyn_within::<16>(bytes & u8x32::splat(15))
}

// What the table says of the upper half of each byte.
#[inline(always)]
fn by_high(table: [u8; 16], bytes: u8x32) -> u8x32
    ensures { result ≡ map (λ x. slice_index table (x / 16)) bytes }
{
    let table = u8x16::from_array(table).swizzle::<32>(TWICE);
    table.swizzle_dyn_within::<16>(bytes >> u8x32::splat(4))
}

// At which bits of each first byte the word may begin, given the two bytes after it.
#[inline(always)]
fn places(first: u8x32, second: u8x32, third: u8x32) -> u8x32
    ensures len { length result ≡ 32 }
    ensures set { (k r : ℕ) → k < 32 → r < 8
        → ((slice_index third k * 256 + slice_index second k) * 256 + slice_index first k) / 2 ^ r % 2 ^ 12 ≡ sync_word 1
        → 0 < slice_index result k }
{
    by_low(FIRST_LOW, first)
        & by_high(FIRST_HIGH, first)
        & by_low(SECOND_LOW, second)
        & by_high(SECOND_HIGH, second)
        & by_low(THIRD_LOW, third)
}

/// Of the 32 bytes from byte `at` on, each in which the sync word begins. Byte `at + k` has bit k.
#[inline(always)]
pub(crate) fn candidates(bytes: &[u8], at: usize) -> u64
    requires { at + 34 ≤ length bytes.now }
    ensures within_lanes { result < 2 ^ 32 }
    ensures each { (q : ℕ) → 8 * at ≤ q → q < 8 * (at + 32) → IsSyncPosition bytes.now q → bit_at result (q / 8 - at) ≡ 1 }
{
    let first = u8x32::from_slice(&bytes[at..]);
    let second = u8x32::from_slice(&bytes[at + 1..]);
    let third = u8x32::from_slice(&bytes[at + 2..]);
    places(first, second, third)
        .simd_ne(u8x32::splat(0))
        .to_bitmask()
}
