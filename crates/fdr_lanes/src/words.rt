//! Words of 12 bits that follow one another.

ghost use Rattle.std.specs.Prelude.{◌≡◌, ℕ, ◌+◌, ◌*◌, ◌/◌, ◌%◌, ◌^◌, ◌≤◌, ◌<◌, length, map, slice_index, All};
ghost use Rattle.std.specs.List.{range_with_len};
ghost use Rattle.fdr_bits.specs.Bits.{bits_in, word_at};

use fdr_bits::word12;
use std::simd::prelude::*;

// Two words fill three bytes. The four bytes from a pair's first on, for four pairs.
const PAIRS: [usize; 16] = [0, 1, 2, 3, 3, 4, 5, 6, 6, 7, 8, 9, 9, 10, 11, 12];

/// The 12-bit words one after another from bit `from` on.
pub fn unpack(bytes: &[u8], from: u64, out: &mut [u16])
    requires short { length bytes.now ≤ 2 ^ 60 }
    requires within { from + 12 * length out.old ≤ bits_in bytes.now }
    ensures words { out.new ≡ map (λ i. word_at bytes.now (from + 12 * i)) (range_with_len 0 (length out.old)) }
    ensures twelve_bits { All (λ word. word < 4096) out.new }
{
    let read = unpack_blocks(bytes, from, out);
    for i in read..out.len() {
        out[i] = word12(bytes, from + 12 * i as u64);
    }
}

// The first of these words, as many as whole blocks give: eight at a time, from blocks of 16 bytes that lie within the
// bytes.
fn unpack_blocks(bytes: &[u8], from: u64, out: &mut [u16]) -> usize
    requires short { length bytes.now ≤ 2 ^ 60 }
    requires within { from + 12 * length out.old ≤ bits_in bytes.now }
    ensures within { result ≤ length out.old }
    ensures words { (k : ℕ) → k < result → slice_index out.new k ≡ word_at bytes.now (from + 12 * k) }
{
    let phase = (from % 8) as u32;
    let first = (from / 8) as usize;
    // The words of a block take twelve of its bytes.
    let whole = bytes.len().saturating_sub(first + 4) / 12;
    let blocks = whole.min(out.len() / 8);
    for i in 0..blocks {
        let block = u8x16::from_slice(&bytes[first + 12 * i..]);
        eight_words(block, phase).copy_to_slice(&mut out[8 * i..]);
    }
    8 * blocks
}

// Eight words from bit `phase` of the block on.
#[inline(always)]
fn eight_words(block: u8x16, phase: u32) -> u16x8
    requires { phase < 8 }
    ensures len { length result ≡ 8 }
    ensures words { (k : ℕ) → k < 8 → slice_index result k ≡ word_at block (phase + 12 * k) }
{
    let from_phase = pairs(block) >> u32x4::splat(phase);
    let twelve_bits = u32x4::splat(0xfff);
    alternate(
        from_phase & twelve_bits,
        (from_phase >> u32x4::splat(12)) & twelve_bits,
    )
}

// Four numbers of 32 bits, each from three bytes after the one before.
#[inline(always)]
fn pairs(block: u8x16) -> u32x4
    ensures len { length result ≡ 4 }
    ensures words { (m s : ℕ) → m < 4 → s + 12 ≤ 32 → slice_index result m / 2 ^ s % 2 ^ 12 ≡ word_at block (24 * m + s) }
{
    u32x4::from_le_bytes(block.swizzle::<16>(PAIRS))
}

// The first of these, the first of those, the second of these, and so on.
#[inline(always)]
fn alternate(these: u32x4, those: u32x4) -> u16x8
    requires these_fit { All (λ x. x < 2 ^ 16) these }
    requires those_fit { All (λ x. x < 2 ^ 16) those }
    ensures len { length result ≡ 8 }
    ensures these { (m : ℕ) → m < 4 → slice_index result (2 * m) ≡ slice_index these m }
    ensures those { (m : ℕ) → m < 4 → slice_index result (2 * m + 1) ≡ slice_index those m }
{
    u16x8::from_le_bytes((these | (those << u32x4::splat(16))).to_le_bytes())
}
