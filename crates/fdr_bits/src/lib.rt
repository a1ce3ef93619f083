//! Bits and 12-bit words in a list of bytes, and fields of bits in a word.
//!
//! In a byte, and in a word, the least significant bit comes first, so two words fill three bytes.
#![tactic(auto)]

ghost use Rattle.std.specs.Prelude.{◌≡◌, ◌+◌, ◌-◌, ◌*◌, ◌/◌, ◌%◌, ◌^◌, ◌≤◌, ◌<◌, ◌↔◌, [], ◌∷◌, IsTrue};
ghost use Rattle.fdr_bits.specs.Bits.{bits_in, bit_at, word_at};
ghost use Rattle.fdr_bits.specs.Fields.{field_of, with_field};

/// Bit `p mod 8` of byte `p / 8`, where bit 0 of a byte is its least significant.
#[tactic(auto, using(std::proofs::lemmas::Nat::Bits::shr_and_one), unfolding(crate::specs::Bits::bit_at))]
pub fn bit(bytes: &[u8], p: u64) -> bool
    requires { p < bits_in bytes.now }
    ensures { IsTrue result ↔ (bit_at bytes.now p ≡ 1) }
{
    (bytes[(p / 8) as usize] >> (p % 8)) & 1 == 1
}

/// The word of 12 bits that begins at bit `p`, its least significant bit first.
#[tactic(auto, using(crate::proofs::WordLemmas::word_at_by_bytes))]
pub fn word12(bytes: &[u8], p: u64) -> u16
    requires { p + 12 ≤ bits_in bytes.now }
    ensures value { result ≡ word_at bytes.now p }
    ensures twelve_bits { result < 4096 }
{
    let first = (p / 8) as usize;
    // Of the 12 bits some are in a third byte only where the word begins late in the first.
    let third = bytes.get(first + 2).copied().unwrap_or(0);
    let window = u32::from_le_bytes([bytes[first], bytes[first + 1], third, 0]);
    ((window >> (p % 8)) & 0xfff) as u16
}

/// The number in the `width` bits of a 12-bit word from bit `lsb` on, where bit 1 is the least significant.
pub fn get_bits(word: u16, lsb: u8, width: u8) -> u16
    requires twelve_bits { word < 4096 }
    requires from_first { 1 ≤ lsb }
    requires some_bits { 1 ≤ width }
    requires within { lsb + width ≤ 13 }
    ensures value { result ≡ field_of word (lsb - 1) width }
    ensures fits { result < 2 ^ width }
{
    (word >> (lsb - 1)) & ((1 << width) - 1)
}

/// The 12-bit word with `v` in its `width` bits from bit `lsb` on, and all its other bits kept. Bit 1 is the least
/// significant.
pub fn put_bits(word: u16, lsb: u8, width: u8, v: u16) -> u16
    requires twelve_bits { word < 4096 }
    requires from_first { 1 ≤ lsb }
    requires some_bits { 1 ≤ width }
    requires within { lsb + width ≤ 13 }
    requires fits { v < 2 ^ width }
    ensures value { result ≡ with_field word (lsb - 1) width v }
    ensures still_twelve_bits { result < 4096 }
    ensures written { field_of result (lsb - 1) width ≡ v }
    ensures kept_below { result % 2 ^ (lsb - 1) ≡ word % 2 ^ (lsb - 1) }
    ensures kept_above { result / 2 ^ (lsb - 1 + width) ≡ word / 2 ^ (lsb - 1 + width) }
{
    let shift = lsb - 1;
    let mask = (1 << (shift + width)) - (1 << shift);
    (word & !mask) | (v << shift)
}

/// The three bytes of two 12-bit words, each with its least significant bit first.
pub fn pack_pair(a: u16, b: u16) -> [u8; 3]
    requires first_fits { a < 4096 }
    requires second_fits { b < 4096 }
    ensures value { result ≡ (a % 256) ∷ (a / 256 + 16 * (b % 16)) ∷ (b / 16) ∷ [] }
    ensures first { word_at result 0 ≡ a }
    ensures second { word_at result 12 ≡ b }
{
    [
        (a & 0xff) as u8,
        ((a >> 8) | ((b & 0xf) << 4)) as u8,
        (b >> 4) as u8,
    ]
}
