//! The encoder.

ghost use Rattle.std.specs.Prelude.{◌≡◌, ◌≤◌, ◌*◌, ◌++◌, ◌∷◌, [], ℕ, Bool, List, length, take};
ghost use Rattle.fdr_biphase.specs.Cells.{bits_of_bytes, cells_of, level_after};
ghost use Rattle.fdr_biphase.specs.Packed.{encoded_bytes, turn_of};
ghost use Rattle.fdr_biphase.specs.Past.{RepresentsEncoder};

// The cells of the bits of each byte after a low level, packed. After a high level each of their levels is turned.
const CELLS: [u16; 256] = [
    0x3333, 0xcccd, 0xcccb, 0x3335, 0xccd3, 0x332d, 0x332b, 0xccd5, 0xccb3, 0x334d, 0x334b, 0xccb5,
    0x3353, 0xccad, 0xccab, 0x3355, 0xcd33, 0x32cd, 0x32cb, 0xcd35, 0x32d3, 0xcd2d, 0xcd2b, 0x32d5,
    0x32b3, 0xcd4d, 0xcd4b, 0x32b5, 0xcd53, 0x32ad, 0x32ab, 0xcd55, 0xcb33, 0x34cd, 0x34cb, 0xcb35,
    0x34d3, 0xcb2d, 0xcb2b, 0x34d5, 0x34b3, 0xcb4d, 0xcb4b, 0x34b5, 0xcb53, 0x34ad, 0x34ab, 0xcb55,
    0x3533, 0xcacd, 0xcacb, 0x3535, 0xcad3, 0x352d, 0x352b, 0xcad5, 0xcab3, 0x354d, 0x354b, 0xcab5,
    0x3553, 0xcaad, 0xcaab, 0x3555, 0xd333, 0x2ccd, 0x2ccb, 0xd335, 0x2cd3, 0xd32d, 0xd32b, 0x2cd5,
    0x2cb3, 0xd34d, 0xd34b, 0x2cb5, 0xd353, 0x2cad, 0x2cab, 0xd355, 0x2d33, 0xd2cd, 0xd2cb, 0x2d35,
    0xd2d3, 0x2d2d, 0x2d2b, 0xd2d5, 0xd2b3, 0x2d4d, 0x2d4b, 0xd2b5, 0x2d53, 0xd2ad, 0xd2ab, 0x2d55,
    0x2b33, 0xd4cd, 0xd4cb, 0x2b35, 0xd4d3, 0x2b2d, 0x2b2b, 0xd4d5, 0xd4b3, 0x2b4d, 0x2b4b, 0xd4b5,
    0x2b53, 0xd4ad, 0xd4ab, 0x2b55, 0xd533, 0x2acd, 0x2acb, 0xd535, 0x2ad3, 0xd52d, 0xd52b, 0x2ad5,
    0x2ab3, 0xd54d, 0xd54b, 0x2ab5, 0xd553, 0x2aad, 0x2aab, 0xd555, 0xb333, 0x4ccd, 0x4ccb, 0xb335,
    0x4cd3, 0xb32d, 0xb32b, 0x4cd5, 0x4cb3, 0xb34d, 0xb34b, 0x4cb5, 0xb353, 0x4cad, 0x4cab, 0xb355,
    0x4d33, 0xb2cd, 0xb2cb, 0x4d35, 0xb2d3, 0x4d2d, 0x4d2b, 0xb2d5, 0xb2b3, 0x4d4d, 0x4d4b, 0xb2b5,
    0x4d53, 0xb2ad, 0xb2ab, 0x4d55, 0x4b33, 0xb4cd, 0xb4cb, 0x4b35, 0xb4d3, 0x4b2d, 0x4b2b, 0xb4d5,
    0xb4b3, 0x4b4d, 0x4b4b, 0xb4b5, 0x4b53, 0xb4ad, 0xb4ab, 0x4b55, 0xb533, 0x4acd, 0x4acb, 0xb535,
    0x4ad3, 0xb52d, 0xb52b, 0x4ad5, 0x4ab3, 0xb54d, 0xb54b, 0x4ab5, 0xb553, 0x4aad, 0x4aab, 0xb555,
    0x5333, 0xaccd, 0xaccb, 0x5335, 0xacd3, 0x532d, 0x532b, 0xacd5, 0xacb3, 0x534d, 0x534b, 0xacb5,
    0x5353, 0xacad, 0xacab, 0x5355, 0xad33, 0x52cd, 0x52cb, 0xad35, 0x52d3, 0xad2d, 0xad2b, 0x52d5,
    0x52b3, 0xad4d, 0xad4b, 0x52b5, 0xad53, 0x52ad, 0x52ab, 0xad55, 0xab33, 0x54cd, 0x54cb, 0xab35,
    0x54d3, 0xab2d, 0xab2b, 0x54d5, 0x54b3, 0xab4d, 0xab4b, 0x54b5, 0xab53, 0x54ad, 0x54ab, 0xab55,
    0x5533, 0xaacd, 0xaacb, 0x5535, 0xaad3, 0x552d, 0x552b, 0xaad5, 0xaab3, 0x554d, 0x554b, 0xaab5,
    0x5553, 0xaaad, 0xaaab, 0x5555,
];

/// Makes the cells of bytes.
#[derive(Drop)]
pub struct Encoder {
    // The level that the last cell ended with.
    level: bool,
}

impl Encoder {
    /// An encoder for cells that come after this level.
    pub fn new(level: bool) -> Encoder
        ensures { RepresentsEncoder result level [] }
    {
        Encoder { level }
    }

    /// The cells of the next byte: its bits and their levels both begin at the least significant bit.
    pub fn byte(&mut self, b: u8) -> [u8; 2]
        ensures cells { bits_of_bytes result ≡ cells_of self.old.level (bits_of_bytes (b ∷ [])) }
        ensures next { (first : Bool) (bytes : List ℕ) → RepresentsEncoder self.old first bytes
            → cells_of first (bits_of_bytes (bytes ++ b ∷ [])) ≡ cells_of first (bits_of_bytes bytes) ++ bits_of_bytes result }
        ensures packed { (first : Bool) (bytes : List ℕ) → RepresentsEncoder self.old first bytes
            → encoded_bytes first (bytes ++ b ∷ []) ≡ encoded_bytes first bytes ++ result }
        ensures stands { (first : Bool) (bytes : List ℕ) → RepresentsEncoder self.old first bytes
            → RepresentsEncoder self.new first (bytes ++ b ∷ []) }
    {
        let low = CELLS[usize::from(b)];
        let cells = if self.level { !low } else { low };
        self.level = cells >> 15 == 1;
        cells.to_le_bytes()
    }

    /// Puts the cells of the next bytes at the front of `room`: two bytes for each.
    #[inline(never)]
    pub fn bytes(&mut self, bytes: &[u8], room: &mut [u8])
        requires { 2 * length bytes.now ≤ length room.old }
        ensures packed { (first : Bool) (before : List ℕ) → RepresentsEncoder self.old first before
            → encoded_bytes first (before ++ bytes.now) ≡ encoded_bytes first before ++ take (2 * length bytes.now) room.new }
        ensures stands { (first : Bool) (before : List ℕ) → RepresentsEncoder self.old first before
            → RepresentsEncoder self.new first (before ++ bytes.now) }
        ensures length { length room.new ≡ length room.old }
    {
        let mut turn = turn_after(self.level);
        for i in 0..bytes.len() {
            let next = turned(turn, bytes[i]);
            room[2 * i] = next.0[0];
            room[2 * i + 1] = next.0[1];
            turn = next.1;
        }
        self.level = turn != 0;
    }
}

/// What turns each level of a word after this level: only ones after a high level, and else only zeros.
#[inline(always)]
fn turn_after(level: bool) -> u16
    ensures { result ≡ turn_of level }
{
    if level { 0xffff } else { 0 }
}

/// The cells of a byte after the level of this turn, and the turn after them.
#[inline(always)]
fn turned(turn: u16, b: u8) -> ([u8; 2], u16)
    ensures packed { (first : Bool) (bytes : List ℕ) → turn ≡ turn_of (level_after first (bits_of_bytes bytes))
        → encoded_bytes first (bytes ++ b ∷ []) ≡ encoded_bytes first bytes ++ result.0 }
    ensures stands { (first : Bool) (bytes : List ℕ) → turn ≡ turn_of (level_after first (bits_of_bytes bytes))
        → result.1 ≡ turn_of (level_after first (bits_of_bytes (bytes ++ b ∷ []))) }
{
    let cells = CELLS[usize::from(b)] ^ turn;
    (cells.to_le_bytes(), turn_after(cells >> 15 == 1))
}
