//! 64 levels in a word, the first of them as its least significant bit.

ghost use Rattle.std.specs.Prelude.{◌≡◌, ◌+◌, ◌*◌, ◌<◌, ◌≤◌, ◌==◌, ◌∷◌, ℕ, Bool, length, take, drop};
ghost use Rattle.std.specs.Int.{bit_at};
ghost use Rattle.fdr_biphase.specs.Cells.{bits_of_bytes};
ghost use Rattle.fdr_biphase.specs.Phases.{turns_at};
ghost use Rattle.fdr_biphase.specs.Words.{word_bits};

/// The even places of a word.
pub(crate) const EVEN: u64 = 0x5555_5555_5555_5555;

/// At which places of a word the level differs from the one before it, where `last` is the level before the word.
#[inline(always)]
pub(crate) fn turns(levels: u64, last: bool) -> u64
    ensures { (p : ℕ) → p < 64 → (bit_at result p == 1) ≡ turns_at (last ∷ word_bits 64 levels) (p + 1) }
{
    levels ^ ((levels << 1) | u64::from(last))
}

/// The bits at the even places of a word, put together.
#[inline(always)]
pub(crate) fn even_bits(word: u64) -> u32
    ensures { (i : ℕ) → i < 32 → bit_at result i ≡ bit_at word (2 * i) }
{
    let ones = word & EVEN;
    let twos = (ones | (ones >> 1)) & 0x3333_3333_3333_3333;
    let fours = (twos | (twos >> 2)) & 0x0f0f_0f0f_0f0f_0f0f;
    let eights = (fours | (fours >> 4)) & 0x00ff_00ff_00ff_00ff;
    let sixteens = (eights | (eights >> 8)) & 0x0000_ffff_0000_ffff;
    ((sixteens | (sixteens >> 16)) & 0xffff_ffff) as u32
}

/// The word of eight bytes.
#[inline(always)]
pub(crate) fn word_of(eight: &[u8; 8]) -> u64
    ensures { word_bits 64 result ≡ bits_of_bytes eight.now }
{
    u64::from_le_bytes(*eight)
}
