//! Levels in bytes, read as bits in bytes.

ghost use Rattle.std.specs.Prelude.{◌≡◌, ◌≢◌, ◌+◌, ◌*◌, ◌^◌, ◌≤◌, ◌++◌, ◌∷◌, [], ℕ, Bool, List, Some, None, length, take, drop, IfOk, IfErr, IsSome, true, false, ◌-◌, ◌<◌};
ghost use Rattle.fdr_biphase.specs.Cells.{bits_of_bytes};
ghost use Rattle.fdr_biphase.specs.Packed.{answered_byte, bytes_of_bits, decoded_bytes};
ghost use Rattle.fdr_biphase.specs.Phases.{cell_bits};
ghost use Rattle.fdr_biphase.specs.Reading.{MissesLevel, ReadsLevels, RepresentsPacker};

use crate::Missing;
use crate::decoder::Decoder;
use crate::packer::BitPacker;
use crate::words::word_of;

/// Reads bits from the levels that bytes pack, and packs them. Both begin at the least significant bit of a byte.
#[derive(Drop)]
pub struct LevelReader {
    decoder: Decoder,
    packer: BitPacker,
}

/// What the levels of a byte give.
#[derive(Clone, Copy)]
pub struct Given {
    /// The byte that their bits complete, if they complete one.
    pub byte: Option<u8>,
    /// The place that is missing, if they complete one. No bit was read from it on.
    pub missing: Option<Missing>,
}

/// What the levels of bytes give.
#[derive(Clone, Copy)]
pub struct Filled {
    /// How many bytes their bits complete.
    pub count: usize,
    /// The place that is missing, if they complete one. No bit was read from it on.
    pub missing: Option<Missing>,
}

impl LevelReader {
    /// A reader to which no levels came.
    pub fn new() -> LevelReader
        ensures { ReadsLevels result (bits_of_bytes []) [] }
    {
        LevelReader {
            decoder: Decoder::new(),
            packer: BitPacker::new(),
        }
    }

    /// Takes the levels of the next bytes, and puts the bytes that their bits complete at the front of `room`. Where they
    /// complete a missing place, the bits before it were taken, and no further levels may come.
    pub fn bytes(&mut self, levels: &[u8], room: &mut [u8]) -> Filled
        requires reads { (came bytes : List ℕ) × ReadsLevels self.old (bits_of_bytes came) bytes × (8 * (length came + length levels.now) ≤ 2 ^ 63) }
        requires room { length levels.now ≤ length room.old }
        ensures stands { (came bytes : List ℕ) → ReadsLevels self.old (bits_of_bytes came) bytes → result.missing ≡ None
            → ReadsLevels self.new (bits_of_bytes (came ++ levels.now)) (bytes ++ take result.count room.new) }
        ensures missing { (came bytes : List ℕ) (m : Missing) → ReadsLevels self.old (bits_of_bytes came) bytes → result.missing ≡ Some m
            → MissesLevel self.new (bits_of_bytes (came ++ levels.now)) (bytes ++ take result.count room.new) m.at }
        ensures count { result.count ≤ length levels.now }
        ensures length { length room.new ≡ length room.old }
    {
        let mut at = 0;
        let mut count = 0;
        while at < levels.len() {
            if self.word(levels, at, room, count) {
                at += 8;
                count += 4;
                continue;
            }
            let filled = self.single(levels[at], room, count);
            at += 1;
            count = filled.count;
            if filled.missing.is_some() {
                return filled;
            }
        }
        Filled {
            count,
            missing: None,
        }
    }

    /// Takes the levels of the eight bytes from byte `at` on, and puts the four bytes that their bits complete at place `count`.
    /// Where the bytes are fewer, or the levels are to be taken one by one, it takes none and answers false.
    #[inline(always)]
    fn word(&mut self, levels: &[u8], at: usize, room: &mut [u8], count: usize) -> bool
        requires reads { (came bytes : List ℕ) × ReadsLevels self.old (bits_of_bytes came) bytes
            × (8 * (length came + (length levels.now - at)) ≤ 2 ^ 63) }
        requires within { at ≤ length levels.now }
        requires room { length levels.now ≤ length room.old }
        requires few { count ≤ at }
        ensures stands { (came bytes : List ℕ) → ReadsLevels self.old (bits_of_bytes came) (bytes ++ take count room.old) → result ≡ true
            → ReadsLevels self.new (bits_of_bytes (came ++ take 8 (drop at levels.now))) (bytes ++ take (count + 4) room.new) }
        ensures within { result ≡ true → at + 8 ≤ length levels.now }
        ensures left { result ≡ false → self.new ≡ self.old }
        ensures kept { result ≡ false → room.new ≡ room.old }
        ensures length { length room.new ≡ length room.old }
    {
        let Some((eight, _)) = levels[at..].split_first_chunk::<8>() else {
            return false;
        };
        let Some(bits) = self.decoder.word(word_of(eight)) else {
            return false;
        };
        let four = self.packer.word(bits);
        put_four(&mut room[count..], four);
        true
    }

    /// Takes the levels of a byte, and puts the byte that their bits complete, if they complete one, at place `count`.
    fn single(&mut self, levels: u8, room: &mut [u8], count: usize) -> Filled
        requires reads { (came bytes : List ℕ) × ReadsLevels self.old (bits_of_bytes came) bytes × (8 * length came + 8 ≤ 2 ^ 63) }
        requires room { count < length room.old }
        ensures stands { (came bytes : List ℕ) → ReadsLevels self.old (bits_of_bytes came) (bytes ++ take count room.old) → result.missing ≡ None
            → ReadsLevels self.new (bits_of_bytes (came ++ levels ∷ [])) (bytes ++ take result.count room.new) }
        ensures missing { (came bytes : List ℕ) (m : Missing) → ReadsLevels self.old (bits_of_bytes came) (bytes ++ take count room.old)
            → result.missing ≡ Some m
            → MissesLevel self.new (bits_of_bytes (came ++ levels ∷ [])) (bytes ++ take result.count room.new) m.at }
        ensures count { result.count ≤ count + 1 }
        ensures length { length room.new ≡ length room.old }
    {
        let given = self.byte(levels);
        let count = put_byte(room, count, given.byte);
        Filled {
            count,
            missing: given.missing,
        }
    }

    /// Takes the levels of the next byte. Where they complete a missing place, no further levels may come.
    pub fn byte(&mut self, levels: u8) -> Given
        requires { (came bytes : List ℕ) × ReadsLevels self.old (bits_of_bytes came) bytes × (8 * length came + 8 ≤ 2 ^ 63) }
        ensures stands { (came bytes : List ℕ) → ReadsLevels self.old (bits_of_bytes came) bytes → result.missing ≡ None
            → ReadsLevels self.new (bits_of_bytes (came ++ levels ∷ [])) (bytes ++ answered_byte result.byte) }
        ensures missing { (came bytes : List ℕ) (m : Missing) → ReadsLevels self.old (bits_of_bytes came) bytes → result.missing ≡ Some m
            → MissesLevel self.new (bits_of_bytes (came ++ levels ∷ [])) (bytes ++ answered_byte result.byte) m.at }
    {
        let mut byte = None;
        for i in 0..8u32 {
            let level = (levels >> i) & 1 == 1;
            match self.push(level) {
                Ok(complete) => byte = byte.or(complete),
                Err(missing) => {
                    return Given {
                        byte,
                        missing: Some(missing),
                    };
                }
            }
        }
        Given {
            byte,
            missing: None,
        }
    }

    /// Takes the next level, and answers the byte that is complete with it, if one is.
    fn push(&mut self, level: bool) -> Result<Option<u8>, Missing>
        requires { (levels : List Bool) × (bytes : List ℕ) × ReadsLevels self.old levels bytes × (length levels + 1 ≤ 2 ^ 63) }
        ensures stands { (levels : List Bool) (bytes : List ℕ) → ReadsLevels self.old levels bytes
            → IfOk result (λ answer. ReadsLevels self.new (levels ++ level ∷ []) (bytes ++ answered_byte answer)) }
        ensures missing { (levels : List Bool) (bytes : List ℕ) → ReadsLevels self.old levels bytes
            → IfErr result (λ m. MissesLevel self.new (levels ++ level ∷ []) bytes m.at) }
        ensures completes { IfOk result (λ answer. IsSome answer → self.old.packer.count ≡ 7) }
        ensures count { IfOk result (λ answer. self.new.packer.count ≤ self.old.packer.count + 1) }
        ensures emptied { IfOk result (λ answer. IsSome answer → self.new.packer.count ≡ 0) }
    {
        match self.decoder.push(level)? {
            Some(bit) => Ok(self.packer.push(bit)),
            None => Ok(None),
        }
    }

    /// Ends the levels, and answers the byte that the last bits fill together with zero bits, if there are any that fill no
    /// byte. After a missing place, these are the bits before it.
    pub fn finish(&mut self) -> Option<u8>
        requires { (bits : List Bool) × (bytes : List ℕ) × RepresentsPacker self.old.packer bits bytes }
        ensures all { (came bytes : List ℕ) → ReadsLevels self.old (bits_of_bytes came) bytes
            → decoded_bytes came ≡ bytes ++ answered_byte result }
        ensures missing { (levels : List Bool) (bytes : List ℕ) (at : ℕ) → MissesLevel self.old levels bytes at
            → (more : List Bool) → bytes_of_bits (cell_bits (levels ++ more)) ≡ bytes ++ answered_byte result }
    {
        if self.decoder.has_ended() {
            return self.packer.finish();
        }
        match self.decoder.finish() {
            None => self.packer.finish(),
            Some(bit) => self.packer.push(bit).or(self.packer.finish()),
        }
    }
}

/// Puts the byte that an answer gives at this place, if it gives one, and answers where it ends there.
fn put_byte(room: &mut [u8], at: usize, byte: Option<u8>) -> usize
    requires { at < length room.old }
    ensures put { take result room.new ≡ take at room.old ++ answered_byte byte }
    ensures end { result ≤ at + 1 }
    ensures length { length room.new ≡ length room.old }
{
    match byte {
        Some(byte) => {
            room[at] = byte;
            at + 1
        }
        None => at,
    }
}

/// Puts four bytes at the front of a room for them.
#[inline(always)]
fn put_four(room: &mut [u8], four: [u8; 4])
    requires { 4 ≤ length room.old }
    ensures { room.new ≡ four ++ drop 4 room.old }
{
    if let Some(front) = room.first_chunk_mut::<4>() {
        *front = four;
    }
}
