//! Bits as bytes.

ghost use Rattle.std.specs.Prelude.{◌≡◌, ◌+◌, ◌≤◌, ◌++◌, ◌∷◌, [], ℕ, Bool, List, IsSome, None};
ghost use Rattle.fdr_biphase.specs.Packed.{answered_byte, bytes_of_bits};
ghost use Rattle.fdr_biphase.specs.Reading.{RepresentsPacker};
ghost use Rattle.fdr_biphase.specs.Words.{word_bits};

/// Packs bits into bytes. In each the first bit is the least significant.
#[derive(Drop)]
pub struct BitPacker {
    // The bits that fill no byte yet, and how many they are.
    byte: u8,
    count: u8,
}

impl BitPacker {
    /// A packer to which no bit came.
    pub fn new() -> BitPacker
        ensures stands { RepresentsPacker result [] [] }
        ensures empty { result.count ≡ 0 }
        ensures zero { result.byte ≡ 0 }
    {
        BitPacker { byte: 0, count: 0 }
    }

    /// Takes the next bit, and answers the byte that it completes, if it completes one.
    pub fn push(&mut self, bit: bool) -> Option<u8>
        requires { (bits : List Bool) × (bytes : List ℕ) × RepresentsPacker self.old bits bytes }
        ensures stands { (bits : List Bool) (bytes : List ℕ) → RepresentsPacker self.old bits bytes
            → RepresentsPacker self.new (bits ++ bit ∷ []) (bytes ++ answered_byte result) }
        ensures completes { IsSome result → self.old.count ≡ 7 }
        ensures count { self.new.count ≤ self.old.count + 1 }
        ensures emptied { IsSome result → self.new.count ≡ 0 }
    {
        let byte = self.byte + (u8::from(bit) << self.count);
        if self.count == 7 {
            *self = BitPacker::new();
            return Some(byte);
        }
        self.byte = byte;
        self.count += 1;
        None
    }

    /// Takes the next 32 bits, the first of them as the least significant, and answers the four bytes that they complete.
    #[inline(always)]
    pub fn word(&mut self, bits: u32) -> [u8; 4]
        requires { (before : List Bool) × (bytes : List ℕ) × RepresentsPacker self.old before bytes }
        ensures stands { (before : List Bool) (bytes : List ℕ) → RepresentsPacker self.old before bytes
            → RepresentsPacker self.new (before ++ word_bits 32 bits) (bytes ++ result) }
    {
        let joined = u64::from(self.byte) + (u64::from(bits) << self.count);
        self.byte = (joined >> 32) as u8;
        ((joined & 0xffff_ffff) as u32).to_le_bytes()
    }

    /// The byte that the last bits fill together with zero bits, if there are any that fill no byte.
    pub fn finish(&self) -> Option<u8>
        ensures all { (bits : List Bool) (bytes : List ℕ) → RepresentsPacker self.now bits bytes
            → bytes_of_bits bits ≡ bytes ++ answered_byte result }
        ensures none { self.now.count ≡ 0 → result ≡ None }
    {
        if self.count == 0 {
            return None;
        }
        Some(self.byte)
    }
}
