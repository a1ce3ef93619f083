//! The decoder.

ghost use Rattle.std.specs.Prelude.{◌≡◌, ◌+◌, ◌^◌, ◌≤◌, ◌<◌, ◌++◌, ◌∷◌, [], ℕ, Bool, List, Some, true, false, length, None, is_err, IfOk, IfErr, IfSome};
ghost use Rattle.fdr_biphase.specs.Phases.{missing_place, cell_bits};
ghost use Rattle.fdr_biphase.specs.Past.{DecoderPast, RepresentsDecoder, decoder_made, decoder_with, with_word, answered_bit, answered_place};

use crate::Missing;
use crate::words::{EVEN, even_bits, turns};

/// The phases that fit the levels so far.
#[derive(Clone, Copy)]
enum Fitting {
    Both,
    /// Only this one, 0 or 1.
    One(u64),
}

/// Reads bits from levels that come one by one.
#[derive(Drop)]
pub struct Decoder {
    // How many levels came, and the last of them.
    count: u64,
    last: bool,
    fitting: Fitting,
    // Whether no further level may come.
    ended: bool,
}

impl Decoder {
    /// A decoder to which no level came.
    pub fn new() -> Decoder
        ensures stands { RepresentsDecoder result decoder_made }
        ensures open { result.ended ≡ false }
        ensures count { result.count ≡ 0 }
    {
        Decoder {
            count: 0,
            last: false,
            fitting: Fitting::Both,
            ended: false,
        }
    }

    /// Takes the next level, and answers the next bit, if it is known. Fails exactly where the level completes a missing
    /// place: then all bits were answered, and no further level or end may come.
    pub fn push(&mut self, level: bool) -> Result<Option<bool>, Missing>
        requires open { self.old.ended ≡ false }
        requires limit { self.old.count < 2 ^ 63 }
        ensures stands { (past : DecoderPast) → RepresentsDecoder self.old past
            → IfOk result (λ answer. RepresentsDecoder self.new (decoder_with past level answer)) }
        ensures missing { (past : DecoderPast) → RepresentsDecoder self.old past
            → missing_place (past.levels ++ level ∷ []) ≡ answered_place result }

        // All bits of the levels so far were answered, except one at most.
        ensures answered { (past : DecoderPast) → RepresentsDecoder self.old past → IfOk result (λ answer. (waiting : List Bool)
            × (cell_bits (past.levels ++ level ∷ []) ≡ (past.bits ++ answered_bit answer) ++ waiting) × (length waiting ≤ 1)) }

        // However the levels go on, the place and the bits stay.
        ensures stays { (past : DecoderPast) (more : List Bool) → RepresentsDecoder self.old past
            → IfErr result (λ m. missing_place (past.levels ++ level ∷ more) ≡ Some m.at) }
        ensures all_answered { (past : DecoderPast) (more : List Bool) → RepresentsDecoder self.old past
            → IfErr result (λ m. cell_bits (past.levels ++ level ∷ more) ≡ past.bits) }
        ensures count { self.new.count ≡ self.old.count + 1 }
        ensures open { self.new.ended ≡ is_err result }
    {
        let at = self.count;
        let turns = level != self.last;
        self.count = at + 1;
        self.last = level;
        if at == 0 {
            return Ok(None);
        }
        match self.fitting {
            Fitting::Both if turns => Ok((at % 2 == 0).then_some(true)),
            Fitting::Both => {
                self.fitting = Fitting::One((at + 1) % 2);
                Ok(Some(false))
            }
            Fitting::One(phase) if at % 2 != phase => Ok(Some(turns)),
            Fitting::One(_) if turns => Ok(None),
            Fitting::One(_) => {
                self.ended = true;
                Err(Missing { at })
            }
        }
    }

    /// Takes 64 levels together, the first of them as the least significant bit, and answers their bits in the same order.
    /// Where both phases fit still, or a place among them is missing, it takes none of them and answers None.
    #[inline(always)]
    pub(crate) fn word(&mut self, levels: u64) -> Option<u32>
        requires limit { self.old.count + 64 ≤ 2 ^ 63 }
        ensures stands { (past : DecoderPast) → RepresentsDecoder self.old past
            → IfSome result (λ bits. RepresentsDecoder self.new (with_word past levels bits)) }
        ensures open { self.new.ended ≡ self.old.ended }
        ensures left { result ≡ None → self.new ≡ self.old }
    {
        let Fitting::One(phase) = self.fitting else {
            return None;
        };
        let turns = turns(levels, self.last);
        let (begins, middles) = if self.count % 2 == phase {
            (turns, turns >> 1)
        } else {
            (turns >> 1, turns)
        };
        if begins & EVEN != EVEN {
            return None;
        }
        self.count += 64;
        self.last = levels >> 63 == 1;
        Some(even_bits(middles))
    }

    /// Whether no further level may come.
    pub(crate) fn has_ended(&self) -> bool
        ensures { result ≡ self.now.ended }
    {
        self.ended
    }

    /// Ends the levels, and answers the bit that waits, if one does.
    pub fn finish(&mut self) -> Option<bool>
        requires open { self.old.ended ≡ false }
        ensures all_answered { (past : DecoderPast) → RepresentsDecoder self.old past
            → cell_bits past.levels ≡ past.bits ++ answered_bit result }
        ensures ended { self.new.ended ≡ true }
    {
        self.ended = true;
        match self.fitting {
            Fitting::Both if self.count > 0 && self.count % 2 == 0 => Some(true),
            _ => None,
        }
    }
}
