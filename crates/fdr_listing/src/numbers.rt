//! Texts of numbers that are ready.

ghost use Rattle.std.specs.Prelude.{◌≡◌, ◌+◌, ◌≤◌, ◌*◌, ◌<◌, ◌^◌, ◌++◌, IfOk, IfSome, codes, length, map, decimal};
ghost use Rattle.std.specs.List.{range_with_len};
ghost use Rattle.fdr_divisor.specs.Reach.{IsInReach};
ghost use Rattle.fdr_listing.specs.Text.{size_text};
ghost use Rattle.fdr_listing.specs.Numbers.{ready_fractions, fraction_end};

use crate::ready::ShortText;
use fdr_divisor::Divisor;
use fdr_table::NoMemory;
use std::alloc::Global;
use std::marker::Model;

/// How many whole numbers have their text ready.
const WHOLE: u32 = 4096;

/// The most digits of a fraction whose text is ready.
const MAX_DIGITS: u8 = 3;

/// What ends a line after the whole part of a value, for each fraction of `digits` digits.
#[derive(Drop)]
struct Fractions {
    // Ten to the power of the number of digits.
    unit: Divisor,
    ends: Vec<ShortText>,
}

impl Model for Fractions {
    ghost use Rattle.fdr_listing.specs.Numbers.{ReadyFractions};

    ghost Value = { ReadyFractions };

    ghost view = { λ f. record { unit = f.unit; ends = f.ends.items } };
}

/// The texts of small numbers and of fractions of at most three digits, each made once.
#[derive(Drop)]
pub struct NumberTexts {
    whole: Vec<ShortText>,
    // By the number of digits.
    fractions: Vec<Fractions>,
}

// A clause sees nothing of it: what it puts doesn't depend on it.
impl Model for NumberTexts {
    ghost use Rattle.fdr_listing.specs.Numbers.{AreNumberTexts};

    ghost Value = { Unit {0} };

    ghost view = { λ _. tt };

    ghost invariant = { λ t. AreNumberTexts t.whole.items t.fractions.items };
}

impl NumberTexts {
    /// Makes the texts. Fails only where memory ends.
    pub fn new(alloc: Global) -> Result<NumberTexts, NoMemory> {
        Ok(NumberTexts {
            whole: whole_texts(alloc)?,
            fractions: all_fractions(alloc)?,
        })
    }

    /// The texts that make the size of a value in units of `10^-decimals`, the second with the line's end, where they are
    /// ready.
    #[inline(always)]
    pub(crate) fn size_texts(&self, size: u64, decimals: u8) -> Option<(&ShortText, &ShortText)>
        ensures { IfSome result (λ texts. texts.0.now ++ texts.1.now ≡ size_text size decimals ++ codes "\n") }
    {
        let fractions = self.fractions_for(size, decimals)?;
        let (whole, fraction) = fractions.unit.split(size);
        Some((
            &self.whole[whole as usize],
            &fractions.ends[fraction as usize],
        ))
    }

    /// The fractions of this number of digits, where they and the whole part of the size have ready texts.
    fn fractions_for(&self, size: u64, decimals: u8) -> Option<&Fractions>
        ensures fractions { IfSome result (λ f. f.now ≡ ready_fractions decimals) }
        ensures within { IfSome result (λ f. size < 4096 * 10 ^ decimals) }
        ensures reach { IfSome result (λ f. IsInReach f.now.unit size) }
    {
        let fractions = self.fractions.get(usize::from(decimals))?;
        let limit = u64::from(WHOLE * fractions.unit.number());
        if size < limit { Some(fractions) } else { None }
    }
}

/// The texts of the numbers below `WHOLE`.
fn whole_texts(alloc: Global) -> Result<Vec<ShortText>, NoMemory>
    ensures { IfOk result (λ v. v.items ≡ map decimal (range_with_len 0 4096)) }
{
    let mut texts = Vec::new(alloc);
    for n in 0..WHOLE {
        if texts.push(ShortText::number(n)).is_err() {
            return Err(NoMemory);
        }
    }
    Ok(texts)
}

/// The fractions of each number of digits whose texts are ready.
fn all_fractions(alloc: Global) -> Result<Vec<Fractions>, NoMemory>
    ensures { IfOk result (λ v. v.items ≡ map ready_fractions (range_with_len 0 4)) }
{
    let mut all = Vec::new(alloc);
    for digits in 0..=MAX_DIGITS {
        let unit = 10_u32.pow(u32::from(digits));
        let ends = fraction_ends(alloc, digits, unit)?;
        let unit = Divisor::new(unit);
        if all.push(Fractions { unit, ends }).is_err() {
            return Err(NoMemory);
        }
    }
    Ok(all)
}

/// What ends a line after the whole part of a value, for each fraction of `digits` digits.
fn fraction_ends(alloc: Global, digits: u8, unit: u32) -> Result<Vec<ShortText>, NoMemory>
    requires digits { digits ≤ 3 }
    requires unit { unit ≡ 10 ^ digits }
    ensures { IfOk result (λ v. v.items ≡ map (fraction_end digits) (range_with_len 0 (10 ^ digits))) }
{
    let mut ends = Vec::new(alloc);
    for n in 0..unit {
        if ends.push(ShortText::fraction_end(n, digits)).is_err() {
            return Err(NoMemory);
        }
    }
    Ok(ends)
}
