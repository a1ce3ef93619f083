//! The values of raw numbers.

ghost use Rattle.std.specs.Prelude.{◌≡◌, ◌+◌, ◌-◌, ◌*◌, ◌/◌, ◌%◌, ◌^◌, ◌<◌, ◌≤◌, ℕ, pos, neg_ℤ, ◌+ℤ◌, ◌≤ℤ◌, IfSome};
ghost use Rattle.fdr_divisor.specs.Reach.{IsInReach};
ghost use Rattle.fdr_table.specs.Rows.{ParamRow};
ghost use Rattle.fdr_table.specs.Value.{value_of};
ghost use Rattle.fdr_recon.specs.Kept.{IsSmallValue};
ghost use Rattle.fdr_recon.specs.Scales.{IsSmallScale, half_range};

use fdr_divisor::Divisor;
use fdr_table::Param;
use std::marker::Model;

/// What makes a parameter's values where they rise with the raw number and are small on the way: then a value costs two
/// multiplications, and neither a division nor a branch that depends on it.
#[derive(Debug, Drop)]
struct SmallScale {
    half: u32,
    mask: u32,
    num: u32,
    rise: u32,
    den: Divisor,
    offset: i64,
}

impl SmallScale {
    /// That of a parameter; none where its values fall with the raw number, or are larger.
    fn of(param: &Param) -> Option<SmallScale>
        ensures { IfSome result (IsSmallScale param.now) }
    {
        let num = rising(param)?;
        let den = divisor(param);
        let half = half_range(param);
        let mask = raw_mask(param);
        let below = u64::from(half) * u64::from(num);
        let steps = steps_over(below, u64::from(den));
        let rise = steps * u64::from(den) - below;
        let divisor = Divisor::new(den);
        if !divisor.reaches(u64::from(mask) * u64::from(num) + rise) {
            return None;
        }
        Some(SmallScale {
            half,
            mask,
            num,
            rise: rise as u32,
            den: divisor,
            offset: offset_below(param, steps),
        })
    }

    /// The value of a raw number.
    fn value(&self, raw: u32) -> i64
        requires { (p : ParamRow) × IsSmallScale p self.now × (raw < 2 ^ p.width) }
        ensures { (p : ParamRow) → IsSmallScale p self.now → raw < 2 ^ p.width → result ≡ value_of p raw }
    {
        self.offset + i64::from(self.quotient(raw))
    }

    /// How many steps of the divisor are in the raw number's product.
    fn quotient(&self, raw: u32) -> u32
        requires within { IsInReach self.now.den (self.now.mask * self.now.num + self.now.rise) }
        requires mask { (bits : ℕ) × (self.now.mask + 1 ≡ 2 ^ bits) }
        ensures { result ≡ ((raw + self.now.half) % (self.now.mask + 1) * self.now.num + self.now.rise) / self.now.den }
    {
        let turned = self.turned(raw);
        self.den
            .quotient(turned * u64::from(self.num) + u64::from(self.rise))
    }

    /// The raw number with half the range added, cut to its bits.
    fn turned(&self, raw: u32) -> u64
        requires mask { (bits : ℕ) × (self.now.mask + 1 ≡ 2 ^ bits) }
        ensures value { result ≡ (raw + self.now.half) % (self.now.mask + 1) }
        ensures within { result ≤ self.now.mask }
    {
        (u64::from(raw) + u64::from(self.half)) & u64::from(self.mask)
    }
}

/// What a parameter's raw numbers are multiplied by, where that isn't below 0.
fn rising(param: &Param) -> Option<u32>
    ensures value { IfSome result (λ num. param.now.num ≡ pos num) }
    ensures high { IfSome result (λ num. num < 2 ^ 30) }
{
    u32::try_from(param.num).ok()
}

/// What the product is divided by.
fn divisor(param: &Param) -> u32
    ensures value { param.now.den ≡ pos result }
    ensures some { 0 < result }
{
    param.den as u32
}

/// Half of how many raw numbers a parameter has, where half of them are for what is below 0; else 0.
fn half_range(param: &Param) -> u32
    ensures value { result ≡ half_range param.now }
    ensures high { result ≤ 2 ^ 31 }
{
    if param.signed {
        1 << (param.width - 1)
    } else {
        0
    }
}

/// The bits that a parameter's raw numbers may have.
fn raw_mask(param: &Param) -> u32
    ensures value { result + 1 ≡ 2 ^ param.now.width }
    ensures some_bits { 1 ≤ param.now.width }
{
    u32::MAX >> (32 - param.width)
}

/// How many steps of `den` reach a number.
fn steps_over(below: u64, den: u64) -> u64
    requires low { 0 < den }
    requires den_high { den < 2 ^ 32 }
    requires high { below < 2 ^ 62 }
    ensures reached { below ≤ result * den }
    ensures near { result * den < below + den }
    ensures high { result < 2 ^ 62 }
{
    (below + (den - 1)) / den
}

/// A parameter's offset, less `steps`.
fn offset_below(param: &Param, steps: u64) -> i64
    requires { steps < 2 ^ 62 }
    ensures value { result +ℤ pos steps ≡ param.now.offset }
    ensures low { neg_ℤ (pos (2 ^ 62 + 2 ^ 50)) ≤ℤ result }
    ensures high { result ≤ℤ pos (2 ^ 50) }
{
    param.offset - steps as i64
}

/// A parameter, with what makes its values fast.
#[derive(Drop)]
pub(crate) struct Scale {
    param: Param,
    small: Option<SmallScale>,
}

impl Model for Scale {
    ghost use Rattle.std.specs.Prelude.{IfSome};
    ghost use Rattle.fdr_table.specs.Ranges.{IsParamInRange};
    ghost use Rattle.fdr_table.specs.Rows.{ParamRow};
    ghost use Rattle.fdr_recon.specs.Scales.{IsSmallScale};

    ghost Value = { ParamRow };

    ghost view = { λ s. s.param };

    ghost invariant = { λ s. IfSome s.small (IsSmallScale s.param) × IsParamInRange s.param };
}

impl Scale {
    /// That of a parameter.
    pub(crate) fn of(param: Param) -> Scale
        ensures { result ≡ param }
    {
        let small = SmallScale::of(&param);
        Scale { param, small }
    }

    /// The value of a raw number of the parameter's field.
    pub(crate) fn value(&self, raw: u32) -> i64
        requires { raw < 2 ^ self.now.width }
        ensures value { result ≡ value_of self.now raw }
        ensures small { IsSmallValue result }
    {
        match &self.small {
            Some(scale) => scale.value(raw),
            None => self.divided(raw),
        }
    }

    /// The value as the table defines it, by a division. The call stays one: hardly a parameter needs it.
    #[inline(never)]
    fn divided(&self, raw: u32) -> i64
        requires { raw < 2 ^ self.now.width }
        ensures { result ≡ value_of self.now raw }
    {
        self.param.value(raw)
    }
}
