ghost use Rattle.std.specs.Prelude.{◌≡◌, ◌<◌, ◌^◌, ◌*ℤ◌, ◌≤ℤ◌, pos, neg_ℤ};
ghost use Rattle.std.specs.Int.{int_div_euclid};
ghost use Rattle.fdr_table.specs.Bounds.{most_scale};
ghost use Rattle.fdr_table.specs.Value.{signed_of, value_of};

use crate::name::Name;
use std::marker::Model;

/// A parameter: the field of an ARINC 429 bus word that it is read from, its scale and its rate.
#[derive(Debug, Drop)]
pub struct Param {
    pub name: Name,
    /// The bus, 0 to 255.
    pub bus: u8,
    /// The label, octal 0 to 377.
    pub label: u8,
    /// The source/destination identifier, 0 to 3, where one is asked for.
    pub sdi: Option<u8>,
    /// The lowest bit of the field in the bus word, 1 to 32.
    pub lsb: u8,
    /// Bits of the field, 1 to 32, none above bit 32.
    pub width: u8,
    /// Whether the field is two's complement: exactly with the sign `S`.
    pub signed: bool,
    /// The scale: a raw number counts `num / den`, and `offset` is added. `num` is at most
    /// 1,000,000,000 in size.
    pub num: i64,
    /// 1 to 1,000,000,000.
    pub den: i64,
    /// At most 1,000,000,000,000,000 in size.
    pub offset: i64,
    /// Digits of a value after the point, 0 to 9.
    pub decimals: u8,
    /// Samples in a superframe, 1 to 262,144.
    pub rate: u32,
    /// For how many microseconds a bus word counts as fresh, 1 to 64,000,000; none where it does for
    /// good.
    pub age: Option<u64>,
    /// Whether the parameter tells that its word is fresh, by one bit: exactly with the sign `V`.
    pub tells: bool,
    /// The parameter's row in the table, counted from 0.
    pub row: u32,
}

impl Model for Param {
    ghost use Rattle.fdr_table.specs.Rows.{ParamRow};

    ghost Value = { ParamRow };

    ghost use Rattle.fdr_table.specs.Views.{param_view};
    ghost use Rattle.fdr_table.specs.Ranges.{IsParamInRange};

    ghost view = { param_view };

    ghost invariant = { λ p. IsParamInRange (param_view p) };
}

impl Param {
    /// A copy of the parameter.
    pub fn copied(&self) -> Param
        ensures { result ≡ self.now }
    {
        Param {
            name: self.name.copied(),
            bus: self.bus,
            label: self.label,
            sdi: self.sdi,
            lsb: self.lsb,
            width: self.width,
            signed: self.signed,
            num: self.num,
            den: self.den,
            offset: self.offset,
            decimals: self.decimals,
            rate: self.rate,
            age: self.age,
            tells: self.tells,
            row: self.row,
        }
    }

    /// The value of a raw number of the field, in units of the last digit after the point.
    ///
    /// It is the raw number times `num / den`, rounded down, and `offset` more.
    #[tactic(auto, unfolding(crate::specs::Value::value_of))]
    pub fn value(&self, raw: u32) -> i64
        requires { raw < 2 ^ self.now.width }
        ensures { result ≡ value_of self.now raw }
    {
        self.offset + scaled(self.signed_raw(raw), self.num, self.den)
    }

    /// The raw number, which is below 0 where the field is signed and its highest bit is set.
    fn signed_raw(&self, raw: u32) -> i64
        requires { raw < 2 ^ self.now.width }
        ensures exactly { result ≡ signed_of self.now raw }
        ensures low { neg_ℤ (pos 4294967296) ≤ℤ result }
        ensures high { result ≤ℤ pos 4294967296 }
    {
        let raw = i64::from(raw);
        if self.signed && 1 << (self.width - 1) <= raw {
            raw - (1 << self.width)
        } else {
            raw
        }
    }
}

/// `raw * num / den`, rounded down.
fn scaled(raw: i64, num: i64, den: i64) -> i64
    requires raw_low { neg_ℤ (pos 4294967296) ≤ℤ raw }
    requires raw_high { raw ≤ℤ pos 4294967296 }
    requires num_low { neg_ℤ (pos most_scale) ≤ℤ num }
    requires num_high { num ≤ℤ pos most_scale }
    requires den_low { pos 1 ≤ℤ den }
    ensures exactly { result ≡ int_div_euclid (raw *ℤ num) den }
    ensures low { neg_ℤ (pos 4294967296000000000) ≤ℤ result }
    ensures high { result ≤ℤ pos 4294967296000000000 }
{
    let product = raw * num;
    // Most scales have no divisor, and a division costs more than the rest of a value.
    if den == 1 {
        return product;
    }
    quotient(product, den)
}

/// `product / den`, rounded down.
fn quotient(product: i64, den: i64) -> i64
    requires { pos 1 ≤ℤ den }
    ensures { result ≡ int_div_euclid product den }
{
    product.div_euclid(den)
}
