//! Division by a number that stays the same, by a multiplication and a shift.
//!
//! Processors take several times as long for a division as for a multiplication. With a factor just above `2^40 / d`, the
//! quotient by `d` is what a product has from bit 40 on, as long as what the factor is too large by can't be seen.
#![tactic(auto)]

ghost use Rattle.std.specs.Prelude.{◌≡◌, ◌/◌, ◌%◌, ◌<◌};
ghost use Rattle.fdr_divisor.specs.Reach.{is_in_reach, IsInReach};

use std::marker::Model;

/// A divisor with its factor.
#[derive(Debug, Drop)]
pub struct Divisor {
    by: u32,
    factor: u64,
}

impl Model for Divisor {
    ghost use Rattle.std.specs.Prelude.{◌≡◌, ◌+◌, ◌/◌, ◌^◌, ◌<◌, ℕ};

    ghost Value = { ℕ };

    ghost view = { λ d. d.by };

    ghost invariant = { λ d. (0 < d.by) × (d.factor ≡ 2 ^ 40 / d.by + 1) };
}

impl Divisor {
    /// The divisor `by`.
    pub fn new(by: u32) -> Divisor
        requires { 0 < by }
        ensures { result ≡ by }
    {
        Divisor {
            by,
            factor: (1 << 40) / u64::from(by) + 1,
        }
    }

    /// The divisor as a number.
    pub fn number(&self) -> u32
        ensures { result ≡ self.now }
    {
        self.by
    }

    /// Whether a number can be divided so: it is less than `2^40` divided by the divisor, and its quotient less than
    /// `2^23`.
    pub fn reaches(&self, n: u64) -> bool
        ensures { result ≡ is_in_reach self.now n }
    {
        let by = u64::from(self.by);
        n <= ((1 << 40) - 1) / by && n < by << 23
    }

    /// The quotient of a number.
    pub fn quotient(&self, n: u64) -> u32
        requires { IsInReach self.now n }
        ensures { result ≡ n / self.now }
    {
        ((n * self.factor) >> 40) as u32
    }

    /// The quotient of a number, and what is left over.
    pub fn split(&self, n: u64) -> (u32, u32)
        requires { IsInReach self.now n }
        ensures quotient { result.0 ≡ n / self.now }
        ensures rest { result.1 ≡ n % self.now }
    {
        let quotient = self.quotient(n);
        (
            quotient,
            (n - u64::from(quotient) * u64::from(self.by)) as u32,
        )
    }
}
