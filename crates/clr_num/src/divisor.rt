//! A base that many numbers are divided by.
ghost use Rattle.clr_num.specs.Rounding.{IsSplit};
ghost use Rattle.std.specs.Prelude.{◌≡◌, ◌^◌, ◌-◌, ◌≤◌, ◌≤ℤ◌, pos, nat_abs, MatchOption, ⊤};

use std::marker::Model;

/// A base of at least 1 that is made ready to divide by.
///
/// A quotient is guessed by a product with the base's reciprocal, and what the guess leaves tells
/// whether it is right; only where it isn't does the number take a division.
#[derive(Drop)]
pub struct Divisor {
    base: i64,
    // 2^63 - 1 over the base, rounded down. Guesses are as good as this is, and nothing else rests
    // on it.
    reciprocal: i64,
}

impl Model for Divisor {
    ghost use Rattle.std.specs.Prelude.{ℕ, pos, ◌≤ℤ◌, nat_abs};

    ghost Value = { ℕ };

    ghost view = { λ d. nat_abs d.base };

    ghost invariant = { λ d. pos 1 ≤ℤ d.base };
}

/// A number taken apart by a base: the quotient rounded down, and what it leaves.
#[derive(Drop)]
pub(crate) struct Split {
    pub(crate) quotient: i64,
    pub(crate) rest: i64,
}

impl Divisor {
    /// Makes a base ready to divide by, from 1 to 2^63 - 1.
    pub fn new(base: u64) -> Divisor
        requires low { 1 ≤ base }
        requires high { base ≤ 2 ^ 63 - 1 }
        ensures { result ≡ base }
    {
        let base = base as i64;
        Divisor {
            base,
            reciprocal: i64::MAX / base,
        }
    }

    /// The base.
    #[inline(always)]
    pub(crate) fn base(&self) -> i128
        ensures base { nat_abs result ≡ self.now }
        ensures some { pos 1 ≤ℤ result }
    {
        i128::from(self.base)
    }

    /// The number by a quotient, where that is its quotient rounded down.
    #[inline(always)]
    fn check(&self, num: i64, quotient: i64) -> Option<Split>
        ensures { MatchOption result ⊤ (λ split. IsSplit num self.now split.quotient split.rest) }
    {
        let rest = num.checked_sub(quotient.checked_mul(self.base)?)?;
        if 0 <= rest && rest < self.base {
            Some(Split { quotient, rest })
        } else {
            None
        }
    }

    /// A quotient that is mostly right: the product with the reciprocal, which leans to zero, is
    /// mended by half the reciprocal.
    #[inline(always)]
    fn guess(&self, num: i64) -> i64 {
        let reciprocal = i128::from(self.reciprocal);
        let product = i128::from(num).wrapping_mul(reciprocal);
        i64::try_from(product.wrapping_add(reciprocal / 2) >> 63).unwrap_or(0)
    }

    /// A number taken apart, where it has at most 64 bits and the guess is right.
    #[inline(always)]
    pub(crate) fn split(&self, num: i128) -> Option<Split>
        ensures { MatchOption result ⊤ (λ split. IsSplit num self.now split.quotient split.rest) }
    {
        let narrow = i64::try_from(num).ok()?;
        self.check(narrow, self.guess(narrow))
    }
}
