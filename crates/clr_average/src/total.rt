ghost use Rattle.clr_average.specs.Average.{IsWithin};
ghost use Rattle.std.specs.Int.RustNames.{FitsSigned};
ghost use Rattle.std.specs.Prelude.{◌≡◌, ℕ, ◌≤◌, ◌-◌, ◌^◌, ℤ, pos, ◌+ℤ◌, ◌*ℤ◌};
ghost use mir.Syntax.{w64};

use clr_num::{Direction, Divisor};

/// A running sum of products, exact up to its limit in size: at 64 bits for rows that these hold, at 128 for
/// the rest.
///
/// `amount` is the number that it stands for, and `limit` the size that it may have.
pub trait Total: Copy + Drop {
    ghost amount: { Self → ℤ };

    ghost limit: { ℕ };

    /// The sum of nothing.
    fn zero() -> Self
        ensures { amount result ≡ pos 0 };

    /// The sum with a weight times a value added.
    fn plus(self, factor: u32, value: i64) -> Self
        requires product { IsWithin limit (pos factor *ℤ value) }
        requires sum { IsWithin limit (amount self +ℤ pos factor *ℤ value) }
        ensures { amount result ≡ amount self +ℤ pos factor *ℤ value };

    /// The sum divided by the base, rounded in the direction `R`. The quotient fits 64 bits.
    fn average<R: Direction>(self, base: &Divisor) -> i64
        requires { FitsSigned w64 (R.quotient (amount self) base.now) }
        ensures { result ≡ R.quotient (amount self) base.now };
}

impl Total for i64 {
    ghost amount = { λ total. total };

    ghost limit = { 2 ^ 63 - 1 };

    #[inline(always)]
    fn zero() -> i64 {
        0
    }

    #[inline(always)]
    fn plus(self, factor: u32, value: i64) -> i64 {
        self + i64::from(factor) * value
    }

    #[inline(always)]
    fn average<R: Direction>(self, base: &Divisor) -> i64 {
        R::div_by(i128::from(self), base) as i64
    }
}

impl Total for i128 {
    ghost amount = { λ total. total };

    ghost limit = { 2 ^ 127 - 1 };

    #[inline(always)]
    fn zero() -> i128 {
        0
    }

    #[inline(always)]
    fn plus(self, factor: u32, value: i64) -> i128 {
        self + i128::from(factor) * i128::from(value)
    }

    #[inline(always)]
    fn average<R: Direction>(self, base: &Divisor) -> i64 {
        R::div_by(self, base) as i64
    }
}
