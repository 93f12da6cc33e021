//! Division rounded down and up.
ghost use Rattle.clr_num.specs.Direction.{IsDirection, AtLeast, AtMost};
ghost use Rattle.clr_num.specs.DirectionLaws.{ceil_is_direction, floor_is_direction};
ghost use Rattle.clr_num.specs.Rounding.{ceil, floor, RoundsDown, RoundsUp};
ghost use Rattle.std.specs.Prelude.{◌≡◌, ℕ, ℤ, pos, ◌≤ℤ◌, nat_abs};

use crate::divisor::Divisor;

/// A way to round, up or down.
///
/// A lower bound is computed with [`Down`] and an upper bound with [`Up`], by one body. Sums,
/// averages and maxima of numbers that lean to one side lean to it too.
pub trait Direction {
    // `leans a b`: a stands on the safe side of b.
    ghost leans: { ℤ → ℤ → Type 0 };

    // The number divided by the base, rounded this way.
    ghost quotient: { ℤ → ℕ → ℤ };

    /// The number divided by the base, rounded this way, also below zero.
    ///
    /// The base is at least 1. The quotient times the base leans from the number and differs
    /// from it by less than the base.
    fn div(num: i128, base: i128) -> i128
        requires { pos 1 ≤ℤ base }
        ensures { result ≡ quotient num (nat_abs base) };

    /// [`Direction::div`] by a base that was made ready, which is far faster where the number has
    /// at most 64 bits.
    fn div_by(num: i128, divisor: &Divisor) -> i128
        ensures { result ≡ quotient num divisor.now };

    // Sums, scaling and maxima keep the relation, and a division goes its way by less than one.
    ghost laws: { IsDirection leans quotient };
}

/// Rounding up: to the least whole number that isn't below the exact quotient.
pub struct Up;

/// Rounding down: to the greatest whole number that isn't above the exact quotient.
pub struct Down;

impl Direction for Down {
    ghost leans = { AtMost };

    ghost quotient = { floor };

    fn div(num: i128, base: i128) -> i128 {
        num / base - i128::from(num % base < 0)
    }

    #[inline(always)]
    fn div_by(num: i128, divisor: &Divisor) -> i128 {
        match divisor.split(num) {
            Some(split) => i128::from(split.quotient),
            None => Down::div(num, divisor.base()),
        }
    }

    ghost laws = { floor_is_direction };
}

impl Direction for Up {
    ghost leans = { AtLeast };

    ghost quotient = { ceil };

    fn div(num: i128, base: i128) -> i128 {
        num / base + i128::from(num % base > 0)
    }

    #[inline(always)]
    fn div_by(num: i128, divisor: &Divisor) -> i128 {
        match divisor.split(num) {
            Some(split) => i128::from(split.quotient) + i128::from(split.rest > 0),
            None => Up::div(num, divisor.base()),
        }
    }

    ghost laws = { ceil_is_direction };
}

/// What every direction keeps: its relation is reflexive, transitive and kept by adding, by
/// scaling with a number that isn't negative and by maximum; a quotient times the base leans from
/// the number and differs from it by less than the base; whole multiples of the base move out.
pub fn direction_laws<R: Direction>()
    ensures { IsDirection R.leans R.quotient }
{}

/// `floor` and `ceil` are the mathematical ones, also below zero: the greatest whole number that
/// is at most the exact quotient, and the least that is at least it.
pub fn rounding_laws()
    ensures down { RoundsDown }
    ensures up { RoundsUp }
{}
