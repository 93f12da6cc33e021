ghost use Rattle.clr_average.specs.Average.{IsRow, IsWithin, mass, near, row_weighed};
ghost use Rattle.std.specs.Prelude.{sum, ◌≡◌, ℕ, ◌≤◌, ◌<◌, ◌-◌, ◌+◌, ◌*◌, ◌^◌, min, ℤ, pos, ◌+ℤ◌, ◌-ℤ◌, ◌*ℤ◌, IsTrue, length, get_or, EachIndex};

use crate::total::Total;
use clr_num::{Direction, Divisor};

/// The sum with the weights of the demands up to the stock times the values of what they leave.
#[inline(always)]
fn plus_near<A: Total>(start: A, weights: &[u32], after: &[i64], stock: usize) -> A
    requires inside { stock < length after.now }
    requires products { (k : ℕ) → k < min (length weights.now) (stock + 1) → IsWithin A.limit (pos (get_or weights.now k 0) *ℤ get_or after.now (stock - k) (pos 0)) }
    requires sums { (k : ℕ) → k ≤ min (length weights.now) (stock + 1) → IsWithin A.limit (A.amount start +ℤ near weights.now after.now stock k) }
    ensures { A.amount result ≡ A.amount start +ℤ near weights.now after.now stock (min (length weights.now) (stock + 1)) }
{
    let count = weights.len().min(stock + 1);
    let mut total = start;
    for demand in 0..count {
        total = total.plus(weights[demand], after[stock - demand]);
    }
    total
}

/// The weight of the demands beyond a stock, from that of the demands of at least as much.
#[inline(always)]
fn tail_after(tail: u32, weights: &[u32], stock: usize) -> u32
    requires { mass weights.now (length weights.now) ≡ tail + mass weights.now (min stock (length weights.now)) }
    ensures { mass weights.now (length weights.now) ≡ result + mass weights.now (min (stock + 1) (length weights.now)) }
{
    if stock < weights.len() {
        tail - weights[stock]
    } else {
        tail
    }
}

/// Writes, for each stock, the average over the demands of what the sold units earn and the value of what is
/// left.
///
/// `weights` has the weight of each demand, from 0 up, out of `base`; the demands past its end weigh nothing.
/// Each unit sold earns `gain`. `after` has the value of each stock after the week, from 0 up, and `out` gets
/// the averages at the same stocks, rounded in the direction `R`.
///
/// The demands up to the stock are taken one by one. Those beyond it all sell the whole stock, and are taken
/// together by their weight; with it also what is earned grows from one stock to the next.
pub fn average_row<R: Direction, A: Total>(
    weights: &[u32],
    base: u32,
    gain: u64,
    after: &[i64],
    out: &mut [i64],
)
    requires lengths { length after.now ≡ length out.old }
    requires row { (reach : ℕ) × IsRow A.limit base gain reach weights.now after.now }
    ensures { EachIndex out.new (λ k. get_or out.new k (pos 0) ≡ R.quotient (row_weighed weights.now gain after.now k) base) }
{
    let divisor = Divisor::new(u64::from(base));
    let mut tail = base;
    let mut earned = A::zero();
    for stock in 0..out.len() {
        tail = tail_after(tail, weights, stock);
        let total = plus_near(earned, weights, after, stock).plus(tail, after[0]);
        out[stock] = total.average::<R>(&divisor);
        earned = earned.plus(tail, gain as i64);
    }
}

/// Whether 64 bits hold each sum of a row.
fn fits_narrow(base: u32, gain: u64, size: usize, reach: u64) -> bool
    requires base { 1 ≤ base }
    requires gain { gain ≤ 10000000000000 }
    requires size { size ≤ 2001 }
    requires reach { reach ≤ 1000000000000000000 }
    ensures { IsTrue result → base * (gain * size + reach) ≤ 2 ^ 63 - 1 }
{
    u128::from(base) * u128::from(gain * size as u64 + reach) <= i64::MAX as u128
}

/// Writes, for each stock from 0 to at most 2,000, the average over the demands of what the sold units earn and the value of
/// what is left, rounded in the direction `R`: a week of one store, as docs/model.md, "The value of a path", has it.
///
/// `weights` has the weight of each demand, from 0 up, out of `base`; the demands past its end weigh nothing. Each unit sold
/// earns `gain`. `after` has the value of each stock after the week, and `out` gets the averages at the same stocks. Values and
/// `gain` are in units, of which a cent has 10^6.
///
/// Sums have 64 bits where these hold them, and 128 bits elsewhere. `reach` is a size that no value of `after` passes; the
/// closer it is, the more rows take 64 bits.
pub fn average_values<R: Direction>(
    weights: &[u32],
    base: u32,
    gain: u64,
    after: &[i64],
    reach: u64,
    out: &mut [i64],
)
    requires lengths { length after.now ≡ length out.old }
    requires base { 1 ≤ base }
    requires top_base { base ≤ 1000000 }
    requires gain { gain ≤ 10000000000000 }
    requires size { length after.now ≤ 2001 }
    requires reach { reach ≤ 1000000000000000000 }
    requires weights { sum weights.now ≡ base }
    requires values { EachIndex after.now (λ k. IsWithin reach (get_or after.now k (pos 0))) }
    ensures { EachIndex out.new (λ k. get_or out.new k (pos 0) ≡ R.quotient (row_weighed weights.now gain after.now k) base) }
{
    if fits_narrow(base, gain, after.len(), reach) {
        average_row::<R, i64>(weights, base, gain, after, out);
    } else {
        average_row::<R, i128>(weights, base, gain, after, out);
    }
}

/// Takes a cost off each value. A cost that is paid whatever the demand may be taken off after the average, as
/// whole numbers stand outside a rounded quotient.
pub fn lower_values(values: &mut [i64], cost: u64)
    requires cost { cost ≤ 10000000000000 }
    requires values { EachIndex values.old (λ k. IsWithin 2000000000000000000 (get_or values.old k (pos 0))) }
    ensures { EachIndex values.new (λ k. get_or values.new k (pos 0) ≡ get_or values.old k (pos 0) -ℤ pos cost) }
{
    for value in values.iter_mut() {
        *value -= cost as i64;
    }
}
