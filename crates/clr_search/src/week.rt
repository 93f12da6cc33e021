// One week of a store's values along a prefix.
ghost use Rattle.std.specs.Prelude.{◌≡◌, ℕ, suc, ◌+◌, ◌*◌, ◌≤◌, ◌<◌, pos, length, get_or, sum, EachIndex};
ghost use Rattle.clr_average.specs.Average.{IsWithin, row_weighed};
ghost use Rattle.clr_model.specs.PathValue.{weighed};
ghost use Rattle.clr_search.specs.Along.{StaysAbove};
ghost use Rattle.clr_season.specs.Season.{IsPlace};

use crate::demands::Demands;
use clr_average::{average_row, average_values, lower_values};
use clr_model::{relabelling, unit_gain};
use clr_num::Direction;
use clr_season::Season;

/// The greatest `reach` that `average_values` takes.
const MOST_REACH: u64 = 1_000_000_000_000_000_000;

/// A size that no value passes: the greatest of their sizes.
fn reach_of(values: &[i64]) -> u64
    requires { EachIndex values.now (λ k. IsWithin 1100000000000000000 (get_or values.now k (pos 0))) }
    ensures range { result ≤ 1100000000000000000 }
    ensures values { EachIndex values.now (λ k. IsWithin result (get_or values.now k (pos 0))) }
{
    let mut reach = 0;
    for value in values {
        reach = reach.max(value.unsigned_abs());
    }
    reach
}

/// Writes, for each stock, the average over the demands of what the sold units earn and the value of what is left.
fn average<R: Direction>(weights: &[u32], base: u32, gain: u64, after: &[i64], out: &mut [i64])
    requires lengths { length after.now ≡ length out.old }
    requires base { 1 ≤ base }
    requires top_base { base ≤ 1000000 }
    requires gain { gain ≤ 10000000000000 }
    requires size { length after.now ≤ 2001 }
    requires weights { sum weights.now ≡ base }
    requires values { EachIndex after.now (λ k. IsWithin 1100000000000000000 (get_or after.now k (pos 0))) }
    ensures value { EachIndex out.new (λ k. get_or out.new k (pos 0) ≡ R.quotient (row_weighed weights.now gain after.now k) base) }
    ensures size { EachIndex out.new (λ k. IsWithin 2000000000000000000 (get_or out.new k (pos 0))) }
{
    let reach = reach_of(after);
    if reach <= MOST_REACH {
        average_values::<R>(weights, base, gain, after, reach, out);
    } else {
        average_row::<R, i128>(weights, base, gain, after, out);
    }
}

/// Writes a store's values before the week after `done` weeks, on a rung after another, from the values `after` it: both
/// at the stocks from 0 up.
fn average_week<R: Direction>(
    demands: &Demands,
    store: u32,
    done: u32,
    before: u32,
    rung: u32,
    after: &[i64],
    out: &mut [i64],
)
    requires place { IsPlace demands.now store (done + 1) rung }
    requires lengths { length after.now ≡ length out.old }
    requires size { length after.now ≤ 2001 }
    requires values { EachIndex after.now (λ k. IsWithin 1100000000000000000 (get_or after.now k (pos 0))) }
    ensures { EachIndex out.new (λ k. get_or out.new k (pos 0) ≡ R.quotient (weighed demands.now store done before rung k (λ rest. get_or after.now rest (pos 0))) demands.now.base) }
{
    let season = demands.season();
    let weights = demands.weights(store, done + 1, rung);
    let unit = unit_gain(season, rung);
    let cost = relabelling(season, store, before, rung);
    average::<R>(weights, season.base(), unit, after, out);
    lower_values(out, cost);
}

/// Does the same at the stocks from `low` to below `width`, where nothing is left below `low`.
pub(crate) fn week_before<R: Direction>(
    demands: &Demands,
    store: u32,
    done: u32,
    before: u32,
    rung: u32,
    low: usize,
    width: usize,
    after: &[i64],
    out: &mut [i64],
)
    requires place { IsPlace demands.now store (done + 1) rung }
    requires lengths { length after.now ≡ length out.old }
    requires inside { width ≤ length after.now }
    requires size { width ≤ 2001 }
    requires low { low ≤ width }
    requires values { (stock : ℕ) → low ≤ stock → stock < width → IsWithin 1100000000000000000 (get_or after.now stock (pos 0)) }
    ensures { (stock : ℕ) → low ≤ stock → stock < width → StaysAbove demands.now store (suc done) rung low stock →
        get_or out.new stock (pos 0) ≡ R.quotient (weighed demands.now store done before rung stock (λ rest. get_or after.now rest (pos 0))) demands.now.base }
{
    average_week::<R>(
        demands,
        store,
        done,
        before,
        rung,
        &after[low..width],
        &mut out[low..width],
    );
}
