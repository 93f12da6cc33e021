// A store's values along a prefix.
ghost use Rattle.std.specs.Prelude.{◌≡◌, ℕ, ◌+◌, ◌≤◌, ◌<◌, pos, length, get_or, IfOk};
ghost use Rattle.clr_average.specs.Average.{IsWithin};
ghost use Rattle.clr_model.specs.PathValue.{path_value_to};
ghost use Rattle.clr_rules.specs.Rules.{rung_at};
ghost use Rattle.clr_search.specs.Along.{AreLows, IsPrefix};
ghost use Rattle.clr_season.specs.Season.{IsPlace, IsSeason, store_at, weight};

use crate::demands::Demands;
use crate::week::week_before;
use clr_num::Direction;
use std::alloc::{AllocError, Global};

/// A store holds at most 2,000 units.
const MOST_WIDTH: usize = 2001;

/// A season has at most 52 weeks.
const MOST_LOWS: usize = 53;

/// Buffers for a store's values before and after a week, by stock, and for the least stocks that it can have, by the weeks done.
#[derive(Drop)]
pub(crate) struct Rows {
    pub(crate) after: Vec<i64>,
    out: Vec<i64>,
    lows: Vec<usize>,
    ghost after_size: { length after.items ≡ 2001 },
    ghost out_size: { length out.items ≡ 2001 },
    ghost lows_size: { length lows.items ≡ 53 },
}

impl Rows {
    /// Buffers that serve each store of each season.
    ///
    /// # Errors
    /// Where memory is wanting.
    pub(crate) fn new(alloc: Global) -> Result<Rows, AllocError> {
        let after = vec![in alloc; 0; MOST_WIDTH]?;
        let out = vec![in alloc; 0; MOST_WIDTH]?;
        let lows = vec![in alloc; 0; MOST_LOWS]?;
        Ok(Rows { after, out, lows })
    }
}

/// The greatest demand of a store in a week on a rung that weighs anything.
fn greatest(demands: &Demands, store: u32, week: u32, rung: u32) -> usize
    requires { IsPlace demands.now store week rung }
    ensures { (demand : ℕ) → result < demand → weight demands.now store week rung demand ≡ 0 }
{
    let weights = demands.weights(store, week, rung);
    weights.len().saturating_sub(1)
}

/// Writes the least stocks that a store can have after each number of weeks of a prefix.
fn write_lows(demands: &Demands, store: u32, prefix: &[u32], units: usize, lows: &mut [usize])
    requires season { IsSeason demands.now }
    requires low { 1 ≤ store }
    requires high { store ≤ length demands.now.stores }
    requires prefix { IsPrefix demands.now.rules prefix.now }
    requires size { length prefix.now < length lows.old }
    ensures { AreLows demands.now store prefix.now units (length prefix.now) lows.new }
{
    lows[0] = units;
    for done in 0..prefix.len() {
        let most = greatest(demands, store, done as u32 + 1, prefix[done]);
        lows[done + 1] = lows[done].saturating_sub(most);
    }
}

/// The rung in force before the week that comes after so many, and rung 1 before the first.
fn rung_before(prefix: &[u32], done: usize) -> u32
    requires { done ≤ length prefix.now }
    ensures { result ≡ rung_at prefix.now done }
{
    if done == 0 { 1 } else { prefix[done - 1] }
}

/// The value of a store's whole stock along a prefix of the season's rungs, each week's average rounded in the direction `R`. The
/// buffer `after` has what each stock up to the whole one is worth after the prefix, and gets other values.
pub(crate) fn value_along<R: Direction>(
    demands: &Demands,
    store: u32,
    prefix: &[u32],
    rows: &mut Rows,
) -> i64
    requires low { 1 ≤ store }
    requires high { store ≤ length demands.now.stores }
    requires prefix { IsPrefix demands.now.rules prefix.now }
    requires finish { (stock : ℕ) → stock ≤ (store_at demands.now store).units → IsWithin 1000000000000000000 (get_or rows.old.after.items stock (pos 0)) }
    ensures value { result ≡ path_value_to R.quotient (λ rest. get_or rows.old.after.items rest (pos 0)) demands.now store 0 1 prefix.now (store_at demands.now store).units }
    ensures size { IsWithin 1030000000000000000 result }
{
    let units = demands.season().stock(store) as usize;
    let width = units + 1;
    write_lows(demands, store, prefix, units, &mut rows.lows);
    for back in 0..prefix.len() {
        let done = prefix.len() - 1 - back;
        let low = rows.lows[done + 1];
        let before = rung_before(prefix, done);
        week_before::<R>(
            demands,
            store,
            done as u32,
            before,
            prefix[done],
            low,
            width,
            &rows.after,
            &mut rows.out,
        );
        std::mem::swap(&mut rows.after, &mut rows.out);
    }
    rows.after[units]
}
