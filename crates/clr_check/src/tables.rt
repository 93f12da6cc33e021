// What the lines of a certificate have told so far: a path, multipliers, the entries of two weeks, and totals.
ghost use Rattle.clr_check.specs.Rows.{AreRowsOf};
ghost use Rattle.clr_check.specs.Standing.{AreTables, mult_row, row_number, row_store, stock_count};
ghost use Rattle.clr_model.specs.Fits.{fits, stock_lists};
ghost use Rattle.clr_rules.specs.LiveSummaries.{live_pairs, live_summaries};
ghost use Rattle.clr_rules.specs.Rules.{IsPath};
ghost use Rattle.std.specs.Prelude.{◌≡◌, ℕ, ◌+◌, ◌-◌, ◌*◌, ◌%◌, ◌<◌, ◌≤◌, length, IsTrue, IfOk};

use crate::number_rows::Rows;
use clr_model::{Path, fits, lists_of_stocks};
use clr_rules::Live;
use clr_season::Season;
use std::alloc::{AllocError, Global};

/// What lines have told. A store has two rows of each of its tables, one for the even and one for the odd numbers of weeks
/// done, and all stores together have two rows.
#[derive(Drop)]
pub(crate) struct Tables {
    /// The path.
    pub(crate) path: Path,
    /// A row for each store and week, which has a multiplier for each rung.
    pub(crate) mults: Rows,
    /// The path's values rounded down, by stock from 0.
    pub(crate) lows: Rows,
    /// The path's values rounded up.
    pub(crate) highs: Rows,
    /// The stores' values under the multipliers, for each live summary by stock from 0.
    pub(crate) values: Rows,
    /// The low values of all stores together, for each live summary by lists of stocks.
    pub(crate) joint_lows: Rows,
    /// The top values of all stores together.
    pub(crate) joint_tops: Rows,
    /// The low total.
    pub(crate) low: i128,
    /// The high total.
    pub(crate) high: i128,
    /// The bound.
    pub(crate) bound: i128,
    /// The two totals of all stores together.
    pub(crate) exact: (i128, i128),
}

/// The row of a store's entries after `done` weeks, from 0.
pub(crate) fn row_number(store: u32, done: u32) -> usize
    requires { 1 ≤ store }
    ensures { result ≡ row_number store done }
{
    2 * (store as usize - 1) + done as usize % 2
}

/// The row of a store's multipliers of a week, from 0.
pub(crate) fn mult_row(season: &Season, store: u32, week: u32) -> usize
    requires low { 1 ≤ store }
    requires high { store ≤ length season.now.stores }
    requires first { 1 ≤ week }
    requires last { week ≤ season.now.rules.weeks }
    ensures value { result ≡ mult_row season.now store week }
    ensures range { result < length season.now.stores * season.now.rules.weeks }
{
    (store as usize - 1) * season.weeks() as usize + (week as usize - 1)
}

// So many rows of zeros, each of this length.
fn even_rows(alloc: Global, count: usize, len: usize) -> Result<Rows, AllocError>
    ensures { (most : ℕ) → IfOk result (AreRowsOf count (λ row. len) most) }
{
    let mut rows = Rows::new(alloc);
    for _ in 0..count {
        rows.push(alloc, len)?;
    }
    Ok(rows)
}

// Two rows of zeros for each store, with so many numbers for each of its stocks.
fn store_rows(alloc: Global, season: &Season, each: usize) -> Result<Rows, AllocError>
    requires { each ≤ 2000 }
    ensures { (most : ℕ) → IfOk result (AreRowsOf (2 * length season.now.stores) (λ row. each * stock_count season.now (row_store row)) most) }
{
    let mut rows = Rows::new(alloc);
    for row in 0..2 * season.stores() {
        let stocks = season.stock(row / 2 + 1) as usize + 1;
        rows.push(alloc, each * stocks)?;
    }
    Ok(rows)
}

// The rows of all stores together: none where the season doesn't fit.
fn joint_rows(alloc: Global, season: &Season, each: usize) -> Result<Rows, AllocError>
    requires { each ≤ 2000 }
    ensures { (most : ℕ) → IfOk result (λ rows. IsTrue (fits season.now) → AreRowsOf 2 (λ row. each * stock_lists season.now.stores) most rows) }
{
    if fits(season) {
        even_rows(alloc, 2, each * lists_of_stocks(season) as usize)
    } else {
        Ok(Rows::new(alloc))
    }
}

// The rows of the stores' low and high values, and of their values under the multipliers for so many live summaries.
fn rows_of_stores(
    alloc: Global,
    season: &Season,
    most: usize,
) -> Result<(Rows, Rows, Rows), AllocError>
    requires { most ≤ 2000 }
    ensures { (room : ℕ) → IfOk result (λ rows. (AreRowsOf (2 * length season.now.stores) (λ row. 1 * stock_count season.now (row_store row)) room rows.0)
        × (AreRowsOf (2 * length season.now.stores) (λ row. 1 * stock_count season.now (row_store row)) room rows.1)
        × (AreRowsOf (2 * length season.now.stores) (λ row. most * stock_count season.now (row_store row)) room rows.2)) }
{
    let lows = store_rows(alloc, season, 1)?;
    let highs = store_rows(alloc, season, 1)?;
    let values = store_rows(alloc, season, most)?;
    Ok((lows, highs, values))
}

// The rows of the low and of the top values of all stores together.
fn rows_of_all(alloc: Global, season: &Season, most: usize) -> Result<(Rows, Rows), AllocError>
    requires { most ≤ 2000 }
    ensures { (room : ℕ) → IfOk result (λ rows. IsTrue (fits season.now) → (AreRowsOf 2 (λ row. most * stock_lists season.now.stores) room rows.0)
        × (AreRowsOf 2 (λ row. most * stock_lists season.now.stores) room rows.1)) }
{
    let lows = joint_rows(alloc, season, most)?;
    let tops = joint_rows(alloc, season, most)?;
    Ok((lows, tops))
}

// The greatest number of live summaries after any number of weeks.
fn most_live(season: &Season, live: &Live) -> u32
    requires { live.now ≡ live_pairs season.now.rules }
    ensures room { (done : ℕ) → done ≤ season.now.rules.weeks → length (live_summaries season.now.rules done) ≤ result }
    ensures range { result ≤ 2000 }
{
    let mut most = 0;
    for done in 0..season.weeks() + 1 {
        let count = live.count(done);
        if count > most {
            most = count;
        }
    }
    most
}

// Some path: all weeks on the first rung.
fn first_path(alloc: Global, season: &Season) -> Result<Path, AllocError>
    ensures { IfOk result (IsPath season.now.rules) }
{
    let rungs = vec![in alloc; 1; season.weeks() as usize]?;
    Path::new(alloc, season, &rungs)
}

impl Tables {
    /// Tables of zeros.
    ///
    /// # Errors
    /// Where memory is wanting.
    pub(crate) fn new(alloc: Global, season: &Season, live: &Live) -> Result<Tables, AllocError>
        requires { live.now ≡ live_pairs season.now.rules }
        ensures { IfOk result (AreTables season.now) }
    {
        let most = most_live(season, live) as usize;
        let mults = season.stores() as usize * season.weeks() as usize;
        let path = first_path(alloc, season)?;
        let mults = even_rows(alloc, mults, season.rungs() as usize)?;
        let (joint_lows, joint_tops) = rows_of_all(alloc, season, most)?;
        let (lows, highs, values) = rows_of_stores(alloc, season, most)?;
        Ok(Tables {
            path,
            mults,
            lows,
            highs,
            values,
            joint_lows,
            joint_tops,
            low: 0,
            high: 0,
            bound: 0,
            exact: (0, 0),
        })
    }
}
