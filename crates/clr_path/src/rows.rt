// One store's values along a path.
ghost use Rattle.clr_average.specs.Average.{IsWithin};
ghost use Rattle.clr_model.specs.PathValue.{path_value_at};
ghost use Rattle.clr_model.specs.Revenue.{cent, salvage_cents};
ghost use Rattle.clr_num.specs.Lists.{numbers};
ghost use Rattle.clr_path.specs.Flat.{AreRows};
ghost use Rattle.clr_path.specs.Tables.{store_rows};
ghost use Rattle.clr_rules.specs.Rules.{IsPath, price, rung_at};
ghost use Rattle.clr_season.specs.Season.{IsSeason, store_at};
ghost use Rattle.std.specs.Prelude.{◌≡◌, ℕ, suc, ◌≤◌, ◌<◌, ◌+◌, ◌*◌, ◌-◌, pos, ◌*ℤ◌, [], length, get_or, drop, map, EachIndex, IfOk};

use clr_model::{CENT, Path, average_week};
use clr_num::Direction;
use clr_season::Season;
use std::alloc::{AllocError, Global};
use std::marker::Model;

/// The values of one store, for each number of weeks done at the stocks from 0 up. They stand one row after
/// another, from the end of the season back, so that a week's row is added at the end.
#[derive(Drop)]
pub struct StoreRows {
    weeks: usize,
    width: usize,
    values: Vec<i64>,
}

impl Model for StoreRows {
    ghost use Rattle.std.specs.Prelude.{◌≡◌, suc, ◌*◌, ℤ, List, length};
    ghost use Rattle.clr_num.specs.Lists.{numbers};
    ghost use Rattle.clr_path.specs.Flat.{flat_rows};

    ghost Value = { List (List ℤ) };

    ghost view = { λ r. flat_rows r.weeks r.width r.values.items };

    ghost invariant = { λ r. length r.values.items ≡ suc r.weeks * r.width };
}

impl StoreRows {
    /// The values after so many weeks.
    pub fn row(&self, done: u32) -> &[i64]
        requires { done < length self.now }
        ensures { result.now ≡ get_or self.now done [] }
    {
        let start = (self.weeks - done as usize) * self.width;
        &self.values[start..start + self.width]
    }
}

/// The rung in force before the week that comes after so many, and rung 1 before the first.
fn rung_before(path: &Path, done: u32) -> u32
    requires { done ≤ length path.now }
    ensures { result ≡ rung_at path.now done }
{
    if done == 0 { 1 } else { path.rung(done) }
}

/// The most that a unit of a store earns, sold or left, in units of value.
fn dearest(season: &Season, store: u32) -> u64
    requires season { IsSeason season.now }
    requires low { 1 ≤ store }
    requires high { store ≤ length season.now.stores }
    ensures prices { (rung : ℕ) → 1 ≤ rung → rung ≤ length season.now.rules.prices → cent * price season.now.rules rung ≤ result }
    ensures salvage { cent * (store_at season.now store).salvage ≤ result }
    ensures range { result ≤ 10000000000000 }
{
    CENT * season.price(1).max(season.salvage(store))
}

/// What each stock from 0 up is worth at the end.
fn end_row(alloc: Global, season: &Season, store: u32, width: usize) -> Result<Vec<i64>, AllocError>
    requires low { 1 ≤ store }
    requires high { store ≤ length season.now.stores }
    requires size { width ≤ 2001 }
    ensures { IfOk result (λ row. row.items ≡ map (λ stock. pos cent *ℤ salvage_cents season.now store stock) (numbers 0 width)) }
{
    let unit = CENT * season.salvage(store);
    let mut row = Vec::with_capacity(alloc, width)?;
    for stock in 0..width {
        row.push((unit * stock as u64) as i64)?;
    }
    Ok(row)
}

/// The last so many values.
fn last_row(values: &[i64], width: usize) -> &[i64]
    requires { width ≤ length values.now }
    ensures { result.now ≡ drop (length values.now - width) values.now }
{
    &values[values.len() - width..]
}

/// Adds the row of one week earlier.
fn push_row<R: Direction>(
    season: &Season,
    store: u32,
    path: &Path,
    back: u32,
    reach: u64,
    values: &mut Vec<i64>,
    row: &mut [i64],
) -> Result<(), AllocError>
    requires low { 1 ≤ store }
    requires high { store ≤ length season.now.stores }
    requires path { IsPath season.now.rules path.now }
    requires early { back < length path.now }
    requires reach { reach ≤ 1000000000000000000 }
    requires width { length row.old ≤ 2001 }
    requires rows { AreRows R.quotient season.now store path.now (length path.now) (length row.old) (back + 1) values.old.items }
    requires sizes { EachIndex values.old.items (λ k. IsWithin reach (get_or values.old.items k (pos 0))) }
    ensures { IfOk result (λ _. AreRows R.quotient season.now store path.now (length path.now) (length row.old) (back + 2) values.new.items) }
{
    let done = path.len() - 1 - back;
    let after = last_row(values.as_slice(), row.len());
    let before = rung_before(path, done);
    let rung = path.rung(done + 1);
    average_week::<R>(season, store, done, before, rung, after, reach, row);
    values.extend_from_slice(row)?;
    Ok(())
}

/// A store's values along a path of the season.
pub fn build_rows<R: Direction>(
    alloc: Global,
    season: &Season,
    store: u32,
    path: &Path,
) -> Result<StoreRows, AllocError>
    requires season { IsSeason season.now }
    requires low { 1 ≤ store }
    requires high { store ≤ length season.now.stores }
    requires path { IsPath season.now.rules path.now }
    ensures { IfOk result (λ rows. rows ≡ store_rows R.quotient season.now path.now store) }
{
    let weeks = path.len();
    let stock = season.stock(store);
    let cost = CENT * season.relabel(store);
    let reach = dearest(season, store) * u64::from(stock) + cost * u64::from(weeks);
    let width = stock as usize + 1;
    let mut row = end_row(alloc, season, store, width)?;
    let mut values = Vec::with_capacity(alloc, width * (weeks as usize + 1))?;
    values.extend_from_slice(&row)?;
    for back in 0..weeks {
        push_row::<R>(season, store, path, back, reach, &mut values, &mut row)?;
    }
    Ok(StoreRows {
        weeks: weeks as usize,
        width,
        values,
    })
}
