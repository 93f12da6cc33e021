// The first condition of a place's line that fails, by what is kept.
ghost use Rattle.clr_average.specs.Average.{IsWithin};
ghost use Rattle.clr_cert.specs.Conditions.{conditions, total};
ghost use Rattle.clr_cert.specs.Entries.{most_entry};
ghost use Rattle.clr_cert.specs.Lines.{full_stock};
ghost use Rattle.clr_cert.specs.Places.{IsPlaceOf, IsWeekStore};
ghost use Rattle.clr_cert.specs.Reading.{are_in_range, count_at, entries_in, is_within, most_total};
ghost use Rattle.clr_check.specs.Faults.{AreNumbers, first_fault};
ghost use Rattle.clr_check.specs.Rows.{AreRowsOf, kept_at};
ghost use Rattle.clr_check.specs.Sides.{path_place, path_rows};
ghost use Rattle.clr_check.specs.Standing.{AreTables, IsLineKept, row_number, row_store, stock_count};
ghost use Rattle.clr_model.specs.Fits.{fits};
ghost use Rattle.clr_model.specs.Revenue.{sum_stores};
ghost use Rattle.clr_rules.specs.LiveSummaries.{live_pairs};
ghost use Rattle.std.specs.List.{list_all};
ghost use Rattle.std.specs.Prelude.{◌≡◌, ℕ, ◌+◌, ◌*◌, ◌≤◌, List, [], ◌∷◌, IsTrue, length, get_or};

use crate::faults::{Bound, Fault, entry_fault};
use crate::heads::{mult_fault, path_fault, total_fault};
use crate::joint::{joint_fault, last_joint_fault};
use crate::number_rows::Rows;
use crate::tables::{Tables, mult_row, row_number};
use crate::values::{last_value_fault, value_fault};
use clr_cert::{NoKind, Place};
use clr_model::lists_of_stocks;
use clr_rules::{Live, Summary};
use clr_season::Season;

// The rows of the path's values on one side of what it earns.
fn path_rows(tables: &Tables, bound: Bound) -> &Rows
    ensures { result.now ≡ path_rows bound tables.now }
{
    match bound {
        Bound::Below => &tables.lows,
        Bound::Above => &tables.highs,
    }
}

// The first condition of the path's values to a store that fails, of those on one side of what it earns.
fn path_values_fault(
    season: &Season,
    tables: &Tables,
    bound: Bound,
    done: u32,
    store: u32,
    numbers: &[i128],
) -> Option<Fault>
    requires place { IsWeekStore season.now done store }
    requires tables { AreTables season.now tables.now }
    requires numbers { AreNumbers season.now store numbers.now }
    ensures { (lines : List (List ℕ)) (row : ℕ) → IsLineKept season.now lines row (path_place bound done store) tables.now numbers.now →
        result ≡ first_fault (conditions season.now (entries_in season.now lines) numbers.now (path_place bound done store)) }
{
    prove!(done <= season.weeks());
    let after = path_rows(tables, bound).row(row_number(store, done + 1));
    entry_fault(season, bound, &tables.path, done, store, numbers, after)
}

// The first condition of a store's values at a live summary that fails.
fn value_line_fault(
    season: &Season,
    live: &Live,
    tables: &Tables,
    done: u32,
    store: u32,
    s: Summary,
    numbers: &[i128],
) -> Option<Fault>
    requires live { live.now ≡ live_pairs season.now.rules }
    requires place { IsPlaceOf season.now (Place.Value done store s) }
    requires tables { AreTables season.now tables.now }
    requires numbers { AreNumbers season.now store numbers.now }
    ensures { (lines : List (List ℕ)) (row : ℕ) → IsLineKept season.now lines row (Place.Value done store s) tables.now numbers.now →
        result ≡ first_fault (conditions season.now (entries_in season.now lines) numbers.now (Place.Value done store s)) }
{
    if done == season.weeks() {
        return last_value_fault(season, store, s, numbers);
    }
    let mults = tables.mults.row(mult_row(season, store, done + 1));
    let rows = tables.values.row(row_number(store, done + 1));
    value_fault(season, live, mults, store, done, s, numbers, rows)
}

// The first condition of the numbers of all stores that fails.
fn joint_line_fault(
    season: &Season,
    live: &Live,
    tables: &Tables,
    done: u32,
    s: Summary,
    index: u64,
    numbers: &[i128],
) -> Option<Fault>
    requires live { live.now ≡ live_pairs season.now.rules }
    requires place { IsPlaceOf season.now (Place.Joint done s index) }
    requires tables { AreTables season.now tables.now }
    requires count { length numbers.now ≡ 3 }
    requires range { IsTrue (are_in_range season.now (Place.Joint done s index) numbers.now) }
    ensures { (lines : List (List ℕ)) (row : ℕ) → IsLineKept season.now lines row (Place.Joint done s index) tables.now numbers.now →
        result ≡ first_fault (conditions season.now (entries_in season.now lines) numbers.now (Place.Joint done s index)) }
{
    let low = numbers[1];
    let top = numbers[2];
    if done == season.weeks() {
        return last_joint_fault(season, index, low, top);
    }
    let rung = numbers[0] as u32;
    let row = (done as usize + 1) % 2;
    let lows = tables.joint_lows.row(row);
    let tops = tables.joint_tops.row(row);
    joint_fault(season, live, done, s, index, rung, low, top, lows, tops)
}

// The sum over the stores of their entries before the first week at full stocks, of tables without summaries.
fn opening_total(season: &Season, rows: &Rows) -> i128
    requires { AreRowsOf (2 * length season.now.stores) (λ row. 1 * stock_count season.now (row_store row)) most_entry rows.now }
    ensures value { result ≡ sum_stores season.now (λ store. kept_at rows.now (row_number store 0) (full_stock season.now store)) }
    ensures size { IsWithin (64 * most_entry) result }
{
    let mut total = 0;
    for index in 0..season.stores() {
        let stock = season.stock(index + 1) as usize;
        total += i128::from(rows.row(row_number(index + 1, 0))[stock]);
    }
    total
}

// The sum over the stores of their values before the first week at full stocks, at the live summary of a place.
fn value_total(season: &Season, place: u32, rows: &Rows) -> i128
    requires count { length rows.now ≡ 2 * length season.now.stores }
    requires room { (store : ℕ) → 1 ≤ store → store ≤ length season.now.stores → (place + 1) * stock_count season.now store ≤ length (get_or rows.now (row_number store 0) []) }
    requires small { (row index : ℕ) → IsWithin most_entry (kept_at rows.now row index) }
    ensures value { result ≡ sum_stores season.now (λ store. kept_at rows.now (row_number store 0) (place * stock_count season.now store + full_stock season.now store)) }
{
    let mut total = 0;
    for index in 0..season.stores() {
        let stock = season.stock(index + 1) as usize;
        let from = place as usize * (stock + 1);
        total += i128::from(rows.row(row_number(index + 1, 0))[from + stock]);
    }
    total
}

// The condition of the bound, where it fails.
fn bound_fault(season: &Season, live: &Live, tables: &Tables, numbers: &[i128]) -> Option<Fault>
    requires live { live.now ≡ live_pairs season.now.rules }
    requires tables { AreTables season.now tables.now }
    requires count { length numbers.now ≡ 1 }
    requires range { IsTrue (list_all (is_within most_total) numbers.now) }
    ensures { (lines : List (List ℕ)) (row : ℕ) → IsLineKept season.now lines row (Place.Bound) tables.now numbers.now →
        result ≡ first_fault (conditions season.now (entries_in season.now lines) numbers.now (Place.Bound)) }
{
    let sum = match live.find(0, season.rules().start()) {
        Some(place) => value_total(season, place, &tables.values),
        None => 0,
    };
    total_fault(NoKind::Total, numbers[0], sum)
}

// The first of two totals that isn't what it must be.
fn totals_fault(numbers: &[i128], low: i128, high: i128) -> Option<Fault>
    requires count { length numbers.now ≡ 2 }
    requires range { IsTrue (list_all (is_within most_total) numbers.now) }
    ensures { result ≡ first_fault (total numbers.now 0 low ∷ total numbers.now 1 high ∷ []) }
{
    let fault = total_fault(NoKind::Total, numbers[0], low);
    if fault.is_some() {
        return fault;
    }
    total_fault(NoKind::Total, numbers[1], high)
}

// The first condition of the path's totals that fails.
fn revenue_fault(season: &Season, tables: &Tables, numbers: &[i128]) -> Option<Fault>
    requires tables { AreTables season.now tables.now }
    requires count { length numbers.now ≡ 2 }
    requires range { IsTrue (list_all (is_within most_total) numbers.now) }
    ensures { (lines : List (List ℕ)) (row : ℕ) → IsLineKept season.now lines row (Place.Revenue) tables.now numbers.now →
        result ≡ first_fault (conditions season.now (entries_in season.now lines) numbers.now (Place.Revenue)) }
{
    prove!(1 <= season.stores());
    let low = opening_total(season, &tables.lows);
    let high = opening_total(season, &tables.highs);
    totals_fault(numbers, low, high)
}

// The first condition of the totals of all stores together that fails. The list of the full stocks comes last.
fn exact_fault(season: &Season, live: &Live, tables: &Tables, numbers: &[i128]) -> Option<Fault>
    requires live { live.now ≡ live_pairs season.now.rules }
    requires fits { IsTrue (fits season.now) }
    requires tables { AreTables season.now tables.now }
    requires count { length numbers.now ≡ 2 }
    requires range { IsTrue (list_all (is_within most_total) numbers.now) }
    ensures { (lines : List (List ℕ)) (row : ℕ) → IsLineKept season.now lines row (Place.Exact) tables.now numbers.now →
        result ≡ first_fault (conditions season.now (entries_in season.now lines) numbers.now (Place.Exact)) }
{
    let Some(place) = live.find(0, season.rules().start()) else {
        return totals_fault(numbers, 0, 0);
    };
    let lists = lists_of_stocks(season) as usize;
    let at = place as usize * lists + (lists - 1);
    let low = i128::from(tables.joint_lows.row(0)[at]);
    let high = i128::from(tables.joint_tops.row(0)[at]);
    totals_fault(numbers, low, high)
}

/// The first condition of a place's line that fails. `numbers` are those of the line, and the tables have kept them.
pub(crate) fn numbers_fault(
    season: &Season,
    live: &Live,
    tables: &Tables,
    place: Place,
    numbers: &[i128],
) -> Option<Fault>
    requires live { live.now ≡ live_pairs season.now.rules }
    requires place { IsPlaceOf season.now place }
    requires tables { AreTables season.now tables.now }
    requires count { length numbers.now ≡ count_at season.now place }
    requires range { IsTrue (are_in_range season.now place numbers.now) }
    ensures { (lines : List (List ℕ)) (row : ℕ) → IsLineKept season.now lines row place tables.now numbers.now →
        result ≡ first_fault (conditions season.now (entries_in season.now lines) numbers.now place) }
{
    prove!(1 <= season.stores());
    match place {
        Place::Path => path_fault(season, live, &tables.path),
        Place::Mult { .. } => mult_fault(numbers),
        Place::Low { done, store } => {
            path_values_fault(season, tables, Bound::Below, done, store, numbers)
        }
        Place::High { done, store } => {
            path_values_fault(season, tables, Bound::Above, done, store, numbers)
        }
        Place::Value { done, store, s } => {
            value_line_fault(season, live, tables, done, store, s, numbers)
        }
        Place::Joint { done, s, index } => {
            joint_line_fault(season, live, tables, done, s, index, numbers)
        }
        Place::Revenue => revenue_fault(season, tables, numbers),
        Place::Bound => bound_fault(season, live, tables, numbers),
        Place::Exact => exact_fault(season, live, tables, numbers),
        Place::Head | Place::Lengths | Place::End => None,
    }
}
