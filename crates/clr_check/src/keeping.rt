// The numbers of a line are kept.
ghost use Rattle.clr_cert.specs.Entries.{most_entry, most_mult};
ghost use Rattle.clr_cert.specs.Places.{IsJointPlace, IsPlaceOf, IsWeekRung, IsWeekStore, places};
ghost use Rattle.clr_cert.specs.Reading.{are_in_range, count_at, is_rung, numbers_told};
ghost use Rattle.clr_check.specs.Rows.{AreSmall, IsPut};
ghost use Rattle.clr_check.specs.Standing.{AreMultRows, AreMultsKept, AreTables, HasJointRoom, HasValueRoom, IsLineKept, Keeps, live_place, row_number, stock_count};
ghost use Rattle.clr_model.specs.Fits.{stock_lists};
ghost use Rattle.clr_rules.specs.LiveSummaries.{IsIn, live_pairs, live_summaries};
ghost use Rattle.clr_rules.specs.Rules.{IsPath};
ghost use Rattle.clr_season.specs.Season.{IsSeason};
ghost use Rattle.std.specs.List.{list_all};
ghost use Rattle.std.specs.Prelude.{◌≡◌, ℕ, suc, ◌+◌, ◌*◌, ◌%◌, ◌<◌, ◌≤◌, ◌≤ℤ◌, List, IsTrue, length, get_or, pos, slice_get, Some};

use crate::number_rows::Rows;
use crate::tables::{Tables, mult_row, row_number};
use clr_cert::Place;
use clr_model::{Path, lists_of_stocks};
use clr_rules::{Live, Summary};
use clr_season::Season;

// A rung at 32 bits.
fn short_rung(number: i128) -> u32
    requires low { pos 1 ≤ℤ number }
    requires high { number ≤ℤ pos 12 }
    ensures { pos result ≡ number }
{
    number as u32
}

// Keeps the rungs of a path.
fn keep_path(path: &mut Path, season: &Season, numbers: &[i128])
    requires path { IsPath season.now.rules path.old }
    requires weeks { length numbers.now ≡ season.now.rules.weeks }
    requires rungs { IsTrue (list_all (is_rung season.now) numbers.now) }
    ensures path { IsPath season.now.rules path.new }
    ensures there { (k : ℕ) → k < season.now.rules.weeks → pos (get_or path.new k 0) ≡ get_or numbers.now k (pos 0) }
{
    for index in 0..season.weeks() {
        path.set(index + 1, short_rung(numbers[index as usize]));
    }
}

// Keeps the multipliers of all stores for a week and a rung.
fn keep_mults(rows: &mut Rows, season: &Season, week: u32, rung: u32, numbers: &[i128])
    requires place { IsWeekRung season.now week rung }
    requires rows { AreMultRows season.now rows.old }
    requires count { length numbers.now ≡ length season.now.stores }
    requires small { AreSmall most_mult numbers.now }
    ensures rows { AreMultRows season.now rows.new }
    ensures kept { AreMultsKept season.now week rung numbers.now (length season.now.stores) rows.old rows.new }
{
    for index in 0..season.stores() {
        let at = index as usize;
        let row = mult_row(season, index + 1, week);
        rows.put(row, rung as usize - 1, &numbers[at..at + 1]);
    }
}

// Keeps a store's values of a live summary.
fn keep_values(
    rows: &mut Rows,
    season: &Season,
    live: &Live,
    done: u32,
    store: u32,
    s: Summary,
    numbers: &[i128],
)
    requires live { live.now ≡ live_pairs season.now.rules }
    requires place { IsWeekStore season.now done store }
    requires here { IsIn (live_summaries season.now.rules done) s }
    requires rows { HasValueRoom season.now done store rows.old }
    requires count { length numbers.now ≡ stock_count season.now store }
    requires small { AreSmall most_entry numbers.now }
    ensures { IsPut rows.old (row_number store done) (live_place season.now done s * stock_count season.now store) numbers.now rows.new }
{
    prove!(done <= season.weeks());
    let from = live.place(done, s) as usize * numbers.len();
    rows.put(row_number(store, done), from, numbers);
}

// Keeps a value of all stores of a live summary and a list of stocks.
fn keep_joint(
    rows: &mut Rows,
    season: &Season,
    live: &Live,
    done: u32,
    s: Summary,
    index: u64,
    numbers: &[i128],
)
    requires live { live.now ≡ live_pairs season.now.rules }
    requires place { IsJointPlace season.now done s index }
    requires rows { HasJointRoom season.now done rows.old }
    requires one { length numbers.now ≡ 1 }
    requires small { AreSmall most_entry numbers.now }
    ensures { IsPut rows.old (done % 2) (live_place season.now done s * stock_lists season.now.stores + index) numbers.now rows.new }
{
    prove!(done <= season.weeks());
    let lists = lists_of_stocks(season) as usize;
    let from = live.place(done, s) as usize * lists + index as usize;
    rows.put(done as usize % 2, from, numbers);
}

/// Keeps the numbers of a place's line.
pub(crate) fn keep_numbers(
    tables: &mut Tables,
    season: &Season,
    live: &Live,
    place: Place,
    numbers: &[i128],
)
    requires facts { IsSeason season.now }
    requires live { live.now ≡ live_pairs season.now.rules }
    requires place { IsPlaceOf season.now place }
    requires tables { AreTables season.now tables.old }
    requires count { length numbers.now ≡ count_at season.now place }
    requires range { IsTrue (are_in_range season.now place numbers.now) }
    ensures tables { AreTables season.now tables.new }
    ensures keeps { (lines : List (List ℕ)) (row : ℕ) → slice_get (places season.now) row ≡ Some place → numbers_told season.now lines place ≡ numbers.now →
        Keeps season.now lines row place tables.old → IsLineKept season.now lines row place tables.new numbers.now }
{
    match place {
        Place::Path => keep_path(&mut tables.path, season, numbers),
        Place::Mult { week, rung } => keep_mults(&mut tables.mults, season, week, rung, numbers),
        Place::Low { done, store } => tables.lows.put(row_number(store, done), 0, numbers),
        Place::High { done, store } => tables.highs.put(row_number(store, done), 0, numbers),
        Place::Value { done, store, s } => {
            keep_values(&mut tables.values, season, live, done, store, s, numbers);
        }
        Place::Joint { done, s, index } => {
            let lows = &mut tables.joint_lows;
            keep_joint(lows, season, live, done, s, index, &numbers[1..2]);
            let tops = &mut tables.joint_tops;
            keep_joint(tops, season, live, done, s, index, &numbers[2..3]);
        }
        Place::Revenue => {
            tables.low = numbers[0];
            tables.high = numbers[1];
        }
        Place::Bound => tables.bound = numbers[0],
        Place::Exact => tables.exact = (numbers[0], numbers[1]),
        Place::Head | Place::Lengths | Place::End => {}
    }
}
