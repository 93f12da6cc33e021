// The table of all stores together.
ghost use Rattle.clr_average.specs.Average.{IsWithin};
ghost use Rattle.clr_joint.specs.Tables.{HasStocks, IsEnclosed, IsJointOf, IsNearBest, at_stocks, choices_of, opening, table_pairs, values_of};
ghost use Rattle.clr_model.specs.Stocks.{lists_of, place_in};
ghost use Rattle.clr_model.specs.Expected.{Tops};
ghost use Rattle.clr_model.specs.Fits.{fits};
ghost use Rattle.clr_model.specs.JointValue.{joint_low, joint_rung_at, joint_top};
ghost use Rattle.clr_model.specs.Revenue.{full_stocks};
ghost use Rattle.clr_rules.specs.FirstPath.{SomePathObeys};
ghost use Rattle.clr_rules.specs.LiveSummaries.{IsAmong, live_pairs};
ghost use Rattle.clr_rules.specs.Rules.{summary};
ghost use Rattle.clr_season.specs.Season.{IsSeason};
ghost use Rattle.clr_rows.specs.Rows.{row_at, week_at};
ghost use Rattle.std.specs.Prelude.{◌≡◌, ◌+◌, ◌-◌, ◌*◌, ◌<◌, ◌≤◌, ◌^◌, ℤ, pos, ◌+ℤ◌, ◌≤ℤ◌, [], length, get_or, IfOk, IsTrue};

use crate::week::weeks;
use clr_num::{Down, Up};
use clr_rows::{Week, row_of};
use clr_rules::{Live, Summary};
use clr_season::Season;
use std::alloc::{AllocError, Global};
use std::marker::Model;

/// The units that the stores open with.
fn opening_units(alloc: Global, season: &Season) -> Result<Vec<u32>, AllocError>
    ensures units { IfOk result (λ units. units.items ≡ full_stocks season.now) }
    ensures facts { IsSeason season.now }
{
    let count = season.stores();
    let mut units = Vec::with_capacity(alloc, count as usize)?;
    for index in 0..count {
        units.push(season.stock(index + 1))?;
    }
    Ok(units)
}

/// The number of lists of stocks.
fn count_lists(units: &[u32]) -> usize
    requires { lists_of units.now ≤ 1000000 }
    ensures { result ≡ lists_of units.now }
{
    let mut lists = 1;
    for store in units {
        lists *= *store as usize + 1;
    }
    lists
}

/// The place of a list of stocks among all lists, counted from 0. The first store's stock goes slowest.
fn place_of_stocks(units: &[u32], stocks: &[u32]) -> usize
    requires same { length stocks.now ≡ length units.now }
    requires inside { place_in units.now stocks.now < 2 ^ 64 }
    ensures { result ≡ place_in units.now stocks.now }
{
    let mut place = 0;
    for index in 0..units.len() {
        place = place * (units[index] as usize + 1) + stocks[index] as usize;
    }
    place
}

/// A week by the weeks done, where they stand from the end of the season back.
fn week_of(weeks: &[Week], done: u32) -> &Week
    requires { done < length weeks.now }
    ensures { result.now ≡ week_at weeks.now done }
{
    &weeks[weeks.len() - 1 - done as usize]
}

/// A value by the weeks done, the place of a summary's row and the place of a list of stocks.
fn value_at(weeks: &[Week], width: usize, done: u32, row: usize, place: usize) -> i64
    requires done { done < length weeks.now }
    requires row { (row + 1) * width ≤ length (week_at weeks.now done).values }
    requires place { place < width }
    ensures { result ≡ get_or (row_at width (week_at weeks.now done).values row) place (pos 0) }
{
    row_of(week_of(weeks, done).values(), width, row)[place]
}

/// A choice by the same.
fn choice_at(weeks: &[Week], width: usize, done: u32, row: usize, place: usize) -> u8
    requires done { done < length weeks.now }
    requires row { (row + 1) * width ≤ length (week_at weeks.now done).choices }
    requires place { place < width }
    ensures { result ≡ get_or (row_at width (week_at weeks.now done).choices row) place 0 }
{
    row_of(week_of(weeks, done).choices(), width, row)[place]
}

/// What all stores together can earn at most from each live summary and list of stocks on, rounded down each week and rounded up
/// each week, and the least rung that attains the value rounded down. It is seen as the list with an entry for each live summary,
/// by the weeks done and then in the order of summaries.
#[derive(Drop)]
pub struct Joint {
    live: Live,
    units: Vec<u32>,
    width: usize,
    lows: Vec<Week>,
    tops: Vec<Week>,
}

impl Model for Joint {
    ghost use Rattle.std.specs.Prelude.{List};
    ghost use Rattle.clr_joint.specs.Rows.{IsKept, entries_of};
    ghost use Rattle.clr_joint.specs.Tables.{Entry};

    ghost Value = { List Entry };

    ghost view = { λ t. entries_of t.live t.units.items t.width t.lows.items t.tops.items };

    ghost invariant = { λ t. IsKept t.live t.units.items t.width t.lows.items t.tops.items };
}

impl Joint {
    /// The table of a season in which some path obeys and that is small enough for it. `live` is of the season.
    ///
    /// No policy that keeps the rules earns more than the table's value rounded up at the opening. The policy that takes the table's
    /// choice at each node keeps the rules and earns at least the value rounded down there. The two lie at most a unit apart for
    /// each week, and so no policy that keeps the rules earns more than the table's one and a unit for each week.
    ///
    /// # Errors
    /// Where memory is wanting.
    pub fn build(alloc: Global, season: &Season, live: &Live) -> Result<Joint, AllocError>
        requires live { live.now ≡ live_pairs season.now.rules }
        requires any { SomePathObeys season.now.rules }
        requires fits { IsTrue (fits season.now) }
        ensures table { IfOk result (λ joint. IsJointOf season.now joint) }
        ensures opening { IfOk result (λ joint. opening joint ≡ (joint_low season.now, joint_top season.now)) }
        ensures first { IfOk result (λ joint. at_stocks (choices_of joint 0 (summary season.now.rules [])) (full_stocks season.now) 0 ≡ joint_rung_at season.now [] (full_stocks season.now)) }
        ensures tops { IfOk result (λ joint. Tops season.now (opening joint).1) }
        ensures encloses { IfOk result (λ joint. IsEnclosed season.now joint) }
        ensures close { IfOk result (λ joint. (opening joint).1 ≤ℤ ((opening joint).0 +ℤ pos season.now.rules.weeks)) }
        ensures near_best { IfOk result (λ _. IsNearBest season.now) }
    {
        let units = opening_units(alloc, season)?;
        let width = count_lists(&units);
        let lows = weeks::<Down>(alloc, season, live, width)?;
        let tops = weeks::<Up>(alloc, season, live, width)?;
        Ok(Joint {
            live: live.copy(alloc)?,
            units,
            width,
            lows,
            tops,
        })
    }

    /// The values at a live summary after `done` weeks with these stocks, one for each store: rounded down, and rounded up.
    pub fn at(&self, done: u32, s: Summary, stocks: &[u32]) -> (i64, i64)
        requires entry { IsAmong (table_pairs self.now) done s }
        requires stocks { HasStocks (values_of self.now done s) stocks.now }
        ensures value { result ≡ at_stocks (values_of self.now done s) stocks.now (pos 0, pos 0) }
        ensures low_size { IsWithin 1000000000000000000 result.0 }
        ensures top_size { IsWithin 1000000000000000000 result.1 }
    {
        let row = self.live.find(done, s).unwrap_or(0) as usize;
        let place = place_of_stocks(&self.units, stocks);
        let low = value_at(&self.lows, self.width, done, row, place);
        let top = value_at(&self.tops, self.width, done, row, place);
        (low, top)
    }

    /// The rung that is chosen at a live summary after `done` weeks with these stocks, one for each store, where a week is to come.
    pub fn choice(&self, done: u32, s: Summary, stocks: &[u32]) -> u32
        requires entry { IsAmong (table_pairs self.now) done s }
        requires stocks { HasStocks (choices_of self.now done s) stocks.now }
        ensures { result ≡ at_stocks (choices_of self.now done s) stocks.now 0 }
    {
        let row = self.live.find(done, s).unwrap_or(0) as usize;
        let place = place_of_stocks(&self.units, stocks);
        u32::from(choice_at(&self.lows, self.width, done, row, place))
    }

    /// The value rounded down before the first week at full stocks.
    pub fn low(&self) -> i64
        ensures value { result ≡ (opening self.now).0 }
        ensures size { IsWithin 1000000000000000000 result }
    {
        value_at(&self.lows, self.width, 0, 0, self.width - 1)
    }

    /// The value rounded up before the first week at full stocks.
    pub fn top(&self) -> i64
        ensures value { result ≡ (opening self.now).1 }
        ensures size { IsWithin 1000000000000000000 result }
    {
        value_at(&self.tops, self.width, 0, 0, self.width - 1)
    }
}
