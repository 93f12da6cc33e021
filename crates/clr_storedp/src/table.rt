// A store's table over the live summaries.
ghost use Rattle.std.specs.Prelude.{◌≡◌, ◌≤◌, ◌<◌, ◌+◌, pos, length, get_or, IfOk};
ghost use Rattle.clr_average.specs.Average.{IsWithin};
ghost use Rattle.clr_mult.specs.Tables.{mult_at};
ghost use Rattle.clr_rules.specs.FirstPath.{SomePathObeys};
ghost use Rattle.clr_rules.specs.LiveSummaries.{IsAmong, live_pairs};
ghost use Rattle.clr_rows.specs.Rows.{AreWithin};
ghost use Rattle.clr_storedp.specs.Tables.{AreOfSeason, AreSmall, IsTableOf, choices_of, table_pairs, values_of};

use crate::week::{earlier_week, end_week};
use clr_mult::Mult;
use clr_num::Direction;
use clr_rows::{Week, row_of};
use clr_rules::{Live, Summary};
use clr_season::Season;
use std::alloc::{AllocError, Global};
use std::marker::{Model, PhantomData};

/// What a store can earn at most, paid multipliers, from each live summary and stock on, and the least rung that attains it; each
/// week's average is rounded in the direction `R`. It is seen as the list with an entry for each live summary, by the weeks
/// done and then in the order of summaries.
#[derive(Drop)]
pub struct StoreTable<R: Direction> {
    live: Live,
    width: usize,
    weeks: Vec<Week>,
    direction: PhantomData<R>,
}

impl<R: Direction> Model for StoreTable<R> {
    ghost use Rattle.std.specs.Prelude.{List};
    ghost use Rattle.clr_rows.specs.Rows.{IsInside};
    ghost use Rattle.clr_storedp.specs.Rows.{entries_of};
    ghost use Rattle.clr_storedp.specs.Tables.{Entry};

    ghost Value = { List Entry };

    ghost view = { λ t. entries_of t.live t.width t.weeks.items };

    ghost invariant = { λ t. IsInside t.live t.width t.weeks.items };
}

impl<R: Direction> StoreTable<R> {
    /// The table of a store of the season under multipliers of at most 10^16 in size, where some path obeys. `live` is of
    /// the season.
    ///
    /// # Errors
    /// Where memory is wanting.
    pub fn build(
        alloc: Global,
        season: &Season,
        live: &Live,
        mult: &Mult,
        store: u32,
    ) -> Result<StoreTable<R>, AllocError>
        requires low { 1 ≤ store }
        requires high { store ≤ length season.now.stores }
        requires live { live.now ≡ live_pairs season.now.rules }
        requires any { SomePathObeys season.now.rules }
        requires mult { AreOfSeason season.now mult.now }
        requires small { AreSmall mult.now }
        ensures { IfOk result (λ table. IsTableOf R.quotient (mult_at mult.now) season.now store table) }
    {
        let count = season.weeks();
        let width = season.stock(store) as usize + 1;
        let mut weeks = Vec::with_capacity(alloc, count as usize + 1)?;
        weeks.push(end_week::<R>(alloc, season, live, mult, store, width)?)?;
        for back in 0..count {
            let done = count - 1 - back;
            let after = &weeks[back as usize];
            let week = earlier_week::<R>(alloc, season, live, mult, store, done, width, after)?;
            weeks.push(week)?;
        }
        Ok(StoreTable {
            live: live.copy(alloc)?,
            width,
            weeks,
            direction: PhantomData,
        })
    }

    /// A table has some entry.
    pub fn has_entries(&self)
        ensures { 0 < length self.now }
    {
        let _ = &self.width;
    }

    /// The values at a live summary after `done` weeks, at the stocks from 0 up.
    pub fn row(&self, done: u32, s: Summary) -> &[i64]
        requires { IsAmong (table_pairs self.now) done s }
        ensures values { result.now ≡ values_of self.now done s }
        ensures size { AreWithin 1000000000000000000 result.now }
    {
        let place = self.live.find(done, s).unwrap_or(0) as usize;
        let week = &self.weeks[self.weeks.len() - 1 - done as usize];
        row_of(week.values(), self.width, place)
    }

    /// The value at a live summary after `done` weeks with this stock.
    pub fn at(&self, done: u32, s: Summary, stock: u32) -> i64
        requires entry { IsAmong (table_pairs self.now) done s }
        requires stock { stock < length (values_of self.now done s) }
        ensures value { result ≡ get_or (values_of self.now done s) stock (pos 0) }
        ensures size { IsWithin 1000000000000000000 result }
    {
        self.row(done, s)[stock as usize]
    }

    /// The rungs that are chosen at a live summary after `done` weeks, where a week is to come, at the stocks from 0 up.
    pub fn choices(&self, done: u32, s: Summary) -> &[u8]
        requires entry { IsAmong (table_pairs self.now) done s }
        requires some { 0 < length (choices_of self.now done s) }
        ensures { result.now ≡ choices_of self.now done s }
    {
        let place = self.live.find(done, s).unwrap_or(0) as usize;
        let week = &self.weeks[self.weeks.len() - 1 - done as usize];
        row_of(week.choices(), self.width, place)
    }

    /// The rung that is chosen at a live summary after `done` weeks with this stock, where a week is to come.
    pub fn choice(&self, done: u32, s: Summary, stock: u32) -> u32
        requires entry { IsAmong (table_pairs self.now) done s }
        requires stock { stock < length (choices_of self.now done s) }
        ensures { result ≡ get_or (choices_of self.now done s) stock 0 }
    {
        u32::from(self.choices(done, s)[stock as usize])
    }
}
