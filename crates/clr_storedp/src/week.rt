// One week of a store's table.
ghost use Rattle.std.specs.Prelude.{◌≡◌, ℕ, suc, ◌≤◌, ◌<◌, ◌+◌, ◌*◌, pos, ◌*ℤ◌, length, get_or, IfOk};
ghost use Rattle.clr_model.specs.Revenue.{cent, salvage_cents};
ghost use Rattle.clr_mult.specs.Tables.{mult_at};
ghost use Rattle.clr_rules.specs.LiveSummaries.{live_pairs};
ghost use Rattle.clr_season.specs.Season.{IsSeason, store_at};
ghost use Rattle.clr_storedp.specs.Tables.{AreOfSeason, AreSmall};
ghost use Rattle.clr_storedp.specs.Weeks.{IsWeek};

use crate::average::average_rows;
use crate::payment::Payment;
use clr_model::CENT;
use clr_mult::Mult;
use clr_num::Direction;
use clr_rows::{Week, best_rows, end_rows, week_list};
use clr_rules::Live;
use clr_season::Season;
use std::alloc::{AllocError, Global};

/// What each stock from 0 up is worth at the end.
fn end_row(alloc: Global, season: &Season, store: u32, width: usize) -> Result<Vec<i64>, AllocError>
    requires low { 1 ≤ store }
    requires high { store ≤ length season.now.stores }
    requires size { width ≤ 2001 }
    ensures size { IfOk result (λ row. length row.items ≡ width) }
    ensures values { IfOk result (λ row. (stock : ℕ) → stock < width → get_or row.items stock (pos 0) ≡ pos cent *ℤ salvage_cents season.now store stock) }
{
    let unit = CENT * season.salvage(store);
    let mut row = Vec::with_capacity(alloc, width)?;
    for stock in 0..width {
        row.push((unit * stock as u64) as i64)?;
    }
    Ok(row)
}

/// The rows at the end of the season: what each stock is worth, whatever the summary.
pub fn end_week<R: Direction>(
    alloc: Global,
    season: &Season,
    live: &Live,
    mult: &Mult,
    store: u32,
    width: usize,
) -> Result<Week, AllocError>
    requires season { IsSeason season.now }
    requires low { 1 ≤ store }
    requires high { store ≤ length season.now.stores }
    requires live { live.now ≡ live_pairs season.now.rules }
    requires mult { AreOfSeason season.now mult.now }
    requires small { AreSmall mult.now }
    requires width { width ≡ suc (store_at season.now store).units }
    ensures { IfOk result (λ week. IsWeek R.quotient (mult_at mult.now) season.now store width season.now.rules.weeks week) }
{
    let row = end_row(alloc, season, store, width)?;
    end_rows(alloc, season.rules(), live, &row)
}

/// The rows of a week from those of the week after it.
pub fn earlier_week<R: Direction>(
    alloc: Global,
    season: &Season,
    live: &Live,
    mult: &Mult,
    store: u32,
    done: u32,
    width: usize,
    after: &Week,
) -> Result<Week, AllocError>
    requires season { IsSeason season.now }
    requires low { 1 ≤ store }
    requires high { store ≤ length season.now.stores }
    requires early { done < season.now.rules.weeks }
    requires live { live.now ≡ live_pairs season.now.rules }
    requires mult { AreOfSeason season.now mult.now }
    requires small { AreSmall mult.now }
    requires width { width ≡ suc (store_at season.now store).units }
    requires after { IsWeek R.quotient (mult_at mult.now) season.now store width (suc done) after.now }
    ensures { IfOk result (λ week. IsWeek R.quotient (mult_at mult.now) season.now store width done week) }
{
    let next = week_list(alloc, live, done + 1)?;
    let averages = average_rows::<R>(alloc, season, store, done, width, &next, after.values())?;
    let list = week_list(alloc, live, done)?;
    let payment = Payment {
        season,
        mult,
        store,
        done,
    };
    best_rows(
        alloc,
        season.rules(),
        live,
        &payment,
        done,
        width,
        &list,
        &averages,
    )
}
