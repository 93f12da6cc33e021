// One week of a table of all stores.
ghost use Rattle.clr_model.specs.Stocks.{lists_of};
ghost use Rattle.clr_joint.specs.Weeks.{AreWeeks, IsWeek};
ghost use Rattle.clr_model.specs.Fits.{fits};
ghost use Rattle.clr_model.specs.Revenue.{full_stocks};
ghost use Rattle.clr_rules.specs.LiveSummaries.{live_pairs};
ghost use Rattle.clr_season.specs.Season.{IsSeason};
ghost use Rattle.std.specs.Prelude.{◌≡◌, suc, ◌<◌, IfOk, IsTrue};

use crate::average::average_rows;
use crate::end::end_row;
use crate::payment::Payment;
use clr_num::Direction;
use clr_rows::{Week, best_rows, end_rows, week_list};
use clr_rules::Live;
use clr_season::Season;
use std::alloc::{AllocError, Global};

/// The rows at the end of the season: what the stocks are worth, whatever the summary.
fn end_week<R: Direction>(alloc: Global, season: &Season, live: &Live) -> Result<Week, AllocError>
    requires fits { IsTrue (fits season.now) }
    requires season { IsSeason season.now }
    requires live { live.now ≡ live_pairs season.now.rules }
    ensures { IfOk result (λ week. IsWeek R.quotient season.now season.now.rules.weeks week) }
{
    let row = end_row(alloc, season)?;
    end_rows(alloc, season.rules(), live, &row)
}

/// The rows of a week from those of the week after it.
fn earlier_week<R: Direction>(
    alloc: Global,
    season: &Season,
    live: &Live,
    done: u32,
    width: usize,
    after: &Week,
) -> Result<Week, AllocError>
    requires fits { IsTrue (fits season.now) }
    requires season { IsSeason season.now }
    requires early { done < season.now.rules.weeks }
    requires live { live.now ≡ live_pairs season.now.rules }
    requires width { width ≡ lists_of (full_stocks season.now) }
    requires after { IsWeek R.quotient season.now (suc done) after.now }
    ensures { IfOk result (λ week. IsWeek R.quotient season.now done week) }
{
    let next = week_list(alloc, live, done + 1)?;
    let averages = average_rows::<R>(alloc, season, done, width, &next, after.values())?;
    let list = week_list(alloc, live, done)?;
    let payment = Payment { season };
    best_rows(
        alloc,
        season.rules(),
        live,
        &payment,
        done,
        width,
        &list,
        &averages,
    )
}

/// The rows of all weeks, from the end of the season back. `width` is the number of lists of stocks.
pub fn weeks<R: Direction>(
    alloc: Global,
    season: &Season,
    live: &Live,
    width: usize,
) -> Result<Vec<Week>, AllocError>
    requires fits { IsTrue (fits season.now) }
    requires live { live.now ≡ live_pairs season.now.rules }
    requires width { width ≡ lists_of (full_stocks season.now) }
    ensures { IfOk result (λ weeks. AreWeeks R.quotient season.now (suc season.now.rules.weeks) weeks.items) }
{
    let count = season.weeks();
    let mut weeks = Vec::with_capacity(alloc, count as usize + 1)?;
    weeks.push(end_week::<R>(alloc, season, live)?)?;
    for back in 0..count {
        let done = count - 1 - back;
        let after = &weeks[back as usize];
        let week = earlier_week::<R>(alloc, season, live, done, width, after)?;
        weeks.push(week)?;
    }
    Ok(weeks)
}
