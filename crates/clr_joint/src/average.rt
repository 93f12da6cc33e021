// The averages of one week, one for each summary after it and list of stocks.
ghost use Rattle.clr_joint.specs.BySummary.{average_into, by_place, summary_value};
ghost use Rattle.clr_model.specs.Stocks.{lists_of, place_in, stocks_at};
ghost use Rattle.clr_model.specs.Fits.{fits};
ghost use Rattle.clr_model.specs.JointWeek.{joint_base, joint_weighed};
ghost use Rattle.clr_model.specs.Revenue.{full_stocks};
ghost use Rattle.clr_season.specs.Season.{IsSeason};
ghost use Rattle.clr_rows.specs.Rows.{AreRows, AreWithin};
ghost use Rattle.clr_rows.specs.Summaries.{live_week};
ghost use Rattle.std.specs.Prelude.{◌≡◌, ℕ, suc, ◌<◌, ◌≤◌, ◌*◌, pos, length, get_or, IfOk, IsTrue};

use crate::fold::fold_row;
use clr_num::{Direction, Divisor};
use clr_rows::row_of;
use clr_rules::Summary;
use clr_season::Season;
use std::alloc::{AllocError, Global};

/// The base to the number of stores: what the chances of a week sum to.
fn base_of_all(season: &Season) -> Divisor
    requires { IsTrue (fits season.now) }
    ensures value { result ≡ joint_base season.now }
    ensures facts { IsSeason season.now }
{
    Divisor::new(u64::from(season.base()).pow(season.stores()))
}

/// For each list of stocks the average over a week's joint demands of what all stores earn on a rung and the value in `row` of what
/// is left, rounded in the direction `R`. Nothing is paid for relabelling.
fn average_row<R: Direction>(
    alloc: Global,
    season: &Season,
    done: u32,
    rung: u32,
    row: &[i64],
) -> Result<Vec<i64>, AllocError>
    requires fits { IsTrue (fits season.now) }
    requires early { done < season.now.rules.weeks }
    requires low { 1 ≤ rung }
    requires high { rung ≤ length season.now.rules.prices }
    requires size { length row.now ≡ lists_of (full_stocks season.now) }
    requires within { AreWithin 1000000000000000000 row.now }
    ensures size { IfOk result (λ averages. length averages.items ≡ length row.now) }
    ensures within { IfOk result (λ averages. AreWithin 2000000000000000000 averages.items) }
    ensures each { IfOk result (λ averages. (place : ℕ) → place < length row.now → get_or averages.items place (pos 0) ≡ R.quotient (joint_weighed season.now done rung rung (stocks_at (full_stocks season.now) place) (λ week rest. get_or row.now (place_in (full_stocks season.now) rest) (pos 0))) (joint_base season.now)) }
{
    let items = fold_row(alloc, season, done, rung, row)?;
    let base = base_of_all(season);
    let mut averages = Vec::with_capacity(alloc, items.len())?;
    for item in &items {
        averages.push(R::div_by(*item, &base) as i64)?;
    }
    Ok(averages)
}

/// For each live summary after a week, the averages over the week's joint demands of what all stores earn and of the values after it,
/// by lists of stocks. Nothing is paid for relabelling.
///
/// The last rung of a summary is that of the week which ends in it, so the average depends on the summary after the week alone
/// and is made once for all summaries before it.
pub fn average_rows<R: Direction>(
    alloc: Global,
    season: &Season,
    done: u32,
    width: usize,
    list: &[Summary],
    after: &[i64],
) -> Result<Vec<i64>, AllocError>
    requires season { IsSeason season.now }
    requires fits { IsTrue (fits season.now) }
    requires early { done < season.now.rules.weeks }
    requires width { width ≡ lists_of (full_stocks season.now) }
    requires list { list.now ≡ live_week season.now.rules (suc done) }
    requires after { AreRows (pos 0) width list.now (length list.now) (by_place season.now (summary_value R.quotient season.now (suc done))) after.now }
    requires within { AreWithin 1000000000000000000 after.now }
    ensures rows { IfOk result (λ rows. AreRows (pos 0) width list.now (length list.now) (by_place season.now (average_into R.quotient season.now done)) rows.items) }
    ensures within { IfOk result (λ rows. AreWithin 2000000000000000000 rows.items) }
{
    let mut rows = Vec::with_capacity(alloc, after.len())?;
    for (place, s) in list.iter().enumerate() {
        let row = row_of(after, width, place);
        let averages = average_row::<R>(alloc, season, done, s.last, row)?;
        rows.extend_from_slice(&averages)?;
    }
    Ok(rows)
}
