// What each store can earn where the stores are free to part and no multiplier is paid, and the sum over the stores: small
// seasons with and without a cost of relabelling, worked by hand.
ghost use Rattle.clr_mult.specs.Tables.{mult_at};
ghost use Rattle.clr_num.specs.Rounding.{ceil};
ghost use Rattle.clr_rules.specs.FirstPath.{SomePathObeys};
ghost use Rattle.clr_rules.specs.LiveSummaries.{live_pairs};
ghost use Rattle.clr_season.specs.Season.{IsSeason};
ghost use Rattle.clr_storedp.specs.Tables.{AreOfSeason, AreSmall, AreTablesOf};
ghost use Rattle.std.specs.Prelude.{◌≡◌};

use crate::asks::{Ask, assert_answers};
use clr_mult::Mult;
use clr_num::{Direction, Down, Up};
use clr_rules::{Live, Summary};
use clr_season::Season;
use clr_storedp::{StoreTable, bound};
use std::alloc::{AllocError, Global};
use std::test::Fail;

// The bound, and the values of the first store after one week on rung 1, at the stocks from 0 up, in units: rounded up, and then down.
const CASES: &str =
    "# 10.00 on rung 1, and 6.00 on rung 2. What is left after the week is worth nothing.
both free: bound 1600000000 up 0 0 down 0 0
# A cost of 1.00: 10.00 on rung 1 without it, and 6.00 - 1.00 on rung 2.
both 1.00: bound 1500000000 up 0 0 down 0 0
# In week 2 one unit earns 5.00 on rung 1 and 4.00 on rung 2, and two earn 8.00 on rung 2. On rung 1 in week 1:
# (8.00 + 10.00 + 5.00) / 2
late free: bound 1150000000 up 0 500000000 800000000 down 0 500000000 800000000
# A cost of 0.50: 5.00 and 4.00 - 0.50, and 8.00 - 0.50. On rung 1 in week 1: (7.50 + 10.00 + 5.00) / 2
late 0.50: bound 1125000000 up 0 500000000 750000000 down 0 500000000 750000000
# Two thirds of 10.00 in week 2, and in week 1 as much again
weeks of thirds: bound 1333333334 up 0 666666667 666666667 666666667 down 0 666666666 666666666 666666666";

// Whether these are the values of the first store after one week on rung 1, rounded in the direction `R`.
fn is_first_row<R: Direction>(
    alloc: Global,
    season: &Season,
    live: &Live,
    mult: &Mult,
    values: &[i64],
) -> Result<bool, AllocError>
    requires live { live.now ≡ live_pairs season.now.rules }
    requires any { SomePathObeys season.now.rules }
    requires facts { IsSeason season.now }
    requires mult { AreOfSeason season.now mult.now }
    requires small { AreSmall mult.now }
{
    let table = StoreTable::<R>::build(alloc, season, live, mult, 1)?;
    let on_rung_1 = Summary {
        last: 1,
        count: 0,
        age: 1,
    };
    Ok(live.has(1, on_rung_1) && table.row(1, on_rung_1) == values)
}

/// Whether all stores together have this bound, and the first store these values.
pub fn is_bounded(
    alloc: Global,
    season: &Season,
    live: &Live,
    mult: &Mult,
    tables: &[StoreTable<Up>],
    numbers: &[i64],
) -> Result<bool, AllocError>
    requires live { live.now ≡ live_pairs season.now.rules }
    requires any { SomePathObeys season.now.rules }
    requires facts { IsSeason season.now }
    requires mult { AreOfSeason season.now mult.now }
    requires small { AreSmall mult.now }
    requires tables { AreTablesOf ceil (mult_at mult.now) season.now tables.now }
{
    let [least, rows @ ..] = numbers else {
        return Ok(false);
    };
    let (up, down) = rows.split_at(rows.len() / 2);
    if bound(season, mult, tables) != i128::from(*least) {
        return Ok(false);
    }
    Ok(
        is_first_row::<Up>(alloc, season, live, mult, up)?
            && is_first_row::<Down>(alloc, season, live, mult, down)?,
    )
}

#[test]
fn free_stores_earn_their_bound(rt: HostRuntime) -> Result<(), Fail> {
    assert_answers(&rt, rt.alloc(), Ask::Bound, CASES)
}
