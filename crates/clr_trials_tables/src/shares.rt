// The usage with nothing paid: small seasons worked by hand.
ghost use Rattle.clr_mult.specs.Tables.{mult_at};
ghost use Rattle.clr_num.specs.Rounding.{ceil};
ghost use Rattle.clr_rules.specs.FirstPath.{SomePathObeys};
ghost use Rattle.clr_rules.specs.LiveSummaries.{live_pairs};
ghost use Rattle.clr_storedp.specs.Tables.{AreOfSeason, AreTablesOf};
ghost use Rattle.std.specs.Prelude.{◌≡◌, length};

use crate::asks::{Ask, assert_answers, count};
use clr_mult::{Mult, Usage};
use clr_num::Up;
use clr_rules::Live;
use clr_season::Season;
use clr_storedp::StoreTable;
use clr_subgrad::usage;
use std::alloc::{AllocError, Global};
use std::test::Fail;

// A store, a week, a rung, and its usage in parts of a million.
const CASES: &str =
    "# The first store takes rung 1, for 10.00, and the second, which sells nothing there, rung 2.
both free: store 1 week 1 rung 1 usage 1000000
both free: store 1 week 1 rung 2 usage 0
both free: store 2 week 1 rung 1 usage 0
both free: store 2 week 1 rung 2 usage 1000000
# The store takes rung 1 in week 1, and half of the mass sells a unit there. In week 2 it takes rung 2 with two units, for
# 8.00, and rung 1 with one, for 5.00.
late free: store 1 week 1 rung 1 usage 1000000
late free: store 1 week 1 rung 2 usage 0
late free: store 1 week 2 rung 1 usage 500000
late free: store 1 week 2 rung 2 usage 500000
# Thirds are rounded down in each week: 333333 and 666666 of 1000000, then 111111 and 222222 of 333333, and 222222 and
# 444444 of 666666. The two that reach a stock of 2 are added.
weeks of thirds: store 1 week 1 rung 1 usage 1000000
weeks of thirds: store 1 week 2 rung 1 usage 999999
weeks of thirds: store 1 week 3 rung 1 usage 999999";

// A store's usage of a rung in a week, where the season has these.
fn share(season: &Season, used: &Usage, store: u32, week: u32, rung: u32) -> Option<u32>
    requires stores { used.now.stores ≡ length season.now.stores }
    requires weeks { used.now.weeks ≡ season.now.rules.weeks }
    requires rungs { used.now.rungs ≡ length season.now.rules.prices }
{
    if store < 1 || store > season.stores() || week < 1 || week > season.weeks() {
        return None;
    }
    if rung < 1 || rung > season.rungs() {
        return None;
    }
    Some(used.at(store, week, rung))
}

/// Whether a store's usage of a rung in a week is this.
pub fn is_share(
    alloc: Global,
    season: &Season,
    live: &Live,
    mult: &Mult,
    tables: &[StoreTable<Up>],
    numbers: &[i64],
) -> Result<bool, AllocError>
    requires live { live.now ≡ live_pairs season.now.rules }
    requires any { SomePathObeys season.now.rules }
    requires mult { AreOfSeason season.now mult.now }
    requires tables { AreTablesOf ceil (mult_at mult.now) season.now tables.now }
{
    let [store, week, rung, mass] = numbers else {
        return Ok(false);
    };
    let used = usage(alloc, season, live, mult, tables)?;
    let share = share(season, &used, count(store), count(week), count(rung));
    Ok(share == Some(count(mass)))
}

#[test]
fn masses_are_counted_by_choice(rt: HostRuntime) -> Result<(), Fail> {
    assert_answers(&rt, rt.alloc(), Ask::Usage, CASES)
}
