// The values and the choices of a small season at each live summary and stock, worked by hand.
ghost use Rattle.clr_joint.specs.Tables.{IsJointOf};
ghost use Rattle.clr_rules.specs.LiveSummaries.{live_pairs};
ghost use Rattle.clr_season.specs.Season.{IsSeason};
ghost use Rattle.std.specs.Prelude.{◌≡◌};

use crate::asks::{Ask, assert_answers, count};
use crate::reads::{choice_at, values_at};
use clr_joint::Joint;
use clr_rules::{Live, Summary};
use clr_season::Season;
use std::test::Fail;

// The weeks done, the summary, the stock, the two values, which are equal, and the choice where a week is to come. The summary is that
// before the first week and after weeks on rung 1, or that after a week on rung 2. On rung 1 in week 2 a unit earns (0 + 10.00) / 2; on
// rung 2 it earns 4.00, and two units 8.00.
const CASES: &str = "late free: done 2 last 1 count 0 age 1 stock 0 value 0 no choice
late free: done 2 last 1 count 0 age 1 stock 1 value 0 no choice
late free: done 2 last 1 count 0 age 1 stock 2 value 0 no choice
late free: done 2 last 2 count 1 age 1 stock 0 value 0 no choice
late free: done 2 last 2 count 1 age 1 stock 1 value 0 no choice
late free: done 2 last 2 count 1 age 1 stock 2 value 0 no choice
late free: done 1 last 1 count 0 age 1 stock 0 value 0 choice 1
late free: done 1 last 1 count 0 age 1 stock 1 value 500000000 choice 1
late free: done 1 last 1 count 0 age 1 stock 2 value 800000000 choice 2
late free: done 1 last 2 count 1 age 1 stock 0 value 0 choice 2
late free: done 1 last 2 count 1 age 1 stock 1 value 400000000 choice 2
late free: done 1 last 2 count 1 age 1 stock 2 value 800000000 choice 2
late free: done 0 last 1 count 0 age 1 stock 0 value 0 choice 1
late free: done 0 last 1 count 0 age 1 stock 1 value 750000000 choice 1
late free: done 0 last 1 count 0 age 1 stock 2 value 1150000000 choice 1";

// Whether the choice at a place is that of the list, or none where the list is empty.
fn is_choice(found: Option<u32>, choice: &[i64]) -> bool {
    match (found, choice) {
        (None, []) => true,
        (Some(rung), [want]) => i64::from(rung) == *want,
        _ => false,
    }
}

/// Whether the table of all stores has these values and this choice at this place.
pub fn is_place(season: &Season, live: &Live, joint: &Joint, numbers: &[i64]) -> bool
    requires facts { IsSeason season.now }
    requires live { live.now ≡ live_pairs season.now.rules }
    requires table { IsJointOf season.now joint.now }
{
    let [done, last, markdowns, age, stock, value, choice @ ..] = numbers else {
        return false;
    };
    let done = count(done);
    let s = Summary {
        last: count(last),
        count: count(markdowns),
        age: count(age),
    };
    let stocks = [count(stock)];
    is_choice(choice_at(season, live, joint, done, s, &stocks), choice)
        && values_at(season, live, joint, done, s, &stocks) == Some((*value, *value))
}

#[test]
fn each_place_has_its_values_and_choice(rt: HostRuntime) -> Result<(), Fail> {
    assert_answers(&rt, rt.alloc(), Ask::Place, CASES)
}
