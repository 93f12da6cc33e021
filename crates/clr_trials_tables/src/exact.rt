// What all stores together earn at most before the first week, and the first rung: small seasons worked by hand.
ghost use Rattle.clr_joint.specs.Tables.{IsJointOf};
ghost use Rattle.clr_rules.specs.LiveSummaries.{live_pairs};
ghost use Rattle.clr_season.specs.Season.{IsSeason};
ghost use Rattle.std.specs.Prelude.{◌≡◌};

use crate::asks::{Ask, assert_answers, count, counts_of};
use crate::reads::choice_at;
use clr_joint::Joint;
use clr_rules::Live;
use clr_season::Season;
use std::alloc::{AllocError, Global};
use std::test::Fail;

// The two values in units, the first rung, and the full stocks.
const CASES: &str = "# (3 * 10.00 + 1 * 2.00) / 4
quarters one: low 800000000 top 800000000 rung 1 stocks 1
# (2 * 10.00 + 1 * 2.00) / 3
thirds: low 733333333 top 733333334 rung 1 stocks 1
# Rung 1 in week 1, and in week 2 rung 1 where one unit is left and rung 2 where two are: (8.00 + 10.00 + 5.00) / 2
late free: low 1150000000 top 1150000000 rung 1 stocks 2
# 10.00 of one store on rung 1, and 6.00 of each on rung 2.
both free: low 1200000000 top 1200000000 rung 2 stocks 1 1
# With a cost of 0.50: (8.00 - 0.50 + 10.00 + 5.00) / 2
late 0.50: low 1125000000 top 1125000000 rung 1 stocks 2
# Rung 2 alone is allowed, and costs 3.00.
forced: low -300000000 top -300000000 rung 2 stocks 0
# Two stores with unlike weights. On rung 1 the first earns 10.00 * 2 / 3 and the other (10.00 + 2 * 4.00) / 3, together 38.00 / 3; on
# rung 2 they earn 6.00 + 4.00.
unlike: low 1266666666 top 1266666667 rung 1 stocks 1 1
# Both stores pay for rung 2: 6.00 - 0.25 and 6.00 - 0.50, against 10.00 on rung 1.
both 0.25: low 1125000000 top 1125000000 rung 2 stocks 1 1
# Of two rungs that earn the same the lesser one is taken.
equal: low 0 top 0 rung 1 stocks 1";

/// Whether the table of all stores opens with these two values, and this choice at these stocks.
pub fn opens_with(
    alloc: Global,
    season: &Season,
    live: &Live,
    joint: &Joint,
    numbers: &[i64],
) -> Result<bool, AllocError>
    requires facts { IsSeason season.now }
    requires live { live.now ≡ live_pairs season.now.rules }
    requires table { IsJointOf season.now joint.now }
{
    let [low, top, rung, stocks @ ..] = numbers else {
        return Ok(false);
    };
    let stocks = counts_of(alloc, stocks)?;
    let first = choice_at(season, live, joint, 0, season.rules().start(), &stocks);
    Ok(joint.low() == *low && joint.top() == *top && first == Some(count(rung)))
}

#[test]
fn small_chains_earn_their_exact_values(rt: HostRuntime) -> Result<(), Fail> {
    assert_answers(&rt, rt.alloc(), Ask::Opening, CASES)
}
