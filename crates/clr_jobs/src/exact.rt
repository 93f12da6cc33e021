// The table for the stocks of all stores.
ghost use Rattle.std.specs.Prelude.{◌≡◌, ◌↔◌, [], IfOk, IfSome, IsSome, IsTrue};
ghost use Rattle.clr_average.specs.Average.{IsWithin};
ghost use Rattle.clr_joint.specs.Tables.{IsJointOf, at_stocks, choices_of, opening};
ghost use Rattle.clr_model.specs.Fits.{fits};
ghost use Rattle.clr_model.specs.Revenue.{full_stocks};
ghost use Rattle.clr_report.specs.PlanText.{IsExactOf};
ghost use Rattle.clr_rules.specs.FirstPath.{SomePathObeys};
ghost use Rattle.clr_rules.specs.LiveSummaries.{live_pairs};
ghost use Rattle.clr_rules.specs.Rules.{summary};
ghost use Rattle.clr_season.specs.Season.{IsSeason};
ghost use Rattle.clr_jobs.specs.Held.{IfJoint};
ghost use Rattle.clr_jobs.specs.Plans.{IsExactSound, exact_of};

use clr_joint::Joint;
use clr_model::fits;
use clr_rules::Live;
use clr_season::Season;
use std::alloc::{AllocError, Global};

// The units that the stores open with, in order.
fn opening_stocks(alloc: Global, season: &Season) -> Result<Vec<u32>, AllocError>
    ensures { IfOk result (λ stocks. stocks.items ≡ full_stocks season.now) }
{
    let stores = season.stores();
    let mut stocks = Vec::with_capacity(alloc, stores as usize)?;
    for index in 0..stores {
        stocks.push(season.stock(index + 1))?;
    }
    Ok(stocks)
}

// The values of a table before the first week at full stocks, rounded down and up, and the rung that it puts there.
fn opening_values(
    alloc: Global,
    season: &Season,
    joint: &Joint,
) -> Result<(i128, i128, u32), AllocError>
    requires facts { IsSeason season.now }
    requires any { SomePathObeys season.now.rules }
    requires table { IsJointOf season.now joint.now }
    ensures low { IfOk result (λ values. values.0 ≡ (opening joint.now).0) }
    ensures top { IfOk result (λ values. values.1 ≡ (opening joint.now).1) }
    ensures first { IfOk result (λ values. values.2 ≡ at_stocks (choices_of joint.now 0 (summary season.now.rules [])) (full_stocks season.now) 0) }
    ensures low_size { IfOk result (λ values. IsWithin 100000000000000000000 values.0) }
    ensures top_size { IfOk result (λ values. IsWithin 100000000000000000000 values.1) }
{
    let stocks = opening_stocks(alloc, season)?;
    let first = joint.choice(0, season.rules().start(), &stocks);
    Ok((i128::from(joint.low()), i128::from(joint.top()), first))
}

/// The table for the stocks of all stores and its values before the first week at full stocks: rounded down, rounded up, and
/// the rung that it puts there. Both are there where the season is small enough for them.
#[derive(Drop)]
pub(crate) struct Exact {
    pub joint: Option<Joint>,
    pub values: Option<(i128, i128, u32)>,
}

/// The table for the stocks of all stores, where the season is small enough for one, and its values.
pub(crate) fn exact_table(alloc: Global, season: &Season, live: &Live) -> Result<Exact, AllocError>
    requires facts { IsSeason season.now }
    requires live { live.now ≡ live_pairs season.now.rules }
    requires any { SomePathObeys season.now.rules }
    ensures joint { IfOk result (λ exact. IsTrue (fits season.now) → IfJoint exact.joint (IsJointOf season.now)) }
    ensures value { IfOk result (λ exact. exact.values ≡ exact_of season.now) }
    ensures sound { IfOk result (λ exact. IfSome exact.values (λ values. IsExactSound season.now values.0 values.1)) }
    ensures told { IfOk result (λ exact. IfSome exact.values (IsExactOf season.now)) }
    ensures fit { IfOk result (λ exact. IsTrue (fits season.now) ↔ IsSome exact.values) }
{
    if !fits(season) {
        return Ok(Exact {
            joint: None,
            values: None,
        });
    }
    let joint = Joint::build(alloc, season, live)?;
    let values = opening_values(alloc, season, &joint)?;
    Ok(Exact {
        joint: Some(joint),
        values: Some(values),
    })
}
