// The table of a season, and what it gives at a summary and a list of stocks, where the season has both.
ghost use Rattle.clr_joint.specs.Tables.{IsJointOf};
ghost use Rattle.clr_model.specs.Revenue.{full_stocks};
ghost use Rattle.clr_model.specs.StoreValue.{AreStocks};
ghost use Rattle.clr_rules.specs.LiveSummaries.{live_pairs};
ghost use Rattle.clr_season.specs.Season.{IsSeason};
ghost use Rattle.std.specs.Prelude.{◌≡◌, ℕ, ◌≤◌, get_or, length, IfOk, IfSome, IsTrue};

use clr_joint::Joint;
use clr_model::fits;
use clr_rules::{Live, Summary};
use clr_season::Season;
use std::alloc::{AllocError, Global};

// Whether no stock is greater than what its store opens with.
fn are_held(season: &Season, stocks: &[u32]) -> bool
    requires { length stocks.now ≡ length season.now.stores }
    ensures { IsTrue result → (i : ℕ) → get_or stocks.now i 0 ≤ get_or (full_stocks season.now) i 0 }
{
    for index in 0..season.stores() {
        if stocks[index as usize] > season.stock(index + 1) {
            return false;
        }
    }
    true
}

// Whether these are stocks that the stores may have, one for each.
fn are_stocks(season: &Season, stocks: &[u32]) -> bool
    ensures { IsTrue result → AreStocks season.now stocks.now }
{
    stocks.len() == season.stores() as usize && are_held(season, stocks)
}

/// The table of a season, where some path obeys and it is small enough.
pub fn table(alloc: Global, season: &Season, live: &Live) -> Result<Option<Joint>, AllocError>
    requires facts { IsSeason season.now }
    requires live { live.now ≡ live_pairs season.now.rules }
    ensures { IfOk result (λ some. IfSome some (λ joint. IsJointOf season.now joint)) }
{
    if live.any() && fits(season) {
        Ok(Some(Joint::build(alloc, season, live)?))
    } else {
        Ok(None)
    }
}

/// The two values.
pub fn values_at(
    season: &Season,
    live: &Live,
    joint: &Joint,
    done: u32,
    s: Summary,
    stocks: &[u32],
) -> Option<(i64, i64)>
    requires facts { IsSeason season.now }
    requires live { live.now ≡ live_pairs season.now.rules }
    requires table { IsJointOf season.now joint.now }
{
    if live.has(done, s) && are_stocks(season, stocks) {
        Some(joint.at(done, s, stocks))
    } else {
        None
    }
}

/// The choice, where a week is to come.
pub fn choice_at(
    season: &Season,
    live: &Live,
    joint: &Joint,
    done: u32,
    s: Summary,
    stocks: &[u32],
) -> Option<u32>
    requires facts { IsSeason season.now }
    requires live { live.now ≡ live_pairs season.now.rules }
    requires table { IsJointOf season.now joint.now }
{
    if done < season.weeks() && live.has(done, s) && are_stocks(season, stocks) {
        Some(joint.choice(done, s, stocks))
    } else {
        None
    }
}
