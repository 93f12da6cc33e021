// What a store earns in a week.
ghost use Rattle.clr_average.specs.Average.{IsWithin};
ghost use Rattle.clr_model.specs.PathValue.{weighed};
ghost use Rattle.clr_model.specs.Revenue.{cent, earn, fee};
ghost use Rattle.clr_model.specs.Weights.{AreWeights};
ghost use Rattle.clr_rules.specs.Rules.{price};
ghost use Rattle.clr_season.specs.Season.{IsPlace, store_at};
ghost use Rattle.std.specs.Prelude.{◌≡◌, ℕ, ◌≤◌, ◌+◌, ◌*◌, pos, length, get_or, EachIndex};

use clr_average::{average_values, lower_values};
use clr_num::Direction;
use clr_season::Season;

/// The units of value in one cent.
pub const CENT: u64 = 1_000_000;

/// What a unit that is sold on a rung, counted from 1, earns: its price, in units of value.
pub fn unit_gain(season: &Season, rung: u32) -> u64
    requires low { 1 ≤ rung }
    requires high { rung ≤ length season.now.rules.prices }
    ensures value { result ≡ cent * price season.now.rules rung }
    ensures range { result ≤ 10000000000000 }
{
    CENT * season.price(rung)
}

/// What a store, counted from 1, pays for a rung after another, in units of value: its cost of relabelling where the two
/// differ, and nothing where they don't.
pub fn relabelling(season: &Season, store: u32, before: u32, rung: u32) -> u64
    requires low { 1 ≤ store }
    requires high { store ≤ length season.now.stores }
    ensures value { result ≡ cent * fee season.now store before rung }
    ensures range { result ≤ 10000000000000 }
{
    if rung == before {
        0
    } else {
        CENT * season.relabel(store)
    }
}

/// What a store earns in a week, in units of value: the lesser of the stock and the demand at the rung's price, less the cost
/// of relabelling where the rung isn't `before`, that of the week before.
///
/// Stores and rungs are counted from 1. The stock is at most what the store opens with, and the demand at most the greatest
/// that the season lists.
pub fn gain(season: &Season, store: u32, before: u32, rung: u32, stock: u32, demand: u32) -> i64
    requires low { 1 ≤ store }
    requires high { store ≤ length season.now.stores }
    requires before { (1 ≤ before) × (before ≤ length season.now.rules.prices) }
    requires rung { (1 ≤ rung) × (rung ≤ length season.now.rules.prices) }
    requires stock { stock ≤ (store_at season.now store).units }
    requires demand { demand ≤ season.now.top }
    ensures value { result ≡ earn season.now store before rung stock demand }
    ensures size { IsWithin 20000000000000000 result }
{
    prove!(demand <= season.top());
    let sold = stock.min(demand);
    let earned = unit_gain(season, rung) * u64::from(sold);
    earned as i64 - relabelling(season, store, before, rung) as i64
}

/// The weights up to the last positive one.
fn listed(weights: &[u32]) -> &[u32]
    ensures size { length result.now ≤ length weights.now }
    ensures each { (demand : ℕ) → get_or result.now demand 0 ≡ get_or weights.now demand 0 }
{
    let mut count = weights.len();
    while count > 0 && weights[count - 1] == 0 {
        count -= 1;
    }
    &weights[..count]
}

/// A store's weights in a week on a rung, by demand from 0 to the greatest that weighs anything.
fn listed_weights(season: &Season, store: u32, week: u32, rung: u32) -> &[u32]
    requires { IsPlace season.now store week rung }
    ensures { AreWeights season.now store week rung result.now }
{
    listed(season.weights(store, week, rung))
}

/// Writes a store's values after `done` weeks at the stocks from 0 up, in units of value, for a rung in the next week: each is
/// the average over the week's demands of what the store earns and the value of what is left, rounded in the direction `R`. It
/// is a week of docs/model.md, "The value of a path".
///
/// Stores and rungs are counted from 1, and `before` is the rung of the week before; where it is the same, nothing is paid for
/// relabelling. `after` has the values after the week at the same stocks, and `reach` is a size that none of them passes.
pub fn average_week<R: Direction>(
    season: &Season,
    store: u32,
    done: u32,
    before: u32,
    rung: u32,
    after: &[i64],
    reach: u64,
    out: &mut [i64],
)
    requires place { IsPlace season.now store (done + 1) rung }
    requires lengths { length after.now ≡ length out.old }
    requires size { length after.now ≤ 2001 }
    requires reach { reach ≤ 1000000000000000000 }
    requires values { EachIndex after.now (λ k. IsWithin reach (get_or after.now k (pos 0))) }
    ensures { EachIndex out.new (λ x. get_or out.new x (pos 0) ≡ R.quotient (weighed season.now store done before rung x (λ rest. get_or after.now rest (pos 0))) season.now.base) }
{
    let base = season.base();
    let weights = listed_weights(season, store, done + 1, rung);
    let unit = unit_gain(season, rung);
    let cost = relabelling(season, store, before, rung);
    average_values::<R>(weights, base, unit, after, reach, out);
    lower_values(out, cost);
}
