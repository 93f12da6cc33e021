// The values of a policy for all lists of the stores' stocks.
ghost use Rattle.std.specs.Prelude.{◌≡◌, ℕ, suc, ◌≤◌, ◌<◌, ◌+◌, ◌-◌, ◌*◌, ℤ, pos, neg_ℤ, ◌+ℤ◌, ◌*ℤ◌, ◌≤ℤ◌, IfOk, OnOk, List, [], ◌∷◌, ◌++◌, length, nat_le, if◌then◌else◌};
ghost use Rattle.clr_policy.specs.Judged.{most_policy_size};
ghost use Rattle.clr_model.specs.Fits.{most_joint_base};
ghost use Rattle.clr_model.specs.JointValue.{end_value};
ghost use Rattle.clr_model.specs.JointWeek.{joint_base, joint_weighed};
ghost use Rattle.clr_model.specs.Revenue.{cent, full_stocks, of_store};
ghost use Rattle.clr_season.specs.Season.{IsSeason, store_at};
ghost use Rattle.clr_model.specs.Stocks.{lists_of, place_in};
ghost use Rattle.clr_policy.specs.StockLists.{AllWithin, AreValues, AreWithin, IsWeek, at_place, chosen, ends_from, most_gain, most_reach, reach_left, rows_of, stocks_from, with_more};
ghost use Rattle.clr_policy.specs.Unrolled.{tree_value, unroll};
ghost use Rattle.clr_policy.specs.Written.{IsPolicyFor, written};

use crate::policy::Policy;
use crate::stock_lists::{Week, weigh_stores};
use clr_model::CENT;
use clr_num::{Direction, Divisor};
use clr_season::Season;
use std::alloc::{AllocError, Global};

/// Adds a row of values, each with so much more.
fn push_row(values: &mut Vec<i128>, after: &[i128], more: u64) -> Result<(), AllocError>
    requires more { more ≤ most_gain }
    requires reach { AllWithin most_reach after.now }
    ensures { OnOk result (values.new.items ≡ values.old.items ++ with_more after.now (pos more)) }
{
    for value in after {
        values.push(*value + i128::from(more))?;
    }
    Ok(())
}

/// The rows of a store's stocks at the end, from the values of the stores after it: each unit left is worth `unit`.
fn rows_at_end(
    alloc: Global,
    after: &[i128],
    unit: u64,
    stock: u32,
) -> Result<Vec<i128>, AllocError>
    requires stock { stock ≤ 2000 }
    requires unit { unit ≤ 10000000000000 }
    requires reach { AllWithin most_reach after.now }
    requires size { length after.now * (stock + 1) ≤ most_policy_size }
    ensures { IfOk result (λ values. values.items ≡ rows_of unit after.now (stock + 1)) }
{
    let rows = stock as usize + 1;
    let mut values = Vec::with_capacity(alloc, after.len() * rows)?;
    for units in 0..stock + 1 {
        push_row(&mut values, after, unit * u64::from(units))?;
    }
    Ok(values)
}

/// Divides each value by a base, rounded in the direction `R`.
fn divide_values<R: Direction>(values: &mut [i128], base: u64)
    requires some { 1 ≤ base }
    requires most { base ≤ most_joint_base }
    ensures each { (k : ℕ) → k < length values.old → at_place values.new k ≡ R.quotient (at_place values.old k) base }
    ensures within { (reach : ℕ) → AllWithin (base * reach) values.old → AllWithin reach values.new }
{
    let divisor = Divisor::new(base);
    for value in values.iter_mut() {
        *value = R::div_by(*value, &divisor);
    }
}

/// Puts at each place where the stock of a store is above a limit what stands there above. The row of each of the store's
/// stocks has `width` places.
fn take_above(below: &mut [i128], above: &[i128], width: usize, rows: usize, limit: usize)
    requires width { 1 ≤ width }
    requires rows { 1 ≤ rows }
    requires size { length above.now ≡ length below.old }
    ensures { (k : ℕ) → k < length below.old → at_place below.new k ≡ chosen width rows limit below.old above.now k }
{
    for place in 0..below.len() {
        if place / width % rows > limit {
            below[place] = above[place];
        }
    }
}

/// What a unit that is left at the end earns a store.
#[tactic(auto, unfolding(clr_model::specs::Revenue::cent))]
fn salvage_gain(season: &Season, store: u32) -> u64
    requires low { 1 ≤ store }
    requires high { store ≤ length season.now.stores }
    ensures value { result ≡ cent * (store_at season.now store).salvage }
    ensures range { result ≤ 10000000000000 }
{
    CENT * season.salvage(store)
}

/// The values at the end of the season.
fn end_values(alloc: Global, season: &Season) -> Result<Vec<i128>, AllocError>
    requires lists { lists_of (full_stocks season.now) ≤ most_policy_size }
    ensures values { IfOk result (λ values. AreValues (full_stocks season.now) (end_value season.now) values.items) }
    ensures reach { IfOk result (λ values. AllWithin (reach_left 0) values.items) }
{
    let stores = season.stores();
    let mut values = vec![in alloc; 0i128; 1]?;
    for index in 0..stores {
        let store = stores - index;
        let unit = salvage_gain(season, store);
        values = rows_at_end(alloc, &values, unit, season.stock(store))?;
    }
    Ok(values)
}

/// The base to the number of stores.
fn base_of_all(season: &Season) -> u64
    requires { joint_base season.now ≤ most_joint_base }
    ensures value { result ≡ joint_base season.now }
    ensures some { 1 ≤ result }
    ensures facts { IsSeason season.now }
{
    u64::from(season.base()).pow(season.stores())
}

/// Puts the values before a week in the place of those after it, each rounded once in the direction `R`.
fn weigh_week<R: Direction>(values: &mut [i128], season: &Season, week: Week)
    requires week { IsWeek season.now week }
    requires base { joint_base season.now ≤ most_joint_base }
    requires size { length values.old ≡ lists_of (full_stocks season.now) }
    requires reach { AllWithin most_reach values.old }
    ensures each { (stocks : List ℕ) → AreWithin (full_stocks season.now) stocks → at_place values.new (place_in (full_stocks season.now) stocks) ≡ R.quotient (joint_weighed season.now week.done week.before week.rung stocks (λ demands rest. at_place values.old (place_in (full_stocks season.now) rest))) (joint_base season.now) }
    ensures within { (reach : ℕ) → reach ≤ most_reach → AllWithin reach values.old → AllWithin (reach + 64 * most_gain) values.new }
{
    weigh_stores(values, season, week, 1);
    divide_values::<R>(values, base_of_all(season));
}

/// The number of lists of the stocks of the stores after a store.
fn width_of(season: &Season, store: u32) -> usize
    requires low { 1 ≤ store }
    requires high { store ≤ length season.now.stores }
    requires lists { lists_of (full_stocks season.now) ≤ most_policy_size }
    ensures value { result ≡ lists_of (stocks_from season.now (store + 1)) }
    ensures some { 1 ≤ result }
{
    let mut width = 1;
    for index in store..season.stores() {
        width *= season.stock(index + 1) as usize + 1;
    }
    width
}

/// Puts the values of a test of a store's stock in the place of those where it is at most the limit.
fn choose(below: &mut [i128], above: &[i128], season: &Season, store: u32, limit: u32)
    requires low { 1 ≤ store }
    requires high { store ≤ length season.now.stores }
    requires lists { lists_of (full_stocks season.now) ≤ most_policy_size }
    requires size { length below.old ≡ lists_of (full_stocks season.now) }
    requires same { length above.now ≡ lists_of (full_stocks season.now) }
    ensures each { (stocks : List ℕ) → AreWithin (full_stocks season.now) stocks → at_place below.new (place_in (full_stocks season.now) stocks) ≡ (if nat_le (of_store stocks store) limit then at_place below.old (place_in (full_stocks season.now) stocks) else at_place above.now (place_in (full_stocks season.now) stocks)) }
    ensures within { (reach : ℕ) → AllWithin reach below.old → AllWithin reach above.now → AllWithin reach below.new }
{
    let width = width_of(season, store);
    let rows = season.stock(store) as usize + 1;
    take_above(below, above, width, rows, limit as usize);
}

/// The values of a policy after so many weeks and the rung before, for all lists of stocks, each week rounded once in the
/// direction `R`.
pub fn values_of<R: Direction>(
    alloc: Global,
    season: &Season,
    policy: &Policy,
    done: u32,
    before: u32,
) -> Result<Vec<i128>, AllocError>
    requires short { season.now.rules.weeks ≤ 52 }
    requires early { done ≤ season.now.rules.weeks }
    requires before { (1 ≤ before) × (before ≤ length season.now.rules.prices) }
    requires policy { IsPolicyFor season.now (season.now.rules.weeks - done) (written policy.now) }
    requires base { joint_base season.now ≤ most_joint_base }
    requires lists { lists_of (full_stocks season.now) ≤ most_policy_size }
    ensures values { IfOk result (λ values. AreValues (full_stocks season.now) (λ stocks. tree_value R.quotient season.now done before stocks (unroll (written policy.now) stocks)) values.items) }
    ensures reach { IfOk result (λ values. AllWithin (reach_left (season.now.rules.weeks - done)) values.items) }
{
    match policy {
        Policy::End => end_values(alloc, season),
        Policy::Rung { rung, then } => {
            let mut values = values_of::<R>(alloc, season, then, done + 1, *rung)?;
            let week = Week {
                done,
                before,
                rung: *rung,
            };
            weigh_week::<R>(&mut values, season, week);
            Ok(values)
        }
        Policy::Test {
            store,
            limit,
            yes,
            no,
        } => {
            let mut below = values_of::<R>(alloc, season, yes, done, before)?;
            let above = values_of::<R>(alloc, season, no, done, before)?;
            choose(&mut below, &above, season, *store, *limit);
            Ok(below)
        }
    }
}
