// The conditions of the numbers of all stores together.
ghost use Rattle.clr_average.specs.Average.{IsWithin};
ghost use Rattle.clr_cert.specs.Conditions.{at_least, at_most, joint_conditions, joint_low_condition, joint_top_condition, leading_rungs, rung_condition};
ghost use Rattle.clr_cert.specs.declared.no.NoKind.TheVariants as kind;
ghost use Rattle.clr_cert.specs.Entries.{CertEntries, most_entry};
ghost use Rattle.clr_cert.specs.Lines.{stocks_at};
ghost use Rattle.clr_model.specs.Fits.{fits, most_joint_base, most_joint_stores, stock_lists};
ghost use Rattle.clr_model.specs.JointWeek.{joint_base, joint_weighed};
ghost use Rattle.clr_model.specs.Revenue.{earn};
ghost use Rattle.clr_rules.specs.declared.season_rules.Summary.{Summary};
ghost use Rattle.clr_rules.specs.LiveSummaries.{is_live_summary, live_pairs, live_summaries};
ghost use Rattle.clr_season.specs.Season.{IsSeason, store_at};
ghost use Rattle.clr_check.specs.Faults.{first_fault};
ghost use Rattle.clr_check.specs.JointRows.{AreJointRows, HasJointRows, HasLists, HasLows, HasTops, IsListRow, IsRungWeek, list_after, lists_after, most_gain, most_joint_sum, part_after, reach_after, reach_of_part, sum_after, top_conditions, worth_after};
ghost use Rattle.std.specs.Prelude.{◌≡◌, ℕ, ℤ, suc, [], ◌∷◌, List, ◌≤◌, ◌<◌, ◌+◌, ◌-◌, ◌*◌, ◌^◌, pos, ◌+ℤ◌, ◌*ℤ◌, IsTrue, length, map, slice_get, Some};

use crate::faults::Fault;
use crate::values::row_of;
use crate::week::{lead, worth};
use clr_cert::NoKind;
use clr_model::{gain, lists_of_stocks};
use clr_rules::{Live, Summary};
use clr_season::Season;

/// A week on a rung: how many weeks are done before it, the rung before and its rung.
#[derive(Clone, Copy)]
pub(crate) struct RungWeek {
    pub(crate) done: u32,
    pub(crate) before: u32,
    pub(crate) rung: u32,
}

// The base to the number of stores after some.
fn base_after(season: &Season, past: u32) -> u64
    requires fits { IsTrue (fits season.now) }
    requires past { past ≤ length season.now.stores }
    ensures value { result ≡ season.now.base ^ (length season.now.stores - past) }
    ensures size { result ≤ most_joint_base }
{
    u64::from(season.base()).pow(season.stores() - past)
}

// What a demand of the first store after some earns, so many times.
fn scaled_gain(
    season: &Season,
    week: RungWeek,
    past: u32,
    stock: u32,
    demand: u32,
    scale: u64,
) -> i128
    requires fits { IsTrue (fits season.now) }
    requires week { IsRungWeek season.now week }
    requires past { past < length season.now.stores }
    requires stock { stock ≤ (store_at season.now (past + 1)).units }
    requires demand { demand ≤ season.now.top }
    requires scale { scale ≤ most_joint_base }
    ensures value { result ≡ earn season.now (past + 1) week.before week.rung stock demand *ℤ pos scale }
    ensures size { IsWithin (scale * most_gain) result }
{
    let earned = gain(season, past + 1, week.before, week.rung, stock, demand);
    i128::from(earned) * i128::from(scale)
}

// A weight times a sum and what is earned.
fn weighed(weight: u32, sum: i128, earned: i128) -> i128
    requires sum { IsWithin most_joint_sum sum }
    requires earned { IsWithin most_joint_sum earned }
    requires fits { IsWithin most_joint_sum (pos weight *ℤ (sum +ℤ earned)) }
    ensures { result ≡ pos weight *ℤ (sum +ℤ earned) }
{
    i128::from(weight) * (sum + earned)
}

// The weight of a demand of the first store after some, times what the demand gives: `stock` is the store's, `rest` is the
// number of the later stores' list of stocks, of which there are `lists`, and `scale` is the base for each later store.
#[cycle(sums)]
fn demand_sum(
    season: &Season,
    week: RungWeek,
    past: u32,
    stock: u32,
    rest: usize,
    demand: u32,
    weight: u32,
    lists: usize,
    scale: u64,
    row: &[i64],
) -> i128
    requires fits { IsTrue (fits season.now) }
    requires week { IsRungWeek season.now week }
    requires past { past < length season.now.stores }
    requires stock { stock ≤ (store_at season.now (past + 1)).units }
    requires rest { rest < lists }
    requires demand { demand ≤ season.now.top }
    requires weight { weight ≤ season.now.base }
    requires lists { lists ≡ lists_after season.now (past + 1) }
    requires scale { scale ≡ season.now.base ^ (length season.now.stores - (past + 1)) }
    requires row { IsListRow season.now past row.now }
    ensures value { (f : List ℕ → ℤ) → HasLists season.now past row.now f → result ≡ pos weight *ℤ part_after season.now week past stock (list_after season.now (past + 1) rest) f demand }
    ensures size { IsWithin (weight * reach_of_part season.now past) result }
{
    if weight == 0 {
        return 0;
    }
    let left = stock - stock.min(demand);
    let after = row_of(row, lists, left as usize);
    let sum = joint_sum_after(season, week, past + 1, rest, after);
    let earned = scaled_gain(season, week, past, stock, demand, scale);
    weighed(weight, sum, earned)
}

// The sum over the joint demands of the stores after some, at their list of stocks of a number. `row` has the numbers after
// the week, by lists.
#[cycle(sums)]
fn joint_sum_after(season: &Season, week: RungWeek, past: u32, index: usize, row: &[i64]) -> i128
    requires fits { IsTrue (fits season.now) }
    requires week { IsRungWeek season.now week }
    requires past { past ≤ length season.now.stores }
    requires index { index < lists_after season.now past }
    requires row { IsListRow season.now past row.now }
    ensures facts { IsSeason season.now }
    ensures value { (f : List ℕ → ℤ) → HasLists season.now past row.now f → result ≡ sum_after season.now week past (list_after season.now past index) f }
    ensures size { IsWithin (reach_after season.now past) result }
{
    if past == season.stores() {
        return i128::from(row[index]);
    }
    let lists = row.len() / (season.stock(past + 1) as usize + 1);
    let stock = (index / lists) as u32;
    let rest = index % lists;
    let scale = base_after(season, past + 1);
    let weights = season.weights(past + 1, week.done + 1, week.rung);
    let mut total = 0;
    for (demand, weight) in weights.iter().enumerate() {
        total += demand_sum(
            season,
            week,
            past,
            stock,
            rest,
            demand as u32,
            *weight,
            lists,
            scale,
            row,
        );
    }
    total
}

// The joint sum of a week on a rung at the list of stocks of a number, over the numbers of a row.
fn joint_sum(season: &Season, week: RungWeek, index: u64, row: &[i64]) -> i128
    requires fits { IsTrue (fits season.now) }
    requires week { IsRungWeek season.now week }
    requires index { index < stock_lists season.now.stores }
    requires row { IsListRow season.now 0 row.now }
    ensures value { (f : List ℕ → ℤ) → HasLists season.now 0 row.now f → result ≡ joint_weighed season.now week.done week.before week.rung (stocks_at season.now index) (λ demands rest. f rest) }
    ensures size { IsWithin most_joint_sum result }
{
    joint_sum_after(season, week, 0, index as usize, row)
}

// A number of all stores times the base to the number of stores.
fn scaled_by_all(season: &Season, value: i128) -> i128
    requires fits { IsTrue (fits season.now) }
    requires value { IsWithin most_entry value }
    ensures value { result ≡ value *ℤ pos (joint_base season.now) }
    ensures size { IsWithin most_joint_sum result }
{
    value * i128::from(base_after(season, 0))
}

// The condition of a low number fails: its left side is greater than its right side.
fn high_low(left: i128, right: i128) -> Option<Fault>
    ensures { result ≡ first_fault (at_most kind.JointLow left right ∷ []) }
{
    if left <= right {
        None
    } else {
        Some(Fault {
            kind: NoKind::JointLow,
            left,
            right,
        })
    }
}

// The condition of a top number fails: its left side is less than its right side.
fn short_top(left: i128, right: i128) -> Option<Fault>
    ensures { result ≡ first_fault (at_least kind.JointTop left right ∷ []) }
{
    if right <= left {
        None
    } else {
        Some(Fault {
            kind: NoKind::JointTop,
            left,
            right,
        })
    }
}

// The two sides of a condition on a rung: the number of the line, scaled, and the joint sum. `place` is that of the live
// summary after the rung, whose row among those of the week after has the numbers.
fn joint_sides(
    season: &Season,
    week: RungWeek,
    place: u32,
    index: u64,
    value: i128,
    rows: &[i64],
) -> (i128, i128)
    requires fits { IsTrue (fits season.now) }
    requires week { IsRungWeek season.now week }
    requires place { place < length (live_summaries season.now.rules (suc week.done)) }
    requires index { index < stock_lists season.now.stores }
    requires value { IsWithin most_entry value }
    requires rows { AreJointRows season.now (suc week.done) rows.now }
    ensures left { result.0 ≡ value *ℤ pos (joint_base season.now) }
    ensures right { (f : Summary → List ℕ → ℤ) (s : Summary) → slice_get (live_summaries season.now.rules (suc week.done)) place ≡ Some s → HasJointRows season.now (suc week.done) rows.now f →
        result.1 ≡ joint_weighed season.now week.done week.before week.rung (stocks_at season.now index) (λ demands rest. f s rest) }
    ensures left_size { IsWithin most_joint_sum result.0 }
    ensures right_size { IsWithin most_joint_sum result.1 }
{
    let row = row_of(rows, lists_of_stocks(season) as usize, place as usize);
    (
        scaled_by_all(season, value),
        joint_sum(season, week, index, row),
    )
}

// The condition of a rung on the top number, where the rung leads to a live summary and the condition fails.
fn rung_top_fault(
    season: &Season,
    live: &Live,
    done: u32,
    s: Summary,
    index: u64,
    rung: u32,
    top: i128,
    tops: &[i64],
) -> Option<Fault>
    requires fits { IsTrue (fits season.now) }
    requires live { live.now ≡ live_pairs season.now.rules }
    requires early { done < season.now.rules.weeks }
    requires here { IsTrue (is_live_summary season.now.rules done s) }
    requires index { index < stock_lists season.now.stores }
    requires rung { (1 ≤ rung) × (rung ≤ length season.now.rules.prices) }
    requires top { IsWithin most_entry top }
    requires tops { AreJointRows season.now (suc done) tops.now }
    ensures { (entries : CertEntries) → HasTops season.now entries (suc done) tops.now →
        result ≡ first_fault (top_conditions season.now entries done s (stocks_at season.now index) top rung) }
{
    match lead(season.rules(), live, done, s, rung) {
        Some((_, place)) => {
            let week = RungWeek {
                done,
                before: s.last,
                rung,
            };
            let (left, right) = joint_sides(season, week, place, index, top, tops);
            short_top(left, right)
        }
        None => None,
    }
}

// The first rung whose condition on the top number fails.
fn top_fault(
    season: &Season,
    live: &Live,
    done: u32,
    s: Summary,
    index: u64,
    top: i128,
    tops: &[i64],
) -> Option<Fault>
    requires fits { IsTrue (fits season.now) }
    requires live { live.now ≡ live_pairs season.now.rules }
    requires early { done < season.now.rules.weeks }
    requires here { IsTrue (is_live_summary season.now.rules done s) }
    requires index { index < stock_lists season.now.stores }
    requires top { IsWithin most_entry top }
    requires tops { AreJointRows season.now (suc done) tops.now }
    ensures { (entries : CertEntries) → HasTops season.now entries (suc done) tops.now →
        result ≡ first_fault (map (joint_top_condition season.now entries done s (stocks_at season.now index) top) (leading_rungs season.now done s)) }
{
    for rung in 1..season.rungs() + 1 {
        let fault = rung_top_fault(season, live, done, s, index, rung, top, tops);
        if fault.is_some() {
            return fault;
        }
    }
    None
}

// The conditions of the line's rung and of the low number: the first that fails.
fn rung_low_fault(
    season: &Season,
    live: &Live,
    done: u32,
    s: Summary,
    index: u64,
    rung: u32,
    low: i128,
    lows: &[i64],
) -> Option<Fault>
    requires fits { IsTrue (fits season.now) }
    requires live { live.now ≡ live_pairs season.now.rules }
    requires early { done < season.now.rules.weeks }
    requires here { IsTrue (is_live_summary season.now.rules done s) }
    requires index { index < stock_lists season.now.stores }
    requires rung { (1 ≤ rung) × (rung ≤ length season.now.rules.prices) }
    requires low { IsWithin most_entry low }
    requires lows { AreJointRows season.now (suc done) lows.now }
    ensures { (entries : CertEntries) (top : ℤ) → HasLows season.now entries (suc done) lows.now →
        result ≡ first_fault (rung_condition season.now done s rung ∷ joint_low_condition season.now entries done s (stocks_at season.now index) (rung, low, top) ∷ []) }
{
    match lead(season.rules(), live, done, s, rung) {
        Some((_, place)) => {
            let week = RungWeek {
                done,
                before: s.last,
                rung,
            };
            let (left, right) = joint_sides(season, week, place, index, low, lows);
            high_low(left, right)
        }
        None => Some(Fault {
            kind: NoKind::Rung,
            left: i128::from(done + 1),
            right: i128::from(rung),
        }),
    }
}

/// The first condition of the numbers of all stores that fails, at a live summary and the list of stocks of a number, where a
/// week is to come: the rung is live, the low number is reached on it, and the top number covers each live rung. `low` and
/// `top` are the line's numbers. `lows` and `tops` have those of the week after: a row for each live summary, and in it a
/// number for each list of stocks, the first store slowest.
pub(crate) fn joint_fault(
    season: &Season,
    live: &Live,
    done: u32,
    s: Summary,
    index: u64,
    rung: u32,
    low: i128,
    top: i128,
    lows: &[i64],
    tops: &[i64],
) -> Option<Fault>
    requires fits { IsTrue (fits season.now) }
    requires live { live.now ≡ live_pairs season.now.rules }
    requires early { done < season.now.rules.weeks }
    requires here { IsTrue (is_live_summary season.now.rules done s) }
    requires index { index < stock_lists season.now.stores }
    requires rung { (1 ≤ rung) × (rung ≤ length season.now.rules.prices) }
    requires low { IsWithin most_entry low }
    requires top { IsWithin most_entry top }
    requires lows { AreJointRows season.now (suc done) lows.now }
    requires tops { AreJointRows season.now (suc done) tops.now }
    ensures { (entries : CertEntries) → HasLows season.now entries (suc done) lows.now → HasTops season.now entries (suc done) tops.now →
        result ≡ first_fault (joint_conditions season.now entries done s (stocks_at season.now index) (rung, low, top)) }
{
    let fault = rung_low_fault(season, live, done, s, index, rung, low, lows);
    if fault.is_some() {
        return fault;
    }
    top_fault(season, live, done, s, index, top, tops)
}

// What the stocks of the stores after some are worth at the end, in their list of a number, of which there are `lists`.
fn worth_of_rest(season: &Season, past: u32, index: u64, lists: u64) -> i128
    requires few { length season.now.stores ≤ most_joint_stores }
    requires past { past ≤ length season.now.stores }
    requires lists { lists ≡ lists_after season.now past }
    requires index { index < lists }
    ensures value { result ≡ worth_after season.now past (list_after season.now past index) }
    ensures size { IsWithin ((length season.now.stores - past) * 1000000000000000000000000000) result }
{
    if past == season.stores() {
        return 0;
    }
    let later = lists / (u64::from(season.stock(past + 1)) + 1);
    let here = worth(season, past + 1, (index / later) as u32);
    here + worth_of_rest(season, past + 1, index % later, later)
}

/// The first condition of the numbers of all stores that fails, at the end and the list of stocks of a number: the low number
/// is at most what the stocks are worth, and the top number at least.
pub(crate) fn last_joint_fault(season: &Season, index: u64, low: i128, top: i128) -> Option<Fault>
    requires fits { IsTrue (fits season.now) }
    requires index { index < stock_lists season.now.stores }
    ensures { (entries : CertEntries) (s : Summary) (rung : ℕ) →
        result ≡ first_fault (joint_conditions season.now entries season.now.rules.weeks s (stocks_at season.now index) (rung, low, top)) }
{
    let value = worth_of_rest(season, 0, index, lists_of_stocks(season));
    let fault = high_low(low, value);
    if fault.is_some() {
        return fault;
    }
    short_top(top, value)
}
