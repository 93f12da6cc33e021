// One week of one store, and where a rung leads: the two sides of the conditions are made of these, without rounding.
ghost use Rattle.clr_average.specs.Average.{IsWithin};
ghost use Rattle.clr_model.specs.PathValue.{weighed};
ghost use Rattle.clr_model.specs.Revenue.{left};
ghost use Rattle.clr_cert.specs.Conditions.{end_worth};
ghost use Rattle.clr_rules.specs.LiveSummaries.{at_week, leads_at, live_pairs};
ghost use Rattle.clr_rules.specs.Rules.{IsInRange, IsRulebook, next_summary};
ghost use Rattle.clr_season.specs.Season.{IsPlace, store_at};
ghost use Rattle.clr_check.specs.Weeks.{AreEntries, kept_value};
ghost use Rattle.std.specs.Prelude.{◌≡◌, ◌≤◌, ◌<◌, ◌+◌, ◌*◌, pos, length, get_or, slice_get, Some, true, false, suc, MatchOption};

use clr_average::Total;
use clr_model::{CENT, gain};
use clr_rules::{Live, Rules, Summary};
use clr_season::Season;

/// Where a rung leads from a summary: the summary after it and its place among the live ones, and None where it isn't live.
pub(crate) fn lead(
    rules: &Rules,
    live: &Live,
    done: u32,
    s: Summary,
    rung: u32,
) -> Option<(Summary, u32)>
    requires rules { IsRulebook rules.now }
    requires live { live.now ≡ live_pairs rules.now }
    requires early { done < rules.now.weeks }
    requires range { IsInRange rules.now s }
    requires low { 1 ≤ rung }
    requires high { rung ≤ length rules.now.prices }
    ensures { MatchOption result (leads_at rules.now done s rung ≡ false) (λ next. (leads_at rules.now done s rung ≡ true) × (next.0 ≡ next_summary rules.now s rung) × (slice_get (at_week (suc done) live.now) next.1 ≡ Some (next_summary rules.now s rung))) }
{
    match rules.next(done, s, rung) {
        Some(next) => match live.find(done + 1, next) {
            Some(place) => Some((next, place)),
            None => None,
        },
        None => None,
    }
}

/// What a stock is worth at the end, in units.
pub(crate) fn worth(season: &Season, store: u32, stock: u32) -> i128
    requires low { 1 ≤ store }
    requires high { store ≤ length season.now.stores }
    requires stock { stock ≤ (store_at season.now store).units }
    ensures value { result ≡ end_worth season.now store stock }
    ensures size { IsWithin 1000000000000000000000000000 result }
{
    prove!(stock <= season.stock(store));
    let unit = CENT * season.salvage(store);
    i128::from(unit * u64::from(stock))
}

// What a demand earns, and the entry of what it leaves.
fn kept(
    season: &Season,
    store: u32,
    before: u32,
    rung: u32,
    stock: u32,
    after: &[i64],
    demand: u32,
) -> i64
    requires low { 1 ≤ store }
    requires high { store ≤ length season.now.stores }
    requires before { (1 ≤ before) × (before ≤ length season.now.rules.prices) }
    requires rung { (1 ≤ rung) × (rung ≤ length season.now.rules.prices) }
    requires stock { stock ≤ (store_at season.now store).units }
    requires after { AreEntries season.now store after.now }
    requires demand { demand ≤ season.now.top }
    ensures value { result ≡ kept_value season.now store before rung stock after.now demand }
    ensures size { IsWithin 2000000000000000000 result }
{
    let gain = gain(season, store, before, rung, stock, demand);
    let left = stock - stock.min(demand);
    gain + after[left as usize]
}

/// The weights times (what the store earns in week `done + 1` on a rung after another and the entry of what is left), summed
/// over the demands. `after` has the entries after the week, by stock from 0.
pub(crate) fn week_sum(
    season: &Season,
    store: u32,
    done: u32,
    before: u32,
    rung: u32,
    stock: u32,
    after: &[i64],
) -> i128
    requires place { IsPlace season.now store (done + 1) rung }
    requires before { (1 ≤ before) × (before ≤ length season.now.rules.prices) }
    requires stock { stock ≤ (store_at season.now store).units }
    requires after { AreEntries season.now store after.now }
    ensures value { result ≡ weighed season.now store done before rung stock (λ rest. get_or after.now rest (pos 0)) }
    ensures size { IsWithin 1000000000000000000000000000 result }
{
    prove!(done < season.weeks());
    let weights = season.weights(store, done + 1, rung);
    let mut total = i128::zero();
    for (demand, weight) in weights.iter().enumerate() {
        let value = kept(season, store, before, rung, stock, after, demand as u32);
        total = total.plus(*weight, value);
    }
    total
}
