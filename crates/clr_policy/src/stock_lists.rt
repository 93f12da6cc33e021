// Numbers for all lists of the stores' stocks, in the order of lists, the first store slowest.
ghost use Rattle.std.specs.Prelude.{◌≡◌, ℕ, suc, ◌≤◌, ◌<◌, ◌+◌, ◌-◌, ◌*◌, ◌^◌, min, ℤ, pos, ◌+ℤ◌, ◌*ℤ◌, IfOk, OnOk, List, length, drop, sum, get_or};
ghost use Rattle.clr_average.specs.Average.{IsWithin};
ghost use Rattle.clr_model.specs.Fits.{most_joint_base};
ghost use Rattle.clr_model.specs.JointWeek.{joint_base};
ghost use Rattle.clr_model.specs.Revenue.{cent, fee};
ghost use Rattle.clr_rules.specs.Rules.{price};
ghost use Rattle.clr_season.specs.Season.{IsPlace, store_at};
ghost use Rattle.clr_model.specs.Stocks.{lists_of, place_in};
ghost use Rattle.clr_policy.specs.StockLists.{AllWithin, AreSmall, AreValues, AreWithin, IsWeek, RowWithin, at_place, folded, gain_of, most_gain, most_reach, most_total, part, reach_after, row_folded, stock_sum, store_sum, stocks_from};

use clr_model::{CENT, relabelling};
use clr_season::Season;

/// A week: how many weeks are done before it, the rung before and its rung.
#[derive(Clone, Copy)]
pub struct Week {
    pub done: u32,
    pub before: u32,
    pub rung: u32,
}

/// What units that are sold earn, each so much, less a cost.
#[inline(always)]
fn gain_of(unit: u128, cost: u128, sold: usize) -> i128
    requires sold { sold ≤ 2000 }
    requires unit { unit ≤ 10000000000000000000000000000000 }
    requires cost { cost ≤ 10000000000000000000000000000000 }
    ensures { result ≡ gain_of unit cost sold }
{
    (unit * sold as u128) as i128 - cost as i128
}

/// A sum with a weight times a value and a gain added.
#[inline(always)]
fn plus(total: i128, weight: u32, value: i128, gain: i128) -> i128
    requires value { IsWithin most_total (value +ℤ gain) }
    requires product { IsWithin most_total (pos weight *ℤ (value +ℤ gain)) }
    requires sum { IsWithin most_total (total +ℤ pos weight *ℤ (value +ℤ gain)) }
    ensures { result ≡ total +ℤ pos weight *ℤ (value +ℤ gain) }
{
    total + i128::from(weight) * (value + gain)
}

/// A sum with the weight of a demand added, times what stands in the row of the stock left and what is earned. What weighs
/// nothing is skipped.
#[inline(always)]
fn plus_demand(
    total: i128,
    weight: u32,
    values: &[i128],
    unit: u128,
    cost: u128,
    stock: usize,
    sold: usize,
    width: usize,
    place: usize,
) -> i128
    requires sold { sold ≤ stock }
    requires stock { stock ≤ 2000 }
    requires unit { unit ≤ 10000000000000000000000000000000 }
    requires cost { cost ≤ 10000000000000000000000000000000 }
    requires inside { stock * width + place < length values.now }
    requires value { IsWithin most_total (part values.now unit cost width stock place sold) }
    requires product { IsWithin most_total (pos weight *ℤ part values.now unit cost width stock place sold) }
    requires sum { IsWithin most_total (total +ℤ pos weight *ℤ part values.now unit cost width stock place sold) }
    ensures { result ≡ total +ℤ pos weight *ℤ part values.now unit cost width stock place sold }
{
    if weight == 0 {
        return total;
    }
    let value = values[(stock - sold) * width + place];
    plus(total, weight, value, gain_of(unit, cost, sold))
}

/// The sum of a place over a store's demands, where the store has this stock. The demands of at least as much as the stock, or
/// the greatest, are taken together by their weight `tail`.
fn sum_of_place(
    values: &[i128],
    weights: &[u32],
    unit: u128,
    cost: u128,
    tail: u32,
    stock: usize,
    width: usize,
    place: usize,
) -> i128
    requires sold { stock ≤ 2000 }
    requires unit { unit ≤ 10000000000000000000000000000000 }
    requires cost { cost ≤ 10000000000000000000000000000000 }
    requires inside { stock * width + place < length values.now }
    requires small { (base : ℕ) × (limit : ℕ) × AreSmall base limit weights.now unit cost width stock place values.now }
    requires tail { tail ≡ sum (drop (min stock (length weights.now - 1)) weights.now) }
    ensures { result ≡ stock_sum weights.now unit cost values.now width stock place }
{
    let count = stock.min(weights.len() - 1);
    let mut total = 0;
    for demand in 0..count {
        let weight = weights[demand];
        total = plus_demand(
            total, weight, values, unit, cost, stock, demand, width, place,
        );
    }
    plus_demand(total, tail, values, unit, cost, stock, count, width, place)
}

/// Puts at each place of the row of a stock the sum over the store's demands.
fn weigh_stock(
    values: &mut [i128],
    weights: &[u32],
    unit: u128,
    cost: u128,
    tail: u32,
    stock: usize,
    width: usize,
)
    requires sold { stock ≤ 2000 }
    requires unit { unit ≤ 10000000000000000000000000000000 }
    requires cost { cost ≤ 10000000000000000000000000000000 }
    requires inside { stock * width + width ≤ length values.old }
    requires small { (base : ℕ) × (limit : ℕ) × ((place : ℕ) → place < width → AreSmall base limit weights.now unit cost width stock place values.old) }
    requires tail { tail ≡ sum (drop (min stock (length weights.now - 1)) weights.now) }
    ensures row { (place : ℕ) → place < width → at_place values.new (stock * width + place) ≡ stock_sum weights.now unit cost values.old width stock place }
    ensures before { (k : ℕ) → k < stock * width → at_place values.new k ≡ at_place values.old k }
    ensures after { (k : ℕ) → stock * width + width ≤ k → at_place values.new k ≡ at_place values.old k }
{
    for place in 0..width {
        let sum = sum_of_place(values, weights, unit, cost, tail, stock, width, place);
        values[stock * width + place] = sum;
    }
}

/// What a unit that is sold on a rung earns, so many times.
#[tactic(auto, unfolding(clr_model::specs::Revenue::cent))]
fn unit_gain(season: &Season, rung: u32, scale: u128) -> u128
    requires low { 1 ≤ rung }
    requires high { rung ≤ length season.now.rules.prices }
    requires scale { scale ≤ 1000000000000000000 }
    ensures value { result ≡ cent * price season.now.rules rung * scale }
    ensures range { result ≤ 10000000000000 * scale }
{
    u128::from(CENT * season.price(rung)) * scale
}

/// What a store pays for relabelling in a week, so many times.
fn week_cost(season: &Season, store: u32, week: Week, scale: u128) -> u128
    requires low { 1 ≤ store }
    requires high { store ≤ length season.now.stores }
    requires scale { scale ≤ 1000000000000000000 }
    ensures value { result ≡ cent * fee season.now store week.before week.rung * scale }
    ensures range { result ≤ 10000000000000 * scale }
{
    u128::from(relabelling(season, store, week.before, week.rung)) * scale
}

/// Puts at each place, for each stock of a store, the sum over the store's demands in a week. The values stand in a row of
/// `width` for each stock; what is earned counts `scale` times.
fn weigh_store(
    values: &mut [i128],
    season: &Season,
    week: Week,
    store: u32,
    scale: u128,
    width: usize,
)
    requires place { IsPlace season.now store (week.done + 1) week.rung }
    requires before { (1 ≤ week.before) × (week.before ≤ length season.now.rules.prices) }
    requires size { length values.old ≡ ((store_at season.now store).units + 1) * width }
    requires scale { scale ≤ 1000000000000000000 }
    requires small { (reach : ℕ) × AllWithin reach values.old × (season.now.base * (reach + most_gain * scale) ≤ most_total) }
    ensures each { (stock place : ℕ) → stock ≤ (store_at season.now store).units → place < width → at_place values.new (stock * width + place) ≡ store_sum season.now week.done week.before week.rung store scale values.old width stock place }
    ensures within { (reach : ℕ) → AllWithin reach values.old → season.now.base * (reach + most_gain * scale) ≤ most_total → AllWithin (season.now.base * (reach + most_gain * scale)) values.new }
{
    let top = season.top();
    let weights = season.weights(store, week.done + 1, week.rung);
    let unit = unit_gain(season, week.rung, scale);
    let cost = week_cost(season, store, week, scale);
    for stock in (0..season.stock(store) + 1).rev() {
        let tail = season.tail(store, week.done + 1, week.rung, stock.min(top));
        weigh_stock(values, weights, unit, cost, tail, stock as usize, width);
    }
}

/// Puts, for each list of the stocks of a store and those after it, the sum over these stores' demands in a week, one store
/// after another, the last first.
#[cycle(stores)]
pub fn weigh_stores(values: &mut [i128], season: &Season, week: Week, store: u32)
    requires week { IsWeek season.now week }
    requires low { 1 ≤ store }
    requires high { store ≤ length season.now.stores + 1 }
    requires base { joint_base season.now ≤ most_joint_base }
    requires size { length values.old ≡ lists_of (stocks_from season.now store) }
    requires reach { AllWithin most_reach values.old }
    ensures each { (stocks : List ℕ) → AreWithin (stocks_from season.now store) stocks → at_place values.new (place_in (stocks_from season.now store) stocks) ≡ folded season.now week.done week.before week.rung store values.old stocks }
    ensures within { (reach : ℕ) → reach ≤ most_reach → AllWithin reach values.old → AllWithin (reach_after season.now store reach) values.new }
{
    if store > season.stores() {
        return;
    }
    let rows = season.stock(store) as usize + 1;
    let width = values.len() / rows;
    weigh_rows(values, season, week, store, rows, width);
    let scale = u128::from(season.base()).pow(season.stores() - store);
    weigh_store(values, season, week, store, scale, width);
}

/// Does so for the stores after a store, in the row of each of its stocks.
#[cycle(stores)]
fn weigh_rows(
    values: &mut [i128],
    season: &Season,
    week: Week,
    store: u32,
    rows: usize,
    width: usize,
)
    requires week { IsWeek season.now week }
    requires low { 1 ≤ store }
    requires high { store ≤ length season.now.stores }
    requires few { store ≤ 64 }
    requires base { joint_base season.now ≤ most_joint_base }
    requires width { width ≡ lists_of (stocks_from season.now (store + 1)) }
    requires size { length values.old ≡ rows * width }
    requires reach { AllWithin most_reach values.old }
    ensures each { (stock : ℕ) (rest : List ℕ) → stock < rows → AreWithin (stocks_from season.now (store + 1)) rest → at_place values.new (stock * width + place_in (stocks_from season.now (store + 1)) rest) ≡ row_folded season.now week.done week.before week.rung store width values.old stock rest }
    ensures within { (reach : ℕ) → reach ≤ most_reach → AllWithin reach values.old → AllWithin (reach_after season.now (store + 1) reach) values.new }
{
    for stock in 0..rows {
        weigh_row(values, season, week, store, stock, width);
    }
}

/// Does so in the row of one stock.
#[cycle(stores)]
fn weigh_row(
    values: &mut [i128],
    season: &Season,
    week: Week,
    store: u32,
    stock: usize,
    width: usize,
)
    requires week { IsWeek season.now week }
    requires low { 1 ≤ store }
    requires high { store ≤ length season.now.stores }
    requires few { store ≤ 64 }
    requires base { joint_base season.now ≤ most_joint_base }
    requires width { width ≡ lists_of (stocks_from season.now (store + 1)) }
    requires inside { stock * width + width ≤ length values.old }
    requires reach { RowWithin most_reach width stock values.old }
    ensures row { (rest : List ℕ) → AreWithin (stocks_from season.now (store + 1)) rest → at_place values.new (stock * width + place_in (stocks_from season.now (store + 1)) rest) ≡ row_folded season.now week.done week.before week.rung store width values.old stock rest }
    ensures within { (reach : ℕ) → reach ≤ most_reach → RowWithin reach width stock values.old → RowWithin (reach_after season.now (store + 1) reach) width stock values.new }
    ensures before { (k : ℕ) → k < stock * width → at_place values.new k ≡ at_place values.old k }
    ensures after { (k : ℕ) → stock * width + width ≤ k → at_place values.new k ≡ at_place values.old k }
{
    let from = stock * width;
    weigh_stores(&mut values[from..from + width], season, week, store + 1);
}
