// The sum over a week's joint demands, folded store by store.
ghost use Rattle.clr_average.specs.Average.{IsWithin};
ghost use Rattle.clr_joint.specs.Folds.{AreFolded, IsCell, cell_sum, fold_item, fold_reach};
ghost use Rattle.clr_model.specs.Stocks.{lists_of};
ghost use Rattle.clr_model.specs.Fits.{fits};
ghost use Rattle.clr_model.specs.Revenue.{full_stocks};
ghost use Rattle.clr_rows.specs.Rows.{AreWithin};
ghost use Rattle.std.specs.Prelude.{◌≡◌, ℕ, ◌<◌, ◌≤◌, ◌+◌, ◌-◌, ◌*◌, ◌^◌, ℤ, pos, ◌+ℤ◌, ◌*ℤ◌, length, get_or, IfOk, IsTrue};

use clr_model::CENT;
use clr_season::Season;
use std::alloc::{AllocError, Global};

/// A sum with a demand's weight times the item at what the demand leaves and what the sold units earn.
#[inline(always)]
fn plus_demand(total: i128, weight: u32, item: i128, earned: u128) -> i128
    requires earned { earned < 2 ^ 127 }
    requires item { IsWithin (2 ^ 127 - 1) (item +ℤ pos earned) }
    requires product { IsWithin (2 ^ 127 - 1) (pos weight *ℤ (item +ℤ pos earned)) }
    requires sum { IsWithin (2 ^ 127 - 1) (total +ℤ pos weight *ℤ (item +ℤ pos earned)) }
    ensures { result ≡ total +ℤ pos weight *ℤ (item +ℤ pos earned) }
{
    if weight == 0 {
        total
    } else {
        total + i128::from(weight) * (item + earned as i128)
    }
}

/// The sum over a store's demands at a place with this stock: the weight times the item at what is left and what the sold units
/// earn, each `unit`. Places whose stock differs by one lie a stride apart.
fn cell(
    weights: &[u32],
    unit: u128,
    items: &[i128],
    place: usize,
    stock: usize,
    stride: usize,
) -> i128
    requires inside { place < length items.now }
    requires stock { stock * stride ≤ place }
    requires sizes { (base : ℕ) × (reach : ℕ) × IsCell base reach unit stock weights.now items.now }
    ensures { result ≡ cell_sum weights.now unit items.now place stock stride (length weights.now) }
{
    let mut total = 0;
    for (demand, weight) in weights.iter().enumerate() {
        let sold = demand.min(stock);
        total = plus_demand(
            total,
            *weight,
            items[place - sold * stride],
            unit * sold as u128,
        );
    }
    total
}

/// Folds one store into the items of a week on a rung, where so many stores after it are folded. The items are by lists of stocks;
/// `stride` is the number of lists of the stores after it, and `power` the base to the number of these stores.
fn fold_store(
    alloc: Global,
    season: &Season,
    done: u32,
    rung: u32,
    folded: u32,
    stride: usize,
    power: u128,
    items: &[i128],
) -> Result<Vec<i128>, AllocError>
    requires fits { IsTrue (fits season.now) }
    requires early { done < season.now.rules.weeks }
    requires low { 1 ≤ rung }
    requires high { rung ≤ length season.now.rules.prices }
    requires folded { folded < length season.now.stores }
    requires stride { 1 ≤ stride }
    requires power { power ≡ season.now.base ^ folded }
    requires within { AreWithin (fold_reach season.now.base folded) items.now }
    ensures size { IfOk result (λ now. length now.items ≡ length items.now) }
    ensures within { IfOk result (λ now. AreWithin (fold_reach season.now.base (folded + 1)) now.items) }
    ensures each { IfOk result (λ now. (place : ℕ) → place < length items.now → get_or now.items place (pos 0) ≡ fold_item season.now done rung (length season.now.stores - folded) stride power items.now place) }
{
    let store = season.stores() - folded;
    let weights = season.weights(store, done + 1, rung);
    let unit = u128::from(CENT * season.price(rung)) * power;
    let stocks = season.stock(store) as usize + 1;
    let mut now = Vec::with_capacity(alloc, items.len())?;
    for place in 0..items.len() {
        let stock = place / stride % stocks;
        now.push(cell(weights, unit, items, place, stock, stride))?;
    }
    Ok(now)
}

/// The numbers of a row at 128 bits.
fn widened(alloc: Global, row: &[i64]) -> Result<Vec<i128>, AllocError>
    ensures { IfOk result (λ items. items.items ≡ row.now) }
{
    let mut items = Vec::with_capacity(alloc, row.len())?;
    for value in row {
        items.push(i128::from(*value))?;
    }
    Ok(items)
}

/// For each list of stocks the sum over a week's joint demands of what all stores earn on a rung and the value of the stocks that are
/// left, each times the chance out of the base to the number of stores. `row` has the values by lists of stocks. Nothing is paid for
/// relabelling.
///
/// The stores are folded one by one, from the last to the first. So the demands of the stores are summed one after another, and not
/// their lists.
pub fn fold_row(
    alloc: Global,
    season: &Season,
    done: u32,
    rung: u32,
    row: &[i64],
) -> Result<Vec<i128>, AllocError>
    requires fits { IsTrue (fits season.now) }
    requires early { done < season.now.rules.weeks }
    requires low { 1 ≤ rung }
    requires high { rung ≤ length season.now.rules.prices }
    requires size { length row.now ≡ lists_of (full_stocks season.now) }
    requires within { AreWithin 1000000000000000000 row.now }
    ensures { IfOk result (λ items. AreFolded season.now done rung (length season.now.stores) row.now items.items) }
{
    let mut items = widened(alloc, row)?;
    let mut stride = 1;
    let mut power = 1;
    for folded in 0..season.stores() {
        items = fold_store(alloc, season, done, rung, folded, stride, power, &items)?;
        stride *= season.stock(season.stores() - folded) as usize + 1;
        power *= u128::from(season.base());
    }
    Ok(items)
}
