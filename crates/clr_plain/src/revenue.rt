// The revenue of an outcome.
ghost use Rattle.clr_average.specs.Average.{IsWithin};
ghost use Rattle.clr_model.specs.Revenue.{full_stocks, markdowns_after, revenue, sold, store_revenue};
ghost use Rattle.clr_num.specs.Sums.{sum_of};
ghost use Rattle.clr_plain.specs.Plain.{IsAsked, asked_of, outcome_of};
ghost use Rattle.clr_rules.specs.Rules.{IsPath, price};
ghost use Rattle.clr_season.specs.Season.{IsSeason, store_at};
ghost use Rattle.std.specs.Prelude.{◌≡◌, ℕ, suc, ◌<◌, ◌≤◌, ◌-◌, ◌*◌, pos, length, get_or};

use clr_model::Path;
use clr_season::Season;

/// The number of weeks of a path whose rung isn't the rung before it.
fn markdowns(path: &Path) -> u32
    ensures value { result ≡ markdowns_after 1 path.now }
    ensures range { result ≤ length path.now }
{
    let mut count = 0;
    let mut before = 1;
    for done in 0..path.len() {
        let rung = path.rung(done + 1);
        count += u32::from(rung != before);
        before = rung;
    }
    count
}

/// What a store sells in the weeks of a path: the cents that it earns by it, and the units.
fn sales(season: &Season, path: &Path, store: u32, asked: &[u32]) -> (u64, u32)
    requires path { IsPath season.now.rules path.now }
    requires asked { IsAsked season.now path.now asked.now }
    requires low { 1 ≤ store }
    requires high { store ≤ length season.now.stores }
    ensures cents { pos result.0 ≡ sum_of (length path.now) (λ i. pos (price season.now.rules (get_or path.now i 0) * (sold (store_at season.now store).units (asked_of season.now path.now store asked.now) (suc i) - sold (store_at season.now store).units (asked_of season.now path.now store asked.now) i))) }
    ensures units { result.1 ≡ sold (store_at season.now store).units (asked_of season.now path.now store asked.now) (length path.now) }
    ensures range { result.0 ≤ 10000000 * result.1 }
{
    let stores = season.stores() as usize;
    let stock = season.stock(store);
    let mut demand = 0;
    let mut sold = 0;
    let mut cents = 0;
    for done in 0..path.len() {
        demand += asked[done as usize * stores + (store as usize - 1)];
        let more = stock.min(demand) - sold;
        cents += season.price(path.rung(done + 1)) * u64::from(more);
        sold += more;
    }
    (cents, sold)
}

/// What a store earns along a path in an outcome, in cents.
fn store_revenue(season: &Season, path: &Path, store: u32, asked: &[u32]) -> i64
    requires season { IsSeason season.now }
    requires path { IsPath season.now.rules path.now }
    requires asked { IsAsked season.now path.now asked.now }
    requires low { 1 ≤ store }
    requires high { store ≤ length season.now.stores }
    ensures value { result ≡ store_revenue season.now store 1 (store_at season.now store).units path.now (asked_of season.now path.now store asked.now) }
    ensures size { IsWithin 100000000000 result }
{
    let (cents, sold) = sales(season, path, store, asked);
    let left = season.salvage(store) * u64::from(season.stock(store) - sold);
    let costs = season.relabel(store) * u64::from(markdowns(path));
    (cents + left) as i64 - costs as i64
}

/// What all stores earn along a path in an outcome, in cents.
pub fn revenue(season: &Season, path: &Path, asked: &[u32]) -> i64
    requires path { IsPath season.now.rules path.now }
    requires asked { IsAsked season.now path.now asked.now }
    ensures value { result ≡ revenue season.now 1 (full_stocks season.now) path.now (outcome_of season.now path.now asked.now) }
    ensures size { IsWithin 10000000000000 result }
{
    let mut total = 0;
    for index in 0..season.stores() {
        total += store_revenue(season, path, index + 1, asked);
    }
    total
}
