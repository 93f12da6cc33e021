// The value of a path over all stores.
ghost use Rattle.std.specs.Prelude.{◌≡◌, ℕ, suc, ◌≤◌, pos, ◌*ℤ◌, length, get_or};
ghost use Rattle.clr_average.specs.Average.{IsWithin};
ghost use Rattle.clr_model.specs.PathValue.{path_total};
ghost use Rattle.clr_model.specs.Revenue.{cent, salvage_cents};
ghost use Rattle.clr_rules.specs.Rules.{IsPath};
ghost use Rattle.clr_season.specs.Season.{store_at};

use crate::demands::Demands;
use crate::rows::{Rows, value_along};
use clr_model::CENT;
use clr_num::Direction;
use clr_season::Season;

/// Writes what each stock of a store, up to the whole one, is worth at the end.
fn write_salvage(season: &Season, store: u32, rows: &mut Rows)
    requires low { 1 ≤ store }
    requires high { store ≤ length season.now.stores }
    ensures { (stock : ℕ) → stock ≤ (store_at season.now store).units → get_or rows.new.after.items stock (pos 0) ≡ pos cent *ℤ salvage_cents season.now store stock }
{
    let unit = CENT * season.salvage(store);
    let width = season.stock(store) as usize + 1;
    for stock in 0..width {
        rows.after[stock] = (unit * stock as u64) as i64;
    }
}

/// The value of a path, each week's average rounded in the direction `R`.
pub(crate) fn path_total<R: Direction>(demands: &Demands, path: &[u32], rows: &mut Rows) -> i128
    requires { IsPath demands.now.rules path.now }
    ensures value { result ≡ path_total R.quotient demands.now path.now }
    ensures size { IsWithin 100000000000000000000 result }
{
    let season = demands.season();
    let mut total = 0;
    for index in 0..season.stores() {
        write_salvage(season, index + 1, rows);
        total += i128::from(value_along::<R>(demands, index + 1, path, rows));
    }
    total
}
