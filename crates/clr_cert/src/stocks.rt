// The lists of stocks of all stores.
ghost use Rattle.clr_cert.specs.Lines.{stocks_at};
ghost use Rattle.clr_model.specs.Fits.{fits, stock_lists};
ghost use Rattle.clr_model.specs.Revenue.{full_stocks};
ghost use Rattle.std.specs.Prelude.{◌≡◌, ◌<◌, ◌-◌, length, take, IsTrue};

use clr_model::lists_of_stocks;
use clr_season::Season;

/// The most stores of a season that fits.
const MOST_STORES: usize = 4;

/// The list of stocks of this number, counted from 0, where the first store's goes slowest. Those of the season's stores
/// stand first.
pub(crate) fn list_of_stocks(season: &Season, index: u64) -> [u32; MOST_STORES]
    requires fits { IsTrue (fits season.now) }
    requires index { index < stock_lists season.now.stores }
    ensures { take (length season.now.stores) result ≡ stocks_at season.now index }
{
    let mut stocks = [0; MOST_STORES];
    let mut lists = lists_of_stocks(season);
    let mut rest = index;
    for at in 0..season.stores() {
        lists /= u64::from(season.stock(at + 1)) + 1;
        stocks[at as usize] = (rest / lists) as u32;
        rest %= lists;
    }
    stocks
}
