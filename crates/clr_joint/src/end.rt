// What the stocks are worth at the end of the season.
ghost use Rattle.clr_model.specs.Stocks.{lists_of, stocks_at};
ghost use Rattle.clr_model.specs.Fits.{fits};
ghost use Rattle.clr_model.specs.JointValue.{end_value};
ghost use Rattle.clr_model.specs.Revenue.{full_stocks};
ghost use Rattle.clr_rows.specs.Rows.{AreWithin};
ghost use Rattle.std.specs.Prelude.{◌≡◌, ℕ, ◌<◌, ◌≤◌, ◌+◌, ◌*◌, ◌/◌, ◌%◌, ℤ, pos, ◌+ℤ◌, length, get_or, IfOk, IsTrue};

use clr_model::CENT;
use clr_season::Season;
use std::alloc::{AllocError, Global};

/// The worth of the lists of stocks with one store more, which goes slowest: each of its units is worth `unit`, and it has from none
/// to one less than `stocks`.
fn with_store(alloc: Global, row: &[i64], unit: u64, stocks: usize) -> Result<Vec<i64>, AllocError>
    requires some { 0 < length row.now }
    requires few { stocks * length row.now ≤ 1000000 }
    requires stocks { stocks ≤ 2001 }
    requires unit { unit ≤ 10000000000000 }
    requires values { AreWithin 60000000000000000 row.now }
    ensures size { IfOk result (λ now. length now.items ≡ stocks * length row.now) }
    ensures each { IfOk result (λ now. (place : ℕ) → place < stocks * length row.now → get_or now.items place (pos 0) ≡ pos (unit * (place / length row.now)) +ℤ get_or row.now (place % length row.now) (pos 0)) }
{
    let mut now = Vec::with_capacity(alloc, stocks * row.len())?;
    for place in 0..stocks * row.len() {
        let worth = (unit * (place / row.len()) as u64) as i64;
        now.push(worth + row[place % row.len()])?;
    }
    Ok(now)
}

/// What each list of stocks is worth at the end, in the order of lists.
pub fn end_row(alloc: Global, season: &Season) -> Result<Vec<i64>, AllocError>
    requires { IsTrue (fits season.now) }
    ensures size { IfOk result (λ row. length row.items ≡ lists_of (full_stocks season.now)) }
    ensures values { IfOk result (λ row. (place : ℕ) → place < lists_of (full_stocks season.now) → get_or row.items place (pos 0) ≡ end_value season.now (stocks_at (full_stocks season.now) place)) }
{
    let mut row = vec![in alloc; 0; 1]?;
    for taken in 0..season.stores() {
        let store = season.stores() - taken;
        let unit = CENT * season.salvage(store);
        row = with_store(alloc, &row, unit, season.stock(store) as usize + 1)?;
    }
    Ok(row)
}
