// A season of its parts, where its tables have few enough cells.
ghost use Rattle.std.specs.Prelude.{◌≡◌, ◌≤◌, IfOk, IsErrOf, length};
ghost use Rattle.clr_season.specs.declared.reads.File.{File};
ghost use Rattle.clr_rules.specs.Limits.{AreLimits};
ghost use Rattle.clr_rules.specs.Rules.{IsRulebook, rulebook_of};
ghost use Rattle.clr_stock.specs.Stock.{AreStores};
ghost use Rattle.clr_demand.specs.Weights.{AreWeights};
ghost use Rattle.clr_season.specs.Reads.{Gives, season_within};
ghost use Rattle.clr_season.specs.Season.{cells, stock_cells, store_cells};

use crate::reads::SeasonError;
use crate::season::Season;
use clr_demand::Demand;
use clr_rules::{Calendar, Limits, Rules};
use clr_stock::{Ladder, Stock};
use std::alloc::{AllocError, Global};

const MOST_CELLS: u64 = 16_000_000;

// The rules of these limits, this calendar and this ladder.
fn season_rules(
    alloc: Global,
    limits: Limits,
    calendar: Calendar,
    ladder: &Ladder,
) -> Result<Rules, AllocError>
    requires limits { AreLimits limits }
    requires calendar { length calendar ≡ limits.weeks }
    ensures rules { IfOk result (λ r. r ≡ rulebook_of limits calendar ladder.now) }
    ensures facts { IfOk result (λ r. IsRulebook r) }
{
    Rules::new(alloc, limits, calendar, ladder.prices())
}

// The table cells for each stock that a store may have.
fn cells_of_stock(rules: &Rules) -> u64
    ensures value { result ≡ stock_cells rules.now }
    ensures range { result ≤ 99216 }
{
    let weeks = u64::from(rules.weeks());
    let rungs = u64::from(rules.rungs());
    let counts = u64::from(rules.markdowns()).min(rungs - 1).min(weeks) + 1;
    (weeks + 1) * rungs * counts * u64::from(rules.spacing())
}

// The table cells of a store of so many units.
fn cells_of_store(rules: &Rules, units: u32) -> u64
    requires { units ≤ 2000 }
    ensures value { result ≡ store_cells rules.now units }
    ensures range { result ≤ 198531216 }
{
    cells_of_stock(rules) * (u64::from(units) + 1)
}

// The table cells of all stores.
fn all_cells(rules: &Rules, stock: &Stock) -> u64
    ensures { result ≡ cells rules.now stock.now }
{
    let mut sum = 0;
    for index in 0..stock.len() {
        sum += cells_of_store(rules, stock.units(index + 1));
    }
    sum
}

// The season of these parts, where its cells are not too many.
#[tactic(auto, unfolding(crate::specs::Reads::season_within))]
pub(crate) fn season_of_parts(
    alloc: Global,
    limits: Limits,
    calendar: Calendar,
    ladder: &Ladder,
    stock: Stock,
    demand: Demand,
) -> Result<Season, SeasonError>
    requires limits { AreLimits limits }
    requires calendar { length calendar ≡ limits.weeks }
    requires some { 1 ≤ length stock }
    requires stores { AreStores stock }
    requires weights { AreWeights (length stock) limits.weeks (length ladder.now) limits.base demand }
    ensures gives { Gives (λ s. s) result (season_within limits calendar ladder.now stock demand) }
    ensures no_read { (f : File) → IsErrOf result (SeasonError.Read f) → ⊥ }
    ensures no_length { (f : File) → IsErrOf result (SeasonError.TooLong f) → ⊥ }
{
    let Ok(rules) = season_rules(alloc, limits, calendar, ladder) else {
        return Err(SeasonError::Memory);
    };
    let found = all_cells(&rules, &stock);
    if found > MOST_CELLS {
        return Err(SeasonError::Cells { found });
    }
    Ok(Season::of_parts(limits.version, rules, stock, limits.base, demand))
}
