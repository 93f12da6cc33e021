// The search.
ghost use Rattle.std.specs.Prelude.{◌≡◌, ℕ, IfOk, IsTrue};
ghost use Rattle.clr_average.specs.Average.{IsWithin};
ghost use Rattle.clr_model.specs.Laws.{IsInterval};
ghost use Rattle.clr_mult.specs.Tables.{mult_at};
ghost use Rattle.clr_num.specs.Rounding.{ceil};
ghost use Rattle.clr_rules.specs.FirstPath.{SomePathObeys};
ghost use Rattle.clr_rules.specs.LiveSummaries.{live_pairs};
ghost use Rattle.clr_rules.specs.Rules.{obeys};
ghost use Rattle.clr_model.specs.StoreValue.{SumToZero};
ghost use Rattle.clr_search.specs.Found.{IsAnswer, IsBestOfAll, IsFound};
ghost use Rattle.clr_storedp.specs.Tables.{AreOfSeason, AreTablesOf};

use crate::demands::Demands;
use crate::paths::SeasonPaths;
use crate::rows::Rows;
use crate::seeds::best_seed;
use crate::totals::path_total;
use clr_model::Path;
use clr_mult::Mult;
use clr_num::Up;
use clr_rules::Live;
use clr_season::Season;
use clr_storedp::StoreTable;
use std::alloc::{AllocError, Global};

/// What a search has found.
#[derive(Drop)]
pub struct Found {
    /// The path.
    pub path: Path,
    /// Its low value, in units.
    pub low: i128,
    /// Its high value, in units.
    pub high: i128,
    /// Whether no more prefixes were tight than were to be taken, and so the path is the best of all.
    pub best: bool,
}

/// Searches the paths of a season, of which some path obeys.
fn search_paths(alloc: Global, paths: &SeasonPaths, nodes: u64) -> Result<Found, AllocError>
    requires any { SomePathObeys paths.now.season.rules }
    requires sums { SumToZero paths.now.season (mult_at paths.now.mult) }
    ensures { IfOk result (λ found. IsAnswer paths.now.season (mult_at paths.now.mult) nodes found.path found.low found.high found.best) }
{
    let season = paths.demands().season();
    let mut rows = Rows::new(alloc)?;
    let first = best_seed(alloc, paths, &mut rows)?;
    let start = season.rules().start();
    let searched = clr_walk::search(alloc, paths, &mut rows, start, first, nodes)?;
    let high = path_total::<Up>(paths.demands(), &searched.path, &mut rows);
    let path = Path::new(alloc, season, &searched.path)?;
    Ok(Found {
        path,
        low: searched.low,
        high,
        best: searched.best,
    })
}

/// Searches a season for the path with the greatest low value. It takes `nodes` tight prefixes at most.
///
/// The seeds are the first obeying path in list order and the obeying paths with at most one markdown week. A live nonempty
/// prefix is tight where each proper nonempty prefix of it has a bound of at least the best low value of the seeds. The path is
/// the best of the seeds and of the whole paths among the first tight prefixes, in list order and each before its extensions; of
/// equal ones it is the first in list order. Where there are no more tight prefixes than `nodes`, it is the best of all obeying paths.
/// The rule is that of docs/model.md, "The search".
///
/// `live` is of the season, of which some path obeys, and `tables` has the table of each store, in order, under the multipliers.
///
/// # Errors
/// Where memory is wanting.
pub fn search(
    alloc: Global,
    season: &Season,
    live: &Live,
    mult: &Mult,
    tables: &[StoreTable<Up>],
    nodes: u64,
) -> Result<Found, AllocError>
    requires live { live.now ≡ live_pairs season.now.rules }
    requires any { SomePathObeys season.now.rules }
    requires mult { AreOfSeason season.now mult.now }
    requires tables { AreTablesOf ceil (mult_at mult.now) season.now tables.now }
    ensures found { IfOk result (λ found. IsFound season.now (mult_at mult.now) nodes found.path found.low found.high found.best) }
    ensures obeys { IfOk result (λ found. IsTrue (obeys season.now.rules found.path)) }
    ensures best { IfOk result (λ found. IsTrue found.best → IsBestOfAll season.now found.path) }
    ensures interval { IfOk result (λ found. IsInterval season.now found.path found.low found.high) }
    ensures size { IfOk result (λ found. IsWithin 100000000000000000000 found.low × IsWithin 100000000000000000000 found.high) }
{
    let demands = Demands::build(alloc, season)?;
    let paths = SeasonPaths::new(demands, live, mult, tables);
    mult.sums_to_zero();
    let found = search_paths(alloc, &paths, nodes)?;
    Ok(found)
}
