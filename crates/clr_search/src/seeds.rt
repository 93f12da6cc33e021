// The paths that a search begins with.
ghost use Rattle.std.specs.Prelude.{◌≡◌, ℕ, ◌+◌, ◌-◌, ◌≤◌, ◌<◌, ◌++◌, [], length, replicate, IfOk, IsTrue};
ghost use Rattle.clr_mult.specs.Tables.{mult_at};
ghost use Rattle.clr_rules.specs.FirstPath.{IsFirstObeying, SomePathObeys};
ghost use Rattle.clr_rules.specs.Rules.{IsPath, markdowns, obeys};
ghost use Rattle.clr_search.specs.Found.{season_terms, seeds};
ghost use Rattle.clr_search.specs.Seeds.{AreBehind, IsBehind, IsSeed, IsSeedAfter, once};
ghost use Rattle.clr_walk.specs.Prefixes.{Among, IsChosen};

use crate::paths::SeasonPaths;
use crate::rows::Rows;
use crate::totals::path_total;
use clr_num::Down;
use clr_walk::{Problem, is_better};
use std::alloc::{AllocError, Global};

/// The best seed so far, and its low value.
#[derive(Drop)]
pub(crate) struct Seed {
    pub(crate) path: Vec<u32>,
    low: i128,
}

/// Whether a path obeys.
fn obeys(paths: &SeasonPaths, path: &[u32]) -> bool
    requires path { IsPath paths.now.season.rules path.now }
    requires any { SomePathObeys paths.now.season.rules }
    ensures { result ≡ obeys paths.now.season.rules path.now }
{
    let mut summary = paths.demands().season().rules().start();
    for done in 0..path.len() {
        match paths.next(&path[..done], summary, path[done]) {
            Some(next) => summary = next,
            None => return false,
        }
    }
    true
}

/// Puts a path in the place of the best seed so far where it obeys and is better.
fn offer(paths: &SeasonPaths, path: &[u32], rows: &mut Rows, seed: &mut Seed)
    requires path { IsPath paths.now.season.rules path.now }
    requires any { SomePathObeys paths.now.season.rules }
    requires few { markdowns path.now ≤ 1 }
    requires seed { IsSeed paths.now.season seed.old }
    ensures seed { IsSeed paths.now.season seed.new }
    ensures after { IsSeedAfter paths.now.season path.now seed.old seed.new }
{
    if obeys(paths, path) {
        let low = path_total::<Down>(paths.demands(), path, rows);
        if is_better(low, seed.low, path, &seed.path) {
            seed.path.copy_from_slice(path);
            seed.low = low;
        }
    }
}

/// Writes the path that stands on the first rung for so many weeks, and then on a rung to the end.
fn write_once(path: &mut [u32], week: usize, rung: u32)
    requires { week ≤ length path.old }
    ensures { path.new ≡ once (length path.old) week rung }
{
    path[..week].fill(1);
    path[week..].fill(rung);
}

/// Offers each path that leaves the first rung once, after so many weeks. Each is written into the buffer `path`.
fn offer_week(paths: &SeasonPaths, week: usize, path: &mut [u32], rows: &mut Rows, seed: &mut Seed)
    requires any { SomePathObeys paths.now.season.rules }
    requires week { week < paths.now.season.rules.weeks }
    requires size { length path.old ≡ paths.now.season.rules.weeks }
    requires seed { IsSeed paths.now.season seed.old }
    ensures seed { IsSeed paths.now.season seed.new }
    ensures old { IsBehind paths.now.season seed.new.path.items seed.old.path.items }
    ensures offered { AreBehind paths.now.season seed.new.path.items week (length paths.now.season.rules.prices + 1) }
{
    for rung in 2..paths.demands().season().rungs() + 1 {
        write_once(path, week, rung);
        offer(paths, path, rows, seed);
    }
}

/// The best seed: the one with the greatest low value, and the first in list order among those with that value. Some path obeys.
///
/// # Errors
/// Where memory is wanting.
pub(crate) fn best_seed(
    alloc: Global,
    paths: &SeasonPaths,
    rows: &mut Rows,
) -> Result<Vec<u32>, AllocError>
    requires { SomePathObeys paths.now.season.rules }
    ensures { IfOk result (λ path. IsChosen (season_terms (mult_at paths.now.mult) paths.now.season) (seeds paths.now.season.rules) path.items) }
{
    let weeks = paths.demands().season().weeks() as usize;
    let path = paths.first(alloc)?;
    let low = path_total::<Down>(paths.demands(), &path, rows);
    let mut seed = Seed { path, low };
    let mut other = vec![in alloc; 1; weeks]?;
    offer(paths, &other, rows, &mut seed);
    for week in 0..weeks {
        offer_week(paths, week, &mut other, rows, &mut seed);
    }
    Ok(seed.path)
}
