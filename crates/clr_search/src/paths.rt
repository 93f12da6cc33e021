// The paths of a season, as a search goes over them.
ghost use Rattle.std.specs.Prelude.{◌≡◌, ℕ, suc, ◌+◌, ◌≤◌, ◌<◌, List, [], ◌∷◌, ◌++◌, pos, length, get_or, IfOk, MatchOption, IsTrue, false};
ghost use Rattle.clr_average.specs.Average.{IsWithin};
ghost use Rattle.clr_model.specs.PrefixBound.{prefix_bound};
ghost use Rattle.clr_mult.specs.Tables.{mult_at};
ghost use Rattle.clr_rules.specs.FirstPath.{IsFirstObeying, SomePathObeys};
ghost use Rattle.clr_rules.specs.Rules.{is_live, summary};
ghost use Rattle.clr_search.specs.ClosedLaw.{live_closed};
ghost use Rattle.clr_search.specs.Found.{season_terms};
ghost use Rattle.clr_search.specs.Settings.{IsSetting, Stands};
ghost use Rattle.clr_walk.specs.Prefixes.{Terms};

use crate::demands::Demands;
use crate::rows::{Rows, value_along};
use crate::totals::path_total;
use clr_mult::Mult;
use clr_num::{Down, Up};
use clr_rules::{Live, Summary, first_path};
use clr_season::Season;
use clr_storedp::StoreTable;
use clr_walk::Problem;
use std::alloc::{AllocError, Global};
use std::marker::Model;

/// The paths of a season, with the stores' tables under multipliers, which bound the paths that begin with a prefix. It
/// is seen as the season and the multipliers.
#[derive(Drop)]
pub(crate) struct SeasonPaths<'a> {
    demands: Demands<'a>,
    live: &'a Live,
    mult: &'a Mult,
    tables: &'a [StoreTable<Up>],
}

impl<'a> Model for SeasonPaths<'a> {
    ghost use Rattle.clr_search.specs.Settings.{Setting, IsSetting};

    ghost Value = { Setting };

    ghost view = { λ p. record { season = p.demands; mult = p.mult.now } };

    ghost invariant = { λ p. IsSetting p.demands p.live.now p.mult.now p.tables.now };
}

/// Writes a row at the front of another.
fn write_row(row: &[i64], rows: &mut Rows)
    requires { length row.now ≤ 2001 }
    ensures { (k : ℕ) → k < length row.now → get_or rows.new.after.items k (pos 0) ≡ get_or row.now k (pos 0) }
{
    for (stock, value) in row.iter().enumerate() {
        rows.after[stock] = *value;
    }
}

impl<'a> SeasonPaths<'a> {
    /// The paths of a season. `live` is of it, and `tables` has the table of each store, in order, under these multipliers.
    pub(crate) fn new(
        demands: Demands<'a>,
        live: &'a Live,
        mult: &'a Mult,
        tables: &'a [StoreTable<Up>],
    ) -> SeasonPaths<'a>
        requires { IsSetting demands live.now mult.now tables.now }
        ensures season { result.season ≡ demands.entry }
        ensures mult { result.mult ≡ mult.now }
    {
        SeasonPaths {
            demands,
            live,
            mult,
            tables,
        }
    }

    /// The season with its demands.
    pub(crate) fn demands(&self) -> &Demands<'a>
        ensures { result.now ≡ self.now.season }
    {
        &self.demands
    }

    /// The first obeying path, where some path obeys.
    ///
    /// # Errors
    /// Where memory is wanting.
    pub(crate) fn first(&self, alloc: Global) -> Result<Vec<u32>, AllocError>
        requires { SomePathObeys self.now.season.rules }
        ensures { IfOk result (λ path. IsFirstObeying self.now.season.rules path.items) }
    {
        let path = first_path(alloc, self.demands.season().rules(), self.live)?;
        Ok(path)
    }

    /// The bound of a live prefix with this summary.
    pub(crate) fn bound(&self, prefix: &[u32], s: Summary, rows: &mut Rows) -> i128
        requires { Stands self.now.season.rules s prefix.now }
        ensures { result ≡ prefix_bound (mult_at self.now.mult) self.now.season prefix.now }
    {
        let stores = self.demands.season().stores();
        let done = prefix.len() as u32;
        let mut total = 0;
        for index in 0..stores {
            let table = &self.tables[index as usize];
            write_row(table.row(done, s), rows);
            total += i128::from(value_along::<Up>(&self.demands, index + 1, prefix, rows));
        }
        total
    }
}

impl<'a> Problem for SeasonPaths<'a> {
    type State = Summary;

    type Work = Rows;

    ghost terms = { λ p. season_terms (mult_at p.mult) p.season };

    ghost stands = { λ p s prefix. Stands p.season.rules s prefix };

    fn weeks(&self) -> u32 {
        self.demands.season().weeks()
    }

    fn rungs(&self) -> u32 {
        self.demands.season().rungs()
    }

    fn next(&self, prefix: &[u32], state: Summary, rung: u32) -> Option<Summary> {
        let season = self.demands.season();
        let done = prefix.len() as u32;
        match season.rules().next(done, state, rung) {
            Some(next) if self.live.has(done + 1, next) => Some(next),
            _ => None,
        }
    }

    fn reaches(&self, work: &mut Rows, prefix: &[u32], state: Summary, seed: i128) -> bool {
        self.bound(prefix, state, work) >= seed
    }

    fn low(&self, work: &mut Rows, path: &[u32]) -> i128 {
        path_total::<Down>(&self.demands, path, work)
    }

    ghost closed = { λ p. live_closed p.season.rules };
}
