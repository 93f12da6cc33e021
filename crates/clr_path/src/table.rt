// A path's values over all stores.
ghost use Rattle.clr_average.specs.Average.{IsWithin};
ghost use Rattle.clr_model.specs.Expected.{den, season_earned};
ghost use Rattle.clr_model.specs.PathValue.{path_total};
ghost use Rattle.clr_model.specs.Policies.{const_tree};
ghost use Rattle.clr_model.specs.Revenue.{cent};
ghost use Rattle.clr_path.specs.Interval.{PathEncloses};
ghost use Rattle.clr_path.specs.Tables.{IsRowOf, full_value, path_rows, row_at, table_total, value_at};
ghost use Rattle.clr_rules.specs.Rules.{IsPath};
ghost use Rattle.std.specs.Prelude.{◌≡◌, ℕ, ◌≤◌, ◌<◌, ◌*ℤ◌, [], length, get_or, pos, EachIndex, IfOk};

use crate::rows::{StoreRows, build_rows};
use clr_model::Path;
use clr_num::Direction;
use clr_season::Season;
use std::alloc::{AllocError, Global};
use std::marker::{Model, PhantomData};

/// The values of a path in the direction `R`: low with `Down`, high with `Up`. It is seen as the list by store
/// of the lists by weeks done, from none to all of them, of the values at the stocks from 0 to the store's own.
#[derive(Drop)]
pub struct PathTable<R: Direction> {
    stores: Vec<StoreRows>,
    direction: PhantomData<R>,
}

impl<R: Direction> Model for PathTable<R> {
    ghost use Rattle.std.specs.Prelude.{ℤ, List};
    ghost use Rattle.clr_path.specs.Tables.{IsTable};

    ghost Value = { List (List (List ℤ)) };

    ghost view = { λ t. t.stores.items };

    ghost invariant = { λ t. IsTable t.stores.items };
}

impl<R: Direction> PathTable<R> {
    /// The table of a path of the season. Its total leans in the direction `R` from what the path earns in expectation. The
    /// values are those of docs/model.md, "The value of a path", in units, of which a cent has 10^6.
    ///
    /// # Errors
    /// Where memory is wanting.
    pub fn build(alloc: Global, season: &Season, path: &Path) -> Result<PathTable<R>, AllocError>
        requires { IsPath season.now.rules path.now }
        ensures rows { IfOk result (λ table. table ≡ path_rows R.quotient season.now path.now) }
        ensures total { IfOk result (λ table. table_total table ≡ path_total R.quotient season.now path.now) }
        ensures leans { IfOk result (λ table. R.leans (table_total table *ℤ den season.now season.now.rules.weeks) (pos cent *ℤ season_earned season.now (const_tree path.now))) }
    {
        let count = season.stores();
        let mut stores = Vec::with_capacity(alloc, count as usize)?;
        for index in 0..count {
            stores.push(build_rows::<R>(alloc, season, index + 1, path)?)?;
        }
        Ok(PathTable {
            stores,
            direction: PhantomData,
        })
    }

    /// A store's values after `done` weeks, at the stocks from 0 up.
    pub fn row(&self, done: u32, store: u32) -> &[i64]
        requires { IsRowOf self.now done store }
        ensures value { result.now ≡ row_at self.now store done }
        ensures size { EachIndex result.now (λ stock. IsWithin 20000000000000000 (get_or result.now stock (pos 0))) }
    {
        self.stores[store as usize - 1].row(done)
    }

    /// A store's value after `done` weeks with this stock.
    pub fn at(&self, done: u32, store: u32, stock: u32) -> i64
        requires row { IsRowOf self.now done store }
        requires stock { stock < length (row_at self.now store done) }
        ensures value { result ≡ value_at self.now store done stock }
        ensures size { IsWithin 20000000000000000 result }
    {
        self.row(done, store)[stock as usize]
    }

    /// The value of the path: over the stores, the sum of the values before the first week at the whole stocks.
    pub fn total(&self) -> i128
        ensures value { result ≡ table_total self.now }
        ensures size { IsWithin 100000000000000000000 result }
    {
        let mut total = 0;
        for rows in &self.stores {
            total += i128::from(full(rows.row(0)));
        }
        total
    }
}

/// The value at the whole stock.
fn full(row: &[i64]) -> i64
    requires { 0 < length row.now }
    ensures { result ≡ full_value row.now }
{
    row[row.len() - 1]
}

/// The totals of a path's two tables enclose what the path earns in expectation, and lie at most a unit apart for each store
/// and week.
pub fn path_encloses()
    ensures { PathEncloses }
{}
