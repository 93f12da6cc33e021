// The bound over all policies that the stores' tables make together.
ghost use Rattle.std.specs.Prelude.{◌≡◌, IfOk};
ghost use Rattle.clr_average.specs.Average.{IsWithin};
ghost use Rattle.clr_num.specs.Rounding.{ceil};
ghost use Rattle.clr_model.specs.Expected.{Tops};
ghost use Rattle.clr_model.specs.StoreValue.{bound};
ghost use Rattle.clr_mult.specs.Tables.{mult_at};
ghost use Rattle.clr_rules.specs.FirstPath.{SomePathObeys};
ghost use Rattle.clr_rules.specs.LiveSummaries.{live_pairs};
ghost use Rattle.clr_storedp.specs.Tables.{AreOfSeason, AreSmall, AreTablesOf};

use crate::table::StoreTable;
use clr_mult::Mult;
use clr_num::Up;
use clr_rules::Live;
use clr_season::Season;
use std::alloc::{AllocError, Global};

/// The table of each store of the season, in order, under multipliers of at most 10^16 in size, where some path obeys. `live`
/// is of the season.
///
/// # Errors
/// Where memory is wanting.
pub fn tables(
    alloc: Global,
    season: &Season,
    live: &Live,
    mult: &Mult,
) -> Result<Vec<StoreTable<Up>>, AllocError>
    requires live { live.now ≡ live_pairs season.now.rules }
    requires any { SomePathObeys season.now.rules }
    requires mult { AreOfSeason season.now mult.now }
    requires small { AreSmall mult.now }
    ensures { IfOk result (λ tables. AreTablesOf ceil (mult_at mult.now) season.now tables.items) }
{
    let count = season.stores();
    let mut tables = Vec::with_capacity(alloc, count as usize)?;
    for index in 0..count {
        let table = StoreTable::<Up>::build(alloc, season, live, mult, index + 1)?;
        tables.push(table)?;
    }
    Ok(tables)
}

/// The bound that multipliers give: over the stores, the sum of the values before the first week at full stocks. No policy that
/// keeps the rules earns more. `tables` has the table of each store, in order, under these multipliers.
pub fn bound(season: &Season, mult: &Mult, tables: &[StoreTable<Up>]) -> i128
    requires mult { AreOfSeason season.now mult.now }
    requires tables { AreTablesOf ceil (mult_at mult.now) season.now tables.now }
    ensures value { result ≡ bound (mult_at mult.now) season.now }
    ensures size { IsWithin 100000000000000000000 result }
    ensures tops { Tops season.now result }
{
    let start = season.rules().start();
    let mut total = 0;
    for (index, table) in tables.iter().enumerate() {
        table.has_entries();
        let stock = season.stock(index as u32 + 1);
        total += i128::from(table.at(0, start, stock));
    }
    mult.sums_to_zero();
    total
}
