// Paths of seasons that are worked by hand.
ghost use Rattle.clr_path.specs.Tables.{path_rows};
ghost use Rattle.clr_rules.specs.Rules.{IsPath};
ghost use Rattle.std.specs.Prelude.{◌≡◌, IfOk};

use crate::seasons::shows;
use clr_model::Path;
use clr_num::{Direction, Down};
use clr_path::PathTable;
use clr_season::Season;
use std::alloc::{AllocError, Global};
use std::test::Fail;

fn table<R: Direction>(
    alloc: Global,
    season: &Season,
    rungs: &[u32],
) -> Result<PathTable<R>, AllocError>
    requires { IsPath season.now.rules rungs.now }
    ensures { IfOk result (λ table. table ≡ path_rows R.quotient season.now rungs.now) }
{
    let path = Path::new(alloc, season, rungs)?;
    PathTable::build(alloc, season, &path)
}

// The path's value, all of the store's values after no week, and the one after a week with two units.
fn rows(alloc: Global, season: &Season, _told: &str) -> Result<String, AllocError> {
    if season.weeks() != 2 || season.rungs() != 2 || season.stores() != 1 || season.stock(1) != 2 {
        return String::from_str(alloc, "another season");
    }
    let table = table::<Down>(alloc, season, &[1, 2])?;
    format!(in alloc;
        "{} {:?} {}",
        table.total(),
        table.row(0, 1),
        table.at(1, 1, 2)
    )
}

// Two units and no salvage. In week 1 at 10.00 one in two asks for one; in week 2 at 4.00 all ask for two.
#[test]
fn rows_are_by_weeks_done(rt: HostRuntime) -> Result<(), Fail> {
    let files = "f/stock.csv store,units,salvage|a,2,0.00|";
    let want = "1100000000 [0, 700000000, 1100000000] 800000000";
    assert!(rt; shows(rt.alloc(), files, rows, "", want)?);
    Ok(())
}
