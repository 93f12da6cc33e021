// What a path earns, summed over all outcomes, beside the two values of its tables: small seasons of all versions, worked by
// hand.
ghost use Rattle.clr_model.specs.PathValue.{path_total};
ghost use Rattle.clr_rules.specs.Rules.{IsPath};
ghost use Rattle.std.specs.Prelude.{◌≡◌, IfOk};

use crate::seasons::{shows, want_and_rest};
use clr_model::Path;
use clr_num::{Direction, Down, Up};
use clr_path::PathTable;
use clr_plain::expected_cents;
use clr_rules::{Live, first_path};
use clr_season::Season;
use std::alloc::{AllocError, Global};
use std::test::Fail;

// A case has a heading; a line for the path that the season forces, what it earns in cents times the base to the number of stores
// times weeks, and its low and high value; and the files of the season that aren't the common ones.
const CASES: &str = r#"# (3 * 10.00 + 1 * 2.00) / 4
[1] 3200 800000000 800000000
f/rules.json {"weeks":1,"base":4}
f/calendar.csv
f/ladder.csv rung,price|1,10.00|
f/stock.csv store,units,salvage|a,1,2.00|
f/demand.csv store,week,rung,units,weight|a,1,1,0,1|a,1,1,1,3|

# (2 * 10.00 + 1 * 2.00) / 3
[1] 2200 733333333 733333334
f/rules.json {"weeks":1,"base":3}
f/calendar.csv
f/ladder.csv rung,price|1,10.00|
f/stock.csv store,units,salvage|a,1,2.00|
f/demand.csv store,week,rung,units,weight|a,1,1,0,1|a,1,1,1,2|

# Sold in one of two weeks but in 1 of 9 cases: (8 * 10.00 + 1 * 2.00) / 9
[1, 1] 8200 911111111 911111112
f/rules.json {"weeks":2,"base":3}
f/calendar.csv
f/ladder.csv rung,price|1,10.00|
f/stock.csv store,units,salvage|a,1,2.00|
f/demand.csv store,week,rung,units,weight|a,1,1,0,1|a,1,1,1,2|a,2,1,0,1|a,2,1,1,2|

# Two stores: one sells its unit, the other none.
[1] 4000 1000000000 1000000000
f/rules.json {"weeks":1,"base":2}
f/calendar.csv
f/ladder.csv rung,price|1,10.00|2,6.00|
f/stock.csv store,units,salvage|a,1,0|b,1,0|
f/demand.csv store,week,rung,units,weight|a,1,1,1,2|a,1,2,1,2|b,1,1,0,2|b,1,2,1,2|

# Half the time one unit at 10.00 and one at 4.00, half the time two at 4.00.
[1, 2] 4400 1100000000 1100000000
f/rules.json {"weeks":2,"base":2,"calendar":true}
f/calendar.csv week,from,to,frozen|2,2,2,0|

# The same, less a cost of 0.50 in the one markdown week.
[1, 2] 4200 1050000000 1050000000
f/rules.json {"version":2,"weeks":2,"base":2,"calendar":true}
f/calendar.csv week,from,to,frozen|2,2,2,0|
f/stock.csv store,units,salvage,relabel|a,2,0,0.50|

# Nothing to sell, and a cost of 3.00.
[2] -300 -300000000 -300000000
f/rules.json {"version":2,"weeks":1,"base":1,"calendar":true}
f/calendar.csv week,from,to,frozen|1,2,12,0|
f/ladder.csv rung,price|1,10.00|2,6.00|
f/stock.csv store,units,salvage,relabel|a,0,0,3.00|
f/demand.csv store,week,rung,units,weight|a,1,1,0,1|a,1,2,0,1|

# Weights 1 and 3, scaled to the base 12: 8.00 times 12.
[1] 9600 800000000 800000000
f/rules.json {"version":3,"weeks":1,"base":12}
f/calendar.csv
f/ladder.csv rung,price|1,10.00|
f/stock.csv store,units,salvage,relabel|a,1,2.00,0|
f/demand.csv store,week,rung,units,weight|a,1,1,0,1|a,1,1,1,3|"#;

fn total<R: Direction>(alloc: Global, season: &Season, path: &Path) -> Result<i128, AllocError>
    requires { IsPath season.now.rules path.now }
    ensures { IfOk result (λ total. total ≡ path_total R.quotient season.now path.now) }
{
    let table = PathTable::<R>::build(alloc, season, path)?;
    Ok(table.total())
}

// A path with the sum over all outcomes, where there are few enough, and its two values.
fn worth(alloc: Global, season: &Season, path: &Path) -> Result<String, AllocError>
    requires { IsPath season.now.rules path.now }
{
    if season.base() > 12 || season.stores() > 2 || season.weeks() > 8 {
        return String::from_str(alloc, "too many outcomes");
    }
    let cents = expected_cents(alloc, season, path)?;
    let low = total::<Down>(alloc, season, path)?;
    let high = total::<Up>(alloc, season, path)?;
    format!(in alloc; "{:?} {cents} {low} {high}", path.rungs())
}

// The first path that obeys, with what it is worth.
fn forced(alloc: Global, season: &Season, _told: &str) -> Result<String, AllocError> {
    let live = Live::build(alloc, season.rules())?;
    if !live.any() {
        return String::from_str(alloc, "no path");
    }
    let rungs = first_path(alloc, season.rules(), &live)?;
    let path = Path::new(alloc, season, &rungs)?;
    worth(alloc, season, &path)
}

// Whether a season forces what its case says.
fn is_forced(alloc: Global, case: &str) -> Result<bool, Fail> {
    let (want, files) = want_and_rest(case);
    shows(alloc, files, forced, "", want)
}

#[test]
fn outcomes_sum_to_a_path_s_values(rt: HostRuntime) -> Result<(), Fail> {
    for case in CASES.split("\n\n") {
        assert!(rt; is_forced(rt.alloc(), case)?, "{case}");
    }
    Ok(())
}
