// Rules and calendars: which path is printed, or that there is none; the first steps and nodes; and chains of many stores.
use crate::cases::{NONE_FAILS, SMALLEST, held, is_told, unanswered};
use crate::certs::certify;
use clr_io::MemoryDesk;
use std::alloc::{AllocError, Global};
use std::test::Fail;

const PATHS: &str =
    r#"# Three weeks and three rungs: one unit more is sold in each week from the first rung that stands in this table on.
rules.json {"weeks":3,"base":1,"calendar":true}
calendar.csv week,from,to,frozen|
ladder.csv rung,price|1,10.00|2,8.00|3,5.00|
stock.csv store,units,salvage|a,3,0|
demand.csv store,week,rung,units,weight|a,1,1,1,1|a,1,2,1,1|a,1,3,1,1|a,2,1,0,1|a,2,2,1,1|a,2,3,1,1|a,3,1,0,1|a,3,2,0,1|a,3,3,1,1|

rules.json {"weeks":3,"base":1}
= 0 ..path 1 2 3|prices 10.00 8.00 5.00|revenue 23.00000000 23.00000000|best yes|bound 23.00000000 step 0|gap 0.00000000|exact 23.00000000 23.00000000 first 1|

# Two markdowns at least two weeks apart; one markdown.
rules.json {"weeks":3,"base":1,"spacing":2}
calendar.csv
= 0 ..path 2 2 3|prices 8.00 8.00 5.00|revenue 21.00000000 21.00000000|best yes|bound 21.00000000 step 0|gap 0.00000000|exact 21.00000000 21.00000000 first 2|

rules.json {"weeks":3,"base":1,"markdowns":1}
calendar.csv
= 0 ..path 1 3 3|prices 10.00 5.00 5.00|revenue 20.00000000 20.00000000|best yes|bound 20.00000000 step 0|gap 0.00000000|exact 20.00000000 20.00000000 first 1|

# One markdown, which must be the one of the second week.
rules.json {"weeks":3,"base":1,"markdowns":1,"calendar":true}
calendar.csv week,from,to,frozen|2,2,12,0|3,3,12,0|
= 0 ..path 1 3 3|prices 10.00 5.00 5.00|revenue 20.00000000 20.00000000|best yes|bound 20.00000000 step 0|gap 0.00000000|exact 20.00000000 20.00000000 first 1|

# Two markdowns two weeks apart.
rules.json {"weeks":3,"base":1,"spacing":2,"calendar":true}
calendar.csv week,from,to,frozen|3,3,12,0|2,2,12,0|
= 0 ..path 2 2 3|prices 8.00 8.00 5.00|revenue 21.00000000 21.00000000|best yes|bound 21.00000000 step 0|gap 0.00000000|exact 21.00000000 21.00000000 first 2|

rules.json {"weeks":3,"base":1,"spacing":2,"calendar":true}
calendar.csv week,from,to,frozen|1,2,12,0|3,3,12,0|
= 0 ..path 2 2 3|prices 8.00 8.00 5.00|revenue 21.00000000 21.00000000|best yes|bound 21.00000000 step 0|gap 0.00000000|exact 21.00000000 21.00000000 first 2|

# A spacing that ends past the season.
rules.json {"weeks":3,"base":1,"spacing":12,"calendar":true}
calendar.csv week,from,to,frozen|3,2,12,0|
= 0 ..path 1 3 3|prices 10.00 5.00 5.00|revenue 20.00000000 20.00000000|best yes|bound 20.00000000 step 0|gap 0.00000000|exact 20.00000000 20.00000000 first 1|

# A window that ends past the last rung, and one that begins there.
calendar.csv week,from,to,frozen|2,3,12,0|
= 0 ..path 1 3 3|prices 10.00 5.00 5.00|revenue 20.00000000 20.00000000|best yes|bound 20.00000000 step 0|gap 0.00000000|exact 20.00000000 20.00000000 first 1|

calendar.csv week,from,to,frozen|2,4,12,0|
= 3 no path

# A frozen week keeps the rung before it; a frozen first week keeps the first.
calendar.csv week,from,to,frozen|3,2,2,1|
= 0 ..path 1 2 2|prices 10.00 8.00 8.00|revenue 18.00000000 18.00000000|best yes|bound 18.00000000 step 0|gap 0.00000000|exact 18.00000000 18.00000000 first 1|

calendar.csv week,from,to,frozen|1,2,12,1|
= 3 no path

# No markdown at all.
rules.json {"weeks":3,"base":1,"markdowns":0,"calendar":true}
calendar.csv week,from,to,frozen|2,1,12,0|
= 0 ..path 1 1 1|prices 10.00 10.00 10.00|revenue 10.00000000 10.00000000|best yes|bound 10.00000000 step 0|gap 0.00000000|exact 10.00000000 10.00000000 first 1|

rules.json {"weeks":3,"base":1,"markdowns":0,"calendar":true}
calendar.csv week,from,to,frozen|3,2,12,0|
= 3 no path

# The first markdown may cut 20 in 100, as far as the second rung and no deeper; later ones may.
rules.json {"weeks":3,"base":1,"first_cut":20,"calendar":true}
calendar.csv week,from,to,frozen|2,2,12,0|
= 0 ..path 1 2 3|prices 10.00 8.00 5.00|revenue 23.00000000 23.00000000|best yes|bound 23.00000000 step 0|gap 0.00000000|exact 23.00000000 23.00000000 first 1|

rules.json {"weeks":3,"base":1,"first_cut":19,"calendar":true}
calendar.csv week,from,to,frozen|2,2,12,0|
= 3 no path

rules.json {"weeks":3,"base":1,"first_cut":20,"calendar":true}
calendar.csv week,from,to,frozen|3,3,12,0|
= 0 ..path 1 2 3|prices 10.00 8.00 5.00|revenue 23.00000000 23.00000000|best yes|bound 23.00000000 step 0|gap 0.00000000|exact 23.00000000 23.00000000 first 1|

rules.json {"weeks":3,"base":1,"first_cut":10}
calendar.csv
= 0 ..path 1 1 1|prices 10.00 10.00 10.00|revenue 10.00000000 10.00000000|best yes|bound 10.00000000 step 0|gap 0.00000000|exact 10.00000000 10.00000000 first 1|

# A window that shuts what the week before opened.
calendar.csv week,from,to,frozen|1,2,12,0|2,1,1,0|
= 3 no path

# The first paths that the search looks at, by their number: there are 13 tight prefixes, and the fifth is the best path.
rules.json {"weeks":3,"base":1}
> plan f --nodes 3
= 0 ..path 1 3 3|prices 10.00 5.00 5.00|revenue 20.00000000 20.00000000|best open|bound 23.00000000 step 0|gap 3.00000000|exact 23.00000000 23.00000000 first 1|

rules.json {"weeks":3,"base":1}
> plan f --nodes 5
= 0 ..path 1 2 3|prices 10.00 8.00 5.00|revenue 23.00000000 23.00000000|best open|bound 23.00000000 step 0|gap 0.00000000|exact 23.00000000 23.00000000 first 1|

rules.json {"weeks":3,"base":1}
> plan f --nodes 12
= 0 ..path 1 2 3|prices 10.00 8.00 5.00|revenue 23.00000000 23.00000000|best open|bound 23.00000000 step 0|gap 0.00000000|exact 23.00000000 23.00000000 first 1|

rules.json {"weeks":3,"base":1}
> plan f --nodes 13
= 0 ..path 1 2 3|prices 10.00 8.00 5.00|revenue 23.00000000 23.00000000|best yes|bound 23.00000000 step 0|gap 0.00000000|exact 23.00000000 23.00000000 first 1|


# Two weeks and two rungs, with a calendar and a demand that is the same in each week on each rung.
rules.json {"weeks":2,"base":1,"calendar":true}
calendar.csv week,from,to,frozen|1,2,2,0|
ladder.csv rung,price|1,10.00|2,6.00|
stock.csv store,units,salvage|a,1,0|
demand.csv store,week,rung,units,weight|a,1,1,1,1|a,1,2,1,1|a,2,1,1,1|a,2,2,1,1|

= 0 season 1 stores 2 weeks 2 rungs base 1|path 2 2|prices 6.00 6.00|revenue 6.00000000 6.00000000|best yes|bound 6.00000000 step 0|gap 0.00000000|exact 6.00000000 6.00000000 first 2|

calendar.csv week,from,to,frozen|1,2,12,0|2,1,1,0|
demand.csv store,week,rung,units,weight|a,1,1,0,1|a,1,2,0,1|a,2,1,0,1|a,2,2,0,1|
= 3 no path

# A relabelling cost is paid in the one markdown week, though nothing is sold.
rules.json {"version":2,"weeks":1,"base":1,"calendar":true}
calendar.csv week,from,to,frozen|1,2,12,0|
stock.csv store,units,salvage,relabel|a,0,0,3.00|
demand.csv store,week,rung,units,weight|a,1,1,0,1|a,1,2,0,1|
= 0 season 1 stores 1 weeks 2 rungs base 1|path 2|prices 6.00|revenue -3.00000000 -3.00000000|best yes|bound -3.00000000 step 0|gap 0.00000000|exact -3.00000000 -3.00000000 first 2|

calendar.csv week,from,to,frozen|1,3,2,0|
= 1 refused: calendar.csv row 1 column to order


# One week: on the first rung one store sells its unit and the other none, on the second both sell.
rules.json {"weeks":1,"base":2}
calendar.csv
ladder.csv rung,price|1,10.00|2,6.00|
stock.csv store,units,salvage|a,1,0|b,1,0|
demand.csv store,week,rung,units,weight|a,1,1,1,2|a,1,2,1,2|b,1,1,0,2|b,1,2,1,2|

# The lines behind the revenue. The first step overshoots: the bound is 16.00 again, and the earlier one is told. The second halves it.
> plan f --steps 0
= 0 ..bound 16.00000000 step 0|gap 4.00000000|exact 12.00000000 12.00000000 first 2|

> plan f --steps 1
= 0 ..bound 16.00000000 step 0|gap 4.00000000|exact 12.00000000 12.00000000 first 2|

> plan f --steps 2
= 0 ..bound 12.00000000 step 2|gap 0.00000000|exact 12.00000000 12.00000000 first 2|"#;

#[test]
fn paths_obey(rt: HostRuntime) -> Result<(), Fail> {
    for part in PATHS.split("\n\n\n") {
        let (season, cases) = part.split_once("\n\n").unwrap_or((part, ""));
        let wrong = unanswered(rt.alloc(), season, cases)?;
        assert!(rt; wrong.is_none(), "{wrong:?}");
    }
    Ok(())
}

// A chain of so many stores of 1999 units, but for the first. Nothing is asked for in any of four weeks on any of five rungs. There
// are 5 * 5 * 1 * 10 cells for each of a store's stocks.
const CHAINS: &str = r#"rules.json {"weeks":4,"base":1,"markdowns":0,"spacing":10}
calendar.csv
ladder.csv rung,price|1,5.00|2,4.00|3,3.00|4,2.00|5,1.00|
stock.csv store,units,salvage|s1,1999,0.01|<# 2 16 s#,1999,0.01|>
demand.csv store,week,rung,units,weight|<# 1 16 <$ 1 4 <& 1 5 s#,$,&,0,1|>>>

= 0 ..path 1 1 1 1|prices 5.00 5.00 5.00 5.00|revenue 319.84000000 319.84000000|best yes|bound 319.84000000 step 0|gap 0.00000000|

stock.csv store,units,salvage|s1,2000,0.01|<# 2 16 s#,1999,0.01|>
= 0 ..path 1 1 1 1|prices 5.00 5.00 5.00 5.00|revenue 319.85000000 319.85000000|best yes|bound 319.85000000 step 0|gap 0.00000000|

stock.csv store,units,salvage|s1,1999,0.01|<# 2 32 s#,1999,0.01|>
demand.csv store,week,rung,units,weight|<# 1 32 <$ 1 4 <& 1 5 s#,$,&,0,1|>>>
= 0 ..path 1 1 1 1|prices 5.00 5.00 5.00 5.00|revenue 639.68000000 639.68000000|best yes|bound 639.68000000 step 0|gap 0.00000000|

stock.csv store,units,salvage|s1,2000,0.01|<# 2 32 s#,1999,0.01|>
demand.csv store,week,rung,units,weight|<# 1 32 <$ 1 4 <& 1 5 s#,$,&,0,1|>>>
= 6 limit: cells 16000250"#;

#[test]
fn chains_fit_their_cells(rt: HostRuntime) -> Result<(), Fail> {
    let (season, cases) = CHAINS.split_once("\n\n").unwrap_or((CHAINS, ""));
    let wrong = unanswered(rt.alloc(), season, cases)?;
    assert!(rt; wrong.is_none(), "{wrong:?}");
    Ok(())
}

// The ordinary chain: 24 stores, 12 weeks, six rungs; spaces round the fields, and carriage returns.
const ORDINARY: &str = r#"rules.json {"weeks":12,"base":20,"markdowns":3,"spacing":2,"first_cut":30}
ladder.csv rung,price|1,50.00|2,45.00|3,40.00|4,35.00|5,30.00|6,25.00|
stock.csv store,units,salvage|<# 1 24 s#,40,5.00|>
demand.csv @store, week ,rung,units,weight^|<# 1 24 <$ 1 4 <& 1 6 s# , $,&,0, 4^|s# , $,&,1, 6^|s# , $,&,2, 6^|s# , $,&,3, 4^|>><$ 5 12 s# , $,1,0, 12^|s# , $,1,1, 6^|s# , $,1,2, 2^|s# , $,1,3, 0^|s# , $,2,0, 8^|s# , $,2,1, 8^|s# , $,2,2, 4^|s# , $,2,3, 0^|s# , $,3,0, 4^|s# , $,3,1, 10^|s# , $,3,2, 4^|s# , $,3,3, 2^|s# , $,4,0, 4^|s# , $,4,1, 6^|s# , $,4,2, 6^|s# , $,4,3, 4^|s# , $,5,0, 3^|s# , $,5,1, 5^|s# , $,5,2, 7^|s# , $,5,3, 5^|s# , $,6,0, 2^|s# , $,6,1, 6^|s# , $,6,2, 4^|s# , $,6,3, 8^|>>"#;

const ORDINARY_PLAN: &str =
    "0 season 24 stores 12 weeks 6 rungs base 20|path 1 1 1 1 4 4 4 4 4 4 4 4|prices 50.00 50.00 50.00 50.00 35.00 35.00 35.00 35.00 35.00 35.00 35.00 35.00|revenue 19920.00000000 19920.00000000|best yes|bound 19920.00000000 step 0|gap 0.00000000|";

const ORDINARY_CHECK: &str =
    "0 season 24 stores 12 weeks 6 rungs base 20|certificate yes|path 1 1 1 1 4 4 4 4 4 4 4 4|prices 50.00 50.00 50.00 50.00 35.00 35.00 35.00 35.00 35.00 35.00 35.00 35.00|revenue 19920.00000000 19920.00000000|bound 19920.00000000|";

// The plan of the ordinary chain with a certificate on this desk is told.
fn is_ordinary_planned(alloc: Global, desk: &mut MemoryDesk) -> Result<bool, AllocError> {
    let files = held(alloc, "f", SMALLEST, ORDINARY)?;
    certify(alloc, files, desk, NONE_FAILS)?.says(alloc, ORDINARY_PLAN)
}

// And so is a check of the certificate.
fn is_ordinary_checked(alloc: Global, certificate: &[u8]) -> Result<bool, AllocError> {
    let mut files = held(alloc, "f", SMALLEST, ORDINARY)?;
    files.push((String::from_str(alloc, "c")?, certificate.to_vec(alloc)?))?;
    is_told(alloc, "check f --cert c", files, 65_536, 0, ORDINARY_CHECK)
}

fn is_planned_and_checked(alloc: Global) -> Result<bool, AllocError> {
    let mut desk = MemoryDesk::new(alloc, 1, 4_000_000, 65_536, Vec::new(alloc))?;
    let is_planned = is_ordinary_planned(alloc, &mut desk)?;
    Ok(is_planned && desk.count() == 1 && is_ordinary_checked(alloc, desk.bytes(0))?)
}

// In each store the first price sells 1.5 units in each of 4 weeks, and 35.00 sells 1.5 in each of 8, which earn 45.00 and 30.00
// a unit more than the salvage of 5.00, and the salvage of all 40 units is 200.00: 830.00, 24 times. The first markdown to 35.00
// is just allowed. The certificate of the plan is accepted.
#[test]
fn the_ordinary_chain_is_planned_and_checked(rt: HostRuntime) -> Result<(), Fail> {
    assert!(rt; is_planned_and_checked(rt.alloc())?);
    Ok(())
}
