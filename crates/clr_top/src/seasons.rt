// Worked seasons: what `run` reports of files in memory and of real ones.
use crate::cases::unanswered_twice;
use std::test::Fail;

const SEASONS: &str =
    r#"= 0 season 1 stores 1 weeks 1 rungs base 4|path 1|prices 10.00|revenue 8.00000000 8.00000000|best yes|bound 8.00000000 step 0|gap 0.00000000|exact 8.00000000 8.00000000 first 1|

# Two thirds of a sale, rounded down and up.
rules.json {"weeks":1,"base":3}
demand.csv store,week,rung,units,weight|a,1,1,0,1|a,1,1,1,2|
= 0 season 1 stores 1 weeks 1 rungs base 3|path 1|prices 10.00|revenue 7.33333333 7.33333334|best yes|bound 7.33333334 step 0|gap 0.00000001|exact 7.33333333 7.33333334 first 1|

# The same demand in two weeks: the rounding of the second week is carried into the first.
rules.json {"weeks":2,"base":3}
demand.csv store,week,rung,units,weight|a,1,1,0,1|a,1,1,1,2|a,2,1,0,1|a,2,1,1,2|
= 0 season 1 stores 2 weeks 1 rungs base 3|path 1 1|prices 10.00 10.00|revenue 9.11111111 9.11111112|best yes|bound 9.11111112 step 0|gap 0.00000001|exact 9.11111111 9.11111112 first 1|

# Nothing to sell.
stock.csv store,units,salvage|a,0,2.00|
= 0 season 1 stores 1 weeks 1 rungs base 4|path 1|prices 10.00|revenue 0.00000000 0.00000000|best yes|bound 0.00000000 step 0|gap 0.00000000|exact 0.00000000 0.00000000 first 1|

# More is asked for than there is.
rules.json {"weeks":1,"base":1}
demand.csv store,week,rung,units,weight|a,1,1,3,1|
= 0 season 1 stores 1 weeks 1 rungs base 1|path 1|prices 10.00|revenue 10.00000000 10.00000000|best yes|bound 10.00000000 step 0|gap 0.00000000|exact 10.00000000 10.00000000 first 1|

# The largest values.
rules.json {"weeks":10,"base":1}
ladder.csv rung,price|1,100000.00|
stock.csv store,units,salvage|a,2000,0|
demand.csv store,week,rung,units,weight|a,1,1,200,1|a,2,1,200,1|a,3,1,200,1|a,4,1,200,1|a,5,1,200,1|a,6,1,200,1|a,7,1,200,1|a,8,1,200,1|a,9,1,200,1|a,10,1,200,1|
= 0 season 1 stores 10 weeks 1 rungs base 1|path 1 1 1 1 1 1 1 1 1 1|prices 100000.00 100000.00 100000.00 100000.00 100000.00 100000.00 100000.00 100000.00 100000.00 100000.00|revenue 200000000.00000000 200000000.00000000|best yes|bound 200000000.00000000 step 0|gap 0.00000000|exact 200000000.00000000 200000000.00000000 first 1|

# A policy that waits for the first week's demand earns more than each path.
rules.json {"weeks":2,"base":2}
ladder.csv rung,price|1,10.00|2,4.00|
stock.csv store,units,salvage|a,2,0|
demand.csv store,week,rung,units,weight|a,1,1,0,1|a,1,1,1,1|a,2,1,0,1|a,2,1,1,1|a,1,2,0,2|a,2,2,2,2|
= 0 season 1 stores 2 weeks 2 rungs base 2|path 1 2|prices 10.00 4.00|revenue 11.00000000 11.00000000|best yes|bound 11.50000000 step 0|gap 0.50000000|exact 11.50000000 11.50000000 first 1|

# Byte order marks, carriage returns, quotes, blank lines, and spaces and tabs round the fields.
rules.json @ { "base" : 4 , "weeks" : 1 } |
ladder.csv @rung,price^|^|1, 10.0 ^|
stock.csv |"store",units,salvage|a ,~1, 2||
demand.csv store,week,rung,units,weight^| a , 01 ,1,1,3^|a,1,1,0, 1
= 0 season 1 stores 1 weeks 1 rungs base 4|path 1|prices 10.00|revenue 8.00000000 8.00000000|best yes|bound 8.00000000 step 0|gap 0.00000000|exact 8.00000000 8.00000000 first 1|

# A name that holds a comma and a quote.
stock.csv store,units,salvage|"a, ""b""",1,2.00|
demand.csv store,week,rung,units,weight|"a, ""b""",1,1,0,1|"a, ""b""",1,1,1,3|
= 0 season 1 stores 1 weeks 1 rungs base 4|path 1|prices 10.00|revenue 8.00000000 8.00000000|best yes|bound 8.00000000 step 0|gap 0.00000000|exact 8.00000000 8.00000000 first 1|

# A field that is absent may be written out.
rules.json {"calendar":false,"first_cut":100,"spacing":1,"markdowns":12,"base":4,"weeks":1,"version":1}
= 0 season 1 stores 1 weeks 1 rungs base 4|path 1|prices 10.00|revenue 8.00000000 8.00000000|best yes|bound 8.00000000 step 0|gap 0.00000000|exact 8.00000000 8.00000000 first 1|

# Two stores: on the first rung one sells its unit, and the other none. Both would take different rungs, and the
# multipliers of the second step bring them together.
rules.json {"weeks":1,"base":2}
ladder.csv rung,price|1,10.00|2,6.00|
stock.csv store,units,salvage|a,1,0|b,1,0|
demand.csv store,week,rung,units,weight|a,1,1,1,2|a,1,2,1,2|b,1,1,0,2|b,1,2,1,2|
= 0 season 2 stores 1 weeks 2 rungs base 2|path 2|prices 6.00|revenue 12.00000000 12.00000000|best yes|bound 12.00000000 step 2|gap 0.00000000|exact 12.00000000 12.00000000 first 2|

# Version 2: a cost of relabelling.
rules.json {"version":2,"weeks":2,"base":2}
ladder.csv rung,price|1,10.00|2,4.00|
stock.csv store,units,salvage,relabel|a,2,0,0.50|
demand.csv store,week,rung,units,weight|a,1,1,0,1|a,1,1,1,1|a,2,1,0,1|a,2,1,1,1|a,1,2,0,2|a,2,2,2,2|
= 0 season 1 stores 2 weeks 2 rungs base 2|path 1 2|prices 10.00 4.00|revenue 10.50000000 10.50000000|best yes|bound 11.25000000 step 0|gap 0.75000000|exact 11.25000000 11.25000000 first 1|

# Version 3: the weights 1 and 3 are scaled to the base 12.
rules.json {"version":3,"weeks":1,"base":12}
stock.csv store,units,salvage,relabel|a,1,2.00,0|
= 0 season 1 stores 1 weeks 1 rungs base 12|path 1|prices 10.00|revenue 8.00000000 8.00000000|best yes|bound 8.00000000 step 0|gap 0.00000000|exact 8.00000000 8.00000000 first 1|

# A name of 64 bytes.
stock.csv store,units,salvage|nnnnnnnnnnnnnnnnnnnnnnnnnnnnnnnnnnnnnnnnnnnnnnnnnnnnnnnnnnnnnnnn,1,2.00|
demand.csv store,week,rung,units,weight|nnnnnnnnnnnnnnnnnnnnnnnnnnnnnnnnnnnnnnnnnnnnnnnnnnnnnnnnnnnnnnnn,1,1,0,1|nnnnnnnnnnnnnnnnnnnnnnnnnnnnnnnnnnnnnnnnnnnnnnnnnnnnnnnnnnnnnnnn,1,1,1,3|
= 0 season 1 stores 1 weeks 1 rungs base 4|path 1|prices 10.00|revenue 8.00000000 8.00000000|best yes|bound 8.00000000 step 0|gap 0.00000000|exact 8.00000000 8.00000000 first 1|

# The chances of a week of all stores sum to 10^24, which is too great for a table of all stores.
rules.json {"weeks":1,"base":1000000}
stock.csv store,units,salvage|a,1,0.50|b,1,0|c,1,0|d,1,0|
demand.csv store,week,rung,units,weight|a,1,1,0,1000000|b,1,1,0,1000000|c,1,1,0,1000000|d,1,1,0,1000000|
= 0 season 4 stores 1 weeks 1 rungs base 1000000|path 1|prices 10.00|revenue 0.50000000 0.50000000|best yes|bound 0.50000000 step 0|gap 0.00000000|"#;

#[test]
fn seasons_are_planned(rt: HostRuntime) -> Result<(), Fail> {
    let wrong = unanswered_twice(&rt, rt.alloc(), "planned", SEASONS)?;
    assert!(rt; wrong.is_none(), "{wrong:?}");
    Ok(())
}
