// What policies earn, and what stands against them. Values are in units, of which a cent has 10^6.
ghost use Rattle.clr_policy.specs.Written.{IsPolicy, written};

use crate::seasons::{shows, want_and_rest};
use clr_num::{Down, Up};
use clr_policy::{Policy, judge, objects, read_policy};
use clr_season::Season;
use std::alloc::{AllocError, Global};
use std::fmt::Write;
use std::test::Fail;

// A case has a heading; a line for the number of a policy's rungs and tests, and its value rounded down and rounded up; then the policy
// file; and then the files of the season that aren't the common ones.
const CASES: &str =
    r#"# Week 1 leaves two units, which earn 8.00, or one for 10.00 and 5.00 of the other: (8.00 + 15.00) / 2
4 Ok(1150000000) Ok(1150000000)
{"rung":1,"then":{"store":"a","left_at_most":1,"yes":{"rung":1},"no":{"rung":2}}}

# The markdown costs 0.50: (7.50 + 15.00) / 2
4 Ok(1125000000) Ok(1125000000)
{"rung":1,"then":{"store":"a","left_at_most":1,"yes":{"rung":1},"no":{"rung":2}}}
f/rules.json {"version":2,"weeks":2,"base":2}
f/stock.csv store,units,salvage,relabel|a,2,0,0.50|

# The second branch rises.
4 Err(Rule { branch: 2, rule: Rise }) Err(Rule { branch: 2, rule: Rise })
{"rung":2,"then":{"store":"a","left_at_most":1,"yes":{"rung":2},"no":{"rung":1}}}

# Also where it is never reached.
4 Err(Rule { branch: 2, rule: Rise }) Err(Rule { branch: 2, rule: Rise })
{"rung":2,"then":{"store":"a","left_at_most":2000,"yes":{"rung":2},"no":{"rung":1}}}

# 22.00 / 3
1 Ok(733333333) Ok(733333334)
{"rung":1}
f/rules.json {"weeks":1,"base":3}
f/ladder.csv rung,price|1,10.00|
f/stock.csv store,units,salvage|a,1,2.00|
f/demand.csv store,week,rung,units,weight|a,1,1,0,1|a,1,1,1,2|

# 44.00 / 3, rounded once for both stores
1 Ok(1466666666) Ok(1466666667)
{"rung":1}
f/rules.json {"weeks":1,"base":3}
f/ladder.csv rung,price|1,10.00|
f/stock.csv store,units,salvage|a,1,2.00|b,1,2.00|
f/demand.csv store,week,rung,units,weight|a,1,1,0,1|a,1,1,1,2|b,1,1,0,1|b,1,1,1,2|

# The base to the number of stores is 10^18, and then 10^24.
1 Ok(1000000) Ok(1000000)
{"rung":1}
f/rules.json {"weeks":1,"base":1000000}
f/ladder.csv rung,price|1,10.00|
f/stock.csv store,units,salvage|a,1,0.01|b,1,0|c,1,0|
f/demand.csv store,week,rung,units,weight|a,1,1,0,1000000|b,1,1,0,1000000|c,1,1,0,1000000|

# Four stores of that base.
1 Err(Base) Err(Base)
{"rung":1}
f/rules.json {"weeks":1,"base":1000000}
f/ladder.csv rung,price|1,10.00|
f/stock.csv store,units,salvage|a,1,0|b,1,0|c,1,0|d,1,0|
f/demand.csv store,week,rung,units,weight|a,1,1,0,1000000|b,1,1,0,1000000|c,1,1,0,1000000|d,1,1,0,1000000|

# One object times 2000^3.
1 Err(Size { found: 8000000000 }) Err(Size { found: 8000000000 })
{"rung":1}
f/rules.json {"weeks":1,"base":1}
f/ladder.csv rung,price|1,10.00|
f/stock.csv store,units,salvage|a,1999,0|b,1999,0|c,1999,0|
f/demand.csv store,week,rung,units,weight|a,1,1,0,1|b,1,1,0,1|c,1,1,0,1|"#;

// The number of rungs and tests of a policy and its two values.
fn worth(alloc: Global, season: &Season, policy: &Policy) -> Result<String, AllocError>
    requires { IsPolicy season.now (written policy.now) }
{
    let low = judge::<Down>(alloc, season, policy);
    let high = judge::<Up>(alloc, season, policy);
    format!(in alloc; "{} {low:?} {high:?}", objects(policy))
}

// The same of a policy file.
fn judged(alloc: Global, season: &Season, file: &str) -> Result<String, AllocError> {
    if file.len() > 1000 {
        return String::from_str(alloc, "too long");
    }
    match read_policy(alloc, season, file.as_bytes()) {
        Ok(policy) => worth(alloc, season, &policy),
        Err(_) => String::from_str(alloc, "no policy"),
    }
}

// Whether the policy of a case is judged as it must.
fn is_worth(alloc: Global, case: &str) -> Result<bool, Fail> {
    let (want, rest) = want_and_rest(case);
    let (policy, files) = rest.split_once('\n').unwrap_or((rest, ""));
    shows(alloc, files, judged, policy, want)
}

#[test]
fn policies_are_worth_their_values(rt: HostRuntime) -> Result<(), Fail> {
    for case in CASES.split("\n\n") {
        assert!(rt; is_worth(rt.alloc(), case)?, "{case}");
    }
    Ok(())
}

// A case of four weeks, the prices 5.00 to 1.00 and no markdown, as far as its stores.
const MANY_STORES: &str = r#"# Four objects times 2000^16, which is held at 10^18.
4 Err(Size { found: 1000000000000000000 }) Err(Size { found: 1000000000000000000 })
{"rung":1,"then":{"rung":1,"then":{"rung":1,"then":{"rung":1}}}}
f/rules.json {"weeks":4,"base":1,"markdowns":0,"spacing":10}
f/ladder.csv rung,price|1,5.00|2,4.00|3,3.00|4,2.00|5,1.00|
f/stock.csv store,units,salvage|"#;

// Each of 16 stores has 1,999 units, of which none is asked for in any week on any rung.
const STORES: &str = "s0 s1 s2 s3 s4 s5 s6 s7 s8 s9 s10 s11 s12 s13 s14 s15";

const STOCK: &str = ",1999,0.01|";

const DEMAND: &str =
    ",1,1,0,1| ,1,2,0,1| ,1,3,0,1| ,1,4,0,1| ,1,5,0,1| ,2,1,0,1| ,2,2,0,1| ,2,3,0,1| ,2,4,0,1| ,2,5,0,1| ,3,1,0,1| ,3,2,0,1| ,3,3,0,1| ,3,4,0,1| ,3,5,0,1| ,4,1,0,1| ,4,2,0,1| ,4,3,0,1| ,4,4,0,1| ,4,5,0,1|";

// Puts these rows of each store behind a text.
fn put_rows(rows: &str, text: &mut String) -> Result<(), AllocError> {
    for store in STORES.split(' ') {
        for row in rows.split(' ') {
            write!(text, "{store}{row}")?;
        }
    }
    Ok(())
}

fn many_stores(alloc: Global) -> Result<String, AllocError> {
    let mut text = String::from_str(alloc, MANY_STORES)?;
    put_rows(STOCK, &mut text)?;
    text.push_str("\nf/demand.csv store,week,rung,units,weight|")?;
    put_rows(DEMAND, &mut text)?;
    Ok(text)
}

#[test]
fn sizes_are_held(rt: HostRuntime) -> Result<(), Fail> {
    let case = many_stores(rt.alloc())?;
    assert!(rt; is_worth(rt.alloc(), case.as_str())?);
    Ok(())
}
