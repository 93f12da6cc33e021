// Demand files that are read, and files that are refused.
ghost use Rattle.std.specs.Prelude.{◌≡◌, ◌≤◌};

use crate::tables::{file_of, numbers, refusal, sides};
use clr_demand::{Demand, read_demand};
use clr_text::Names;
use std::alloc::{AllocError, Global};
use std::test::Fail;

// What stands for `$` in a demand file.
const COLUMNS: &str = "store,week,rung,units,weight\n";

// The stores a and b.
fn two_stores(alloc: Global) -> Result<Names, AllocError> {
    let mut names = Names::new(alloc);
    for name in ["a", "b"] {
        if names.len() < 64 {
            names.push(name.as_bytes())?;
        }
    }
    Ok(names)
}

// What the demand of a store, week and rung says: all its weights, each weight by its units, and for each number of units up to one
// past the greatest what weighs so many or more.
fn entry(
    alloc: Global,
    demand: &Demand,
    store: u32,
    week: u32,
    rung: u32,
) -> Result<String, AllocError>
    requires store { (1 ≤ store) × (store ≤ demand.now.stores) }
    requires week { (1 ≤ week) × (week ≤ demand.now.weeks) }
    requires rung { (1 ≤ rung) × (rung ≤ demand.now.rungs) }
{
    let mut weights = Vec::new(alloc);
    let mut tails = Vec::new(alloc);
    for units in 0..demand.top() + 1 {
        weights.push(demand.weight(store, week, rung, units))?;
        tails.push(demand.tail(store, week, rung, units))?;
    }
    tails.push(demand.tail(store, week, rung, demand.top() + 1))?;
    let all = demand.weights(store, week, rung);
    format!(in alloc; "{all:?} {weights:?} {tails:?};")
}

// The entries of two stores and so many weeks and rungs, by store, week and rung.
fn shown(alloc: Global, demand: &Demand, count: u32) -> Result<String, AllocError>
    requires count { count ≤ 2 }
    requires stores { demand.now.stores ≡ 2 }
    requires weeks { demand.now.weeks ≡ count }
    requires rungs { demand.now.rungs ≡ count }
{
    let mut text = String::new(alloc);
    for store in 1..3 {
        for week in 1..count + 1 {
            for rung in 1..count + 1 {
                text.push_str(entry(alloc, demand, store, week, rung)?.as_str())?;
            }
        }
    }
    Ok(text)
}

// What is shown of a demand file for the two stores, so many weeks and as many rungs, or its refusal.
fn demand_of(
    alloc: Global,
    file: &[u8],
    count: u32,
    base: u32,
    scaled: bool,
) -> Result<String, AllocError>
    requires count { (1 ≤ count) × (count ≤ 2) }
    requires base { (1 ≤ base) × (base ≤ 12) }
{
    let names = two_stores(alloc)?;
    if names.len() != 2 || file.len() > 1000 {
        return String::from_str(alloc, "too long");
    }
    match read_demand(alloc, file, &names, count, count, base, scaled) {
        Ok(demand) => shown(alloc, &demand, count),
        Err(error) => refusal(alloc, error),
    }
}

// Demand files, each with what is shown of it or its refusal. A line that begins with `#` is a heading: the number of weeks and of rungs,
// the base and 1 where weights are scaled to it, for the files up to the next.
const FILES: &str =
    r#"# 1 4 0 one week and one rung, with weights out of 4: what headers and rows are refused for, and a file that is read
=>0 0 Header
a,1,1,0,4|=>0 0 Header
store,week,rung,weight,units|=>0 0 Header
store,week,rung,units|=>0 0 Header
store,week,rung,units,weight,more|=>0 0 Header
Store,week,rung,units,weight|=>0 0 Header
$a,1,1,0|=>1 0 Fields
$c,9,1,0,4|a,1,1|=>2 0 Fields
$c,9,9,999,9|=>1 1 Unknown
$A,1,1,0,4|=>1 1 Unknown
$a,x,1,0,4|=>1 2 Number
$a,0,1,0,4|=>1 2 Range
$a,2,9,0,4|=>1 2 Range
$a,1,,0,4|=>1 3 Number
$a,1,0,0,4|=>1 3 Range
$a,1,2,0,4|=>1 3 Range
$a,1,1,-1,4|=>1 4 Number
$a,1,1,201,9|=>1 4 Range
$a,1,1,0,1.0|=>1 5 Number
$a,1,1,0,5|=>1 5 Range
$b,1,1,0,3|a,1,1,0,5|=>2 5 Range
$a,1,1,0,1|b,1,1,0,4|a,1,1,1,3|a,1,1,0,3|=>4 0 Repeat { first_row: 1 }
$b,1,1,3,4|a,1,1,0,0||a,1,1,0,4|=>3 0 Repeat { first_row: 2 }
$a,1,1,0,4|a,1,1,0,5|=>2 5 Range
$=>0 0 Total { store: 1, week: 1, rung: 1, found: 0 }
$a,1,1,0,4|=>0 0 Total { store: 2, week: 1, rung: 1, found: 0 }
$b,1,1,0,3|a,1,1,0,3|=>0 0 Total { store: 1, week: 1, rung: 1, found: 3 }
$a,1,1,0,3|a,1,1,1,2|=>0 0 Total { store: 1, week: 1, rung: 1, found: 5 }
@store , week,rung~,units,weight^| b ,1,1,2,4^|a,01,1,0,1^|^|"a",1,1,1, 3=>[1, 3, 0] [1, 3, 0] [4, 3, 0, 0];[0, 0, 4] [0, 0, 4] [4, 4, 4, 0];
# 2 1 0 two weeks and two rungs: totals are judged by store, week and rung
$a,1,1,0,1|a,1,2,0,1|a,2,1,0,1|b,1,2,0,1|b,2,1,0,1|b,2,2,0,1|=>0 0 Total { store: 1, week: 2, rung: 2, found: 0 }
$b,2,2,0,1|a,1,1,0,1|a,2,2,0,1|b,1,1,0,1|b,1,2,0,1|b,2,1,0,1|=>0 0 Total { store: 1, week: 1, rung: 2, found: 0 }
$a,1,1,0,1|a,1,2,0,1|a,2,1,0,1|a,2,2,0,1|b,1,1,0,1|b,1,2,0,1|b,2,2,0,1|=>0 0 Total { store: 2, week: 2, rung: 1, found: 0 }
# 2 8 0 weights stand by store, week and rung
$b,2,2,0,8|b,2,1,0,7|b,1,2,0,6|b,1,1,0,5|a,2,2,0,4|a,2,1,0,3|a,1,2,0,2|a,1,1,0,1|a,1,1,1,7|a,1,2,1,6|a,2,1,1,5|a,2,2,1,4|b,1,1,1,3|b,1,2,1,2|b,2,1,1,1|=>[1, 7] [1, 7] [8, 7, 0];[2, 6] [2, 6] [8, 6, 0];[3, 5] [3, 5] [8, 5, 0];[4, 4] [4, 4] [8, 4, 0];[5, 3] [5, 3] [8, 3, 0];[6, 2] [6, 2] [8, 2, 0];[7, 1] [7, 1] [8, 1, 0];[8, 0] [8, 0] [8, 0, 0];
# 1 12 1 weights that are scaled to the base 12: by 3 and by 1, or not at all
$a,1,1,0,1|a,1,1,1,4|=>0 0 Total { store: 1, week: 1, rung: 1, found: 5 }
$a,1,1,0,0|b,1,1,0,12|=>0 0 Total { store: 1, week: 1, rung: 1, found: 0 }
$a,1,1,0,6|=>0 0 Total { store: 2, week: 1, rung: 1, found: 0 }
$a,1,1,0,12|a,1,1,1,12|=>0 0 Total { store: 1, week: 1, rung: 1, found: 24 }
$a,1,1,0,1|a,1,1,1,3|b,1,1,1,12|=>[3, 9] [3, 9] [12, 9, 0];[0, 12] [0, 12] [12, 12, 0];
# 1 12 0 weights that are not scaled are too few
$a,1,1,0,1|a,1,1,1,3|b,1,1,1,12|=>0 0 Total { store: 1, week: 1, rung: 1, found: 4 }"#;

// Whether a case is as it must, below a heading with these numbers.
fn is_read(alloc: Global, sizes: [u32; 8], case: &str) -> Result<bool, AllocError> {
    let (file, want) = sides(case);
    let file = file_of(alloc, file, COLUMNS)?;
    let (count, base) = (sizes[0].clamp(1, 2), sizes[1].clamp(1, 12));
    let found = demand_of(alloc, &file, count, base, sizes[2] == 1)?;
    Ok(found.as_str() == want)
}

#[test]
fn demand_files_are_read_or_refused(rt: HostRuntime) -> Result<(), Fail> {
    let mut sizes = [0; 8];
    for case in FILES.lines() {
        if let Some(heading) = case.strip_prefix("# ") {
            sizes = numbers(heading);
        } else {
            assert!(rt; is_read(rt.alloc(), sizes, case)?, "{case}");
        }
    }
    Ok(())
}
