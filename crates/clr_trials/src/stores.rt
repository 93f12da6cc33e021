// Cases of ladder.csv and stock.csv.
use crate::cases::{Kind, assert_cases};
use crate::tables::{file_of, refusal, sides};
use clr_stock::{Stock, read_ladder, read_stock};
use clr_text::FileError;
use std::alloc::{AllocError, Global};
use std::fmt::Write;
use std::test::Fail;

// What stands for `$` in a ladder file.
const LADDER: &str = "rung,price\n";

// Ladder files, and their prices in cents, or where and why they are refused.
const LADDERS: &str = "$=>0 0 Count { found: 0 }
$1,10|2,9,8|=>2 0 Fields
$x,y|2|=>2 0 Fields
$x,10|=>1 1 Number
$-1,10|=>1 1 Number
$0,10|=>1 1 Range
$13,10|=>1 1 Range
$2,x|=>1 1 Order
$1,10|1,9|=>2 1 Order
$1,10|3,9|=>2 1 Order
$1,x|=>1 2 Money
$1,1.005|=>1 2 Money
$1,0|=>1 2 Range
$1,0.00|=>1 2 Range
$1,100000.01|=>1 2 Range
$1,10|2,10.00|=>2 2 Order
$1,10|2,11|=>2 2 Order
$1,10|2,0|3,12|=>2 2 Range
$1,9|2,8|3,7|4,6|5,5|6,4|7,3|8,2|9,1|10,.9|11,.8|12,.7|x,x|=>0 0 Count { found: 13 }
$1,10.00|=>[1000]
@ rung , price ^| 01 , 100000.00 ^|2,0.02^|3,0.01=>[10000000, 2, 1]";

// The prices of a ladder file, or its refusal.
fn ladder_of(alloc: Global, file: &[u8]) -> Result<String, AllocError> {
    if file.len() > 1000 {
        return String::from_str(alloc, "too long");
    }
    match read_ladder(alloc, file) {
        Ok(ladder) => format!(in alloc; "{:?}", ladder.prices()),
        Err(error) => refusal(alloc, error),
    }
}

pub(crate) fn is_ladder(alloc: Global, case: &str) -> Result<bool, AllocError> {
    let (file, want) = sides(case);
    let file = file_of(alloc, file, LADDER)?;
    Ok(ladder_of(alloc, &file)?.as_str() == want)
}

#[test]
fn ladders(rt: HostRuntime) -> Result<(), Fail> {
    assert_cases(&rt, rt.alloc(), Kind::Ladder, LADDERS)
}

#[test]
fn prices_by_their_rung(rt: HostRuntime) -> Result<(), Fail> {
    let ladder = read_ladder(rt.alloc(), b"rung,price\n1,100000.00\n2,0.02\n3,0.01\n")?;
    assert!(rt; ladder.len() == 3 && ladder.price(2) == 2);
    Ok(())
}

// What stands for `$` in a stock file without and with a column of relabelling.
const PLAIN: &str = "store,units,salvage\n";

const RELABELLED: &str = "store,units,salvage,relabel\n";

// Stock files without a column of relabelling, and where and why they are refused.
const STOCKS: &str = "$=>0 0 Count { found: 0 }
$a,1,2,3|=>1 0 Fields
$,x,x|=>1 1 Name
$a~b,1,2|=>1 1 Name
$a\u{1f}b,1,2|=>1 1 Name
$0123456789abcdef0123456789abcdef0123456789abcdef0123456789abcdefx,1,2|=>1 1 Name
$a,,2|=>1 2 Number
$a,1.0,2|=>1 2 Number
$a,2001,x|=>1 2 Range
$a,1,-2|=>1 3 Money
$a,1,100000.01|=>1 3 Range
$a,1,2|a,1,2|=>2 0 Repeat { first_row: 1 }
$a,1,2|b,1,2| b~,0,0|=>3 0 Repeat { first_row: 2 }
$a,1,2|a,x,2|=>2 2 Number
$a,1,2|a,1,x|=>2 3 Money
$a,x,2|b,1|=>2 0 Fields
$a!,1,2|=>1 1 Name
store,units,salvage,relabel|a b,0,0,100000|c,7,0.5,12.34|=>0 0 Header";

// Stock files with a column of relabelling, and where and why they are refused, or their first and last store.
const RELABELS: &str = "store,units,salvage|a,1,2|=>0 0 Header
store,units,relabel,salvage|a,1,2,3|=>0 0 Header
$a,1,2|=>1 0 Fields
$a,1,2,x|=>1 4 Money
$a,1,2,100000.01|=>1 4 Range
$a,1,2,3|a,1,2,x|=>2 4 Money
$a b,0,0,100000|c,7,0.5,12.34|=>2: a b Some(1) 0 0 10000000; c Some(2) 7 50 1234";

fn stock_of(alloc: Global, file: &[u8], relabel: bool) -> Result<Stock, FileError> {
    if file.len() > 10_000 {
        return Err(FileError::Memory);
    }
    read_stock(alloc, file, relabel)
}

// A store's name and its number by that name, its units, and what one that is left over earns and a markdown week costs.
fn store(alloc: Global, stock: &Stock, store: u32) -> Result<String, AllocError> {
    if store < 1 || store > stock.len() {
        return String::from_str(alloc, "no store");
    }
    let name = stock.names().get(store);
    let found = stock.names().find(name.as_bytes());
    let (units, salvage) = (stock.units(store), stock.salvage(store));
    format!(in alloc;
        "{name} {found:?} {units} {salvage} {}",
        stock.relabel(store)
    )
}

// The number of stores, the first store and the last.
fn ends(alloc: Global, stock: &Stock) -> Result<String, AllocError> {
    let first = store(alloc, stock, 1)?;
    let last = store(alloc, stock, stock.len())?;
    format!(in alloc; "{}: {first}; {last}", stock.len())
}

// What is shown of a stock file, or its refusal.
fn shown(alloc: Global, file: &[u8], relabel: bool) -> Result<String, AllocError> {
    match stock_of(alloc, file, relabel) {
        Ok(stock) => ends(alloc, &stock),
        Err(error) => refusal(alloc, error),
    }
}

pub(crate) fn is_shown(alloc: Global, case: &str, relabel: bool) -> Result<bool, AllocError> {
    let (file, want) = sides(case);
    let file = file_of(alloc, file, if relabel { RELABELLED } else { PLAIN })?;
    Ok(shown(alloc, &file, relabel)?.as_str() == want)
}

#[test]
fn stocks_without_and_with_relabelling(rt: HostRuntime) -> Result<(), Fail> {
    assert_cases(&rt, rt.alloc(), Kind::Stock, STOCKS)?;
    assert_cases(&rt, rt.alloc(), Kind::Relabelled, RELABELS)
}

// A stock file of so many stores.
fn many(alloc: Global, stores: u32) -> Result<String, AllocError> {
    let mut text = String::from_str(alloc, PLAIN)?;
    for store in 0..stores {
        writeln!(text, "s{store},2000,100000.00")?;
    }
    Ok(text)
}

fn has_many(alloc: Global, stores: u32, want: &str) -> Result<bool, AllocError> {
    let file = many(alloc, stores)?;
    Ok(shown(alloc, file.as_bytes(), false)?.as_str() == want)
}

#[test]
fn most_stores(rt: HostRuntime) -> Result<(), Fail> {
    let want = "64: s0 Some(1) 2000 10000000 0; s63 Some(64) 2000 10000000 0";
    assert!(rt; has_many(rt.alloc(), 64, want)?);
    assert!(rt; has_many(rt.alloc(), 65, "0 0 Count { found: 65 }")?);
    Ok(())
}
