// Cases of the forms of fields, of names and of whole files.
use crate::cases::{Kind, assert_cases};
use crate::tables::{file_of, number, numbers, refusal, sides};
use clr_text::{FileError, Names, Table, cut, is_name, read_money, read_u64, rows};
use std::alloc::{AllocError, Global};
use std::test::Fail;

// Fields, and what is left of them.
const CUT: &str = "=>
a=>a
 a b~=>a b
~ ~=>
~a,b =>a,b
|a^=>|a^
\u{a0}a=>\u{a0}a";

pub(crate) fn is_cut(alloc: Global, case: &str) -> Result<bool, AllocError> {
    let (field, left) = sides(case);
    let field = file_of(alloc, field, "")?;
    let left = file_of(alloc, left, "")?;
    Ok(cut(&field) == left.as_slice())
}

#[test]
fn fields_are_cut(rt: HostRuntime) -> Result<(), Fail> {
    assert_cases(&rt, rt.alloc(), Kind::Field, CUT)
}

// Fields, and the whole numbers that they read to.
const WHOLE: &str = "0=>Some(0)
7=>Some(7)
00=>Some(0)
007=>Some(7)
 ~12~ =>Some(12)
0000000000000000000000000000000000000042=>Some(42)
1111111111111111111111111111111111111111=>None
9223372036854775807=>Some(9223372036854775807)
9223372036854775808=>None
18446744073709551617=>None
=>None
 =>None
+1=>None
-1=>None
1 2=>None
1.0=>None
0x1=>None
1_000=>None
\u{661}=>None";

// Fields, and the cents that they read to as money.
const MONEY: &str = "0=>Some(0)
5=>Some(500)
5.0=>Some(500)
5.07=>Some(507)
5.7=>Some(570)
 5.07~=>Some(507)
00000001.5=>Some(150)
12345678=>Some(1234567800)
99999999.99=>Some(9999999999)
10.005=>None
.5=>None
5.=>None
.=>None
123456789=>None
000000001=>None
5.0.7=>None
5 .0=>None
5,07=>None
5.-1=>None
+5=>None
-5.00=>None
=>None";

pub(crate) fn is_read(alloc: Global, case: &str, money: bool) -> Result<bool, AllocError> {
    let (field, want) = sides(case);
    let field = file_of(alloc, field, "")?;
    let found = if money {
        read_money(&field)
    } else {
        read_u64(&field)
    };
    Ok(number(alloc, found)?.as_str() == want)
}

#[test]
fn whole_numbers_and_money(rt: HostRuntime) -> Result<(), Fail> {
    assert_cases(&rt, rt.alloc(), Kind::Number, WHOLE)?;
    assert_cases(&rt, rt.alloc(), Kind::Money, MONEY)
}

// A file as a table of these columns.
fn table_of(alloc: Global, file: &[u8], columns: &[&str]) -> Result<Table, FileError> {
    if file.len() > 1000 {
        return Err(FileError::Memory);
    }
    rows(alloc, file, columns)
}

// The fields of a table of two columns, each with a semicolon behind it, and each row with a slash.
fn shown(alloc: Global, table: &Table) -> Result<Vec<u8>, AllocError> {
    let mut text = Vec::new(alloc);
    for row in 0..table.len() {
        for column in 1..3 {
            text.extend_from_slice(table.field(row + 1, column))?;
            text.push(b';')?;
        }
        text.push(b'/')?;
    }
    Ok(text)
}

// Files, and what is shown of their tables with the columns a and b.
const TABLES: &str = r#"a,b|1,2|=>1;2;/
@a,b|1,2|=>1;2;/
a,b^|1,2^|3,4^|=>1;2;/3;4;/
a,b^1,2^=>1;2;/
 a~,~b | 1 ,~2|=>1;2;/
"a","b"|" 1 ","x,""y"""|=>1;x,"y";/
|^|a,b||1,2|||3,4=>1;2;/3;4;/
a,b|1,|,|=>1;;/;;/
a,b|1,"2=>1;2;/
a,b|1,"2|3,4|=>1;2|3,4|;/
a,b=>
a,b||=>"#;

// Files that are refused, with the row, the column and why.
const REFUSED: &str = "=>0 0 Header
||=>0 0 Header
@=>0 0 Header
@@a,b|=>0 0 Header
b,a|1,4|=>0 0 Header
A,b|1,2|=>0 0 Header
a|1,2,3|=>0 0 Header
a,b,c|=>0 0 Header
1,2|=>0 0 Header
a,b|1|=>1 0 Fields
a,b|1,2||1,2,3|1|=>2 0 Fields
a,b|1,2| |=>2 0 Fields";

// What is shown of a file with the columns a and b, or its refusal.
fn tabled(alloc: Global, file: &[u8]) -> Result<Vec<u8>, AllocError> {
    match table_of(alloc, file, &["a", "b"]) {
        Ok(table) => shown(alloc, &table),
        Err(error) => Ok(refusal(alloc, error)?.into_bytes()),
    }
}

pub(crate) fn is_tabled(alloc: Global, case: &str) -> Result<bool, AllocError> {
    let (file, want) = sides(case);
    let file = file_of(alloc, file, "")?;
    let found = tabled(alloc, &file)?;
    Ok(found.as_slice() == file_of(alloc, want, "")?.as_slice())
}

#[test]
fn tables(rt: HostRuntime) -> Result<(), Fail> {
    assert_cases(&rt, rt.alloc(), Kind::Table, TABLES)?;
    assert_cases(&rt, rt.alloc(), Kind::Table, REFUSED)
}

// What stands in a column within its range.
fn answer(alloc: Global, found: Result<u64, FileError>) -> Result<String, AllocError> {
    match found {
        Ok(found) => number(alloc, Some(found)),
        Err(error) => refusal(alloc, error),
    }
}

// A column, a range, and what the number and the money of that column are in it.
const RANGES: &str = "1 7 7=>Some(7), 1 1 Range
1 8 700=>1 1 Range, Some(700)
1 0 6=>1 1 Range, 1 1 Range
2 150 150=>1 2 Number, Some(150)
2 0 149=>1 2 Number, 1 2 Range
2 151 999=>1 2 Number, 1 2 Range
3 0 9=>1 3 Number, 1 3 Money";

fn is_within(alloc: Global, table: &Table, case: &str) -> Result<bool, AllocError> {
    if table.len() != 1 {
        return Ok(false);
    }
    let (asked, want) = sides(case);
    let [column, low, high, _, _, _, _, _] = numbers(asked);
    let (column, low, high) = (column.max(1), u64::from(low), u64::from(high));
    let number = answer(alloc, table.number(1, column, low, high))?;
    let money = answer(alloc, table.money(1, column, low, high))?;
    Ok(format!(in alloc; "{number}, {money}")?.as_str() == want)
}

pub(crate) fn is_in_range(alloc: Global, case: &str) -> Result<bool, AllocError> {
    match table_of(alloc, b"a,b,c\n7,1.50,x\n", &["a", "b", "c"]) {
        Ok(table) => is_within(alloc, &table, case),
        Err(_) => Ok(false),
    }
}

#[test]
fn fields_in_their_range(rt: HostRuntime) -> Result<(), Fail> {
    assert_cases(&rt, rt.alloc(), Kind::Range, RANGES)
}

// Files, their number of rows, and why a number other than 1 or 2 is refused.
const COUNTS: &str = "a|=>0, 0 0 Count { found: 0 }
a|1|=>1, taken
a|1|2|=>2, taken
a|1|2|3|=>3, 0 0 Count { found: 3 }";

fn count_of(alloc: Global, table: Table) -> Result<String, AllocError> {
    let rows = table.len();
    let answer = match table.counted(2) {
        Ok(_) => String::from_str(alloc, "taken")?,
        Err(error) => refusal(alloc, error)?,
    };
    format!(in alloc; "{rows}, {answer}")
}

pub(crate) fn is_counted(alloc: Global, case: &str) -> Result<bool, AllocError> {
    let (file, want) = sides(case);
    let file = file_of(alloc, file, "")?;
    match table_of(alloc, &file, &["a"]) {
        Ok(table) => Ok(count_of(alloc, table)?.as_str() == want),
        Err(_) => Ok(false),
    }
}

#[test]
fn counts(rt: HostRuntime) -> Result<(), Fail> {
    assert_cases(&rt, rt.alloc(), Kind::Count, COUNTS)
}

// Names, and whether a store may have them. The last two have 64 bytes and 65.
const NAMES: &str = "a=>true
=>false
a b=>true
a~b=>false
a\u{1f}=>false
\u{7f}=>true
\u{e9}=>true
0123456789abcdef0123456789abcdef0123456789abcdef0123456789abcdef=>true
0123456789abcdef0123456789abcdef0123456789abcdef0123456789abcdefx=>false";

pub(crate) fn is_judged(alloc: Global, case: &str) -> Result<bool, AllocError> {
    let (name, want) = sides(case);
    let name = file_of(alloc, name, "")?;
    let answer = if is_name(&name) { "true" } else { "false" };
    Ok(answer == want)
}

#[test]
fn names_of_stores(rt: HostRuntime) -> Result<(), Fail> {
    assert!(rt; !is_name(b"a\xff") && !is_name(b"\xc3"));
    assert_cases(&rt, rt.alloc(), Kind::Name, NAMES)
}

// Names in their order, and the number of each that is new.
const PUSHED: &str = "b=>Some(1)
a=>Some(2)
b=>None
B=>Some(3)
a=>None";

fn is_pushed(alloc: Global, names: &mut Names, case: &str) -> Result<bool, AllocError> {
    if names.len() >= 64 {
        return Ok(false);
    }
    let (name, want) = sides(case);
    let found = names.push(name.as_bytes())?.map(u64::from);
    Ok(number(alloc, found)?.as_str() == want)
}

// How many names there are, the second, and the numbers of some.
fn found(alloc: Global, names: &Names) -> Result<String, AllocError> {
    let second = if names.len() < 2 { "" } else { names.get(2) };
    format!(in alloc;
        "{} {second} {:?} {:?} {:?}",
        names.len(),
        names.find(b"B"),
        names.find(b"c"),
        names.find(b"\xff")
    )
}

fn are_in_order(alloc: Global) -> Result<bool, AllocError> {
    let mut names = Names::new(alloc);
    for case in PUSHED.lines() {
        if !is_pushed(alloc, &mut names, case)? {
            return Ok(false);
        }
    }
    Ok(found(alloc, &names)?.as_str() == "3 a Some(3) None None")
}

#[test]
fn names_in_order(rt: HostRuntime) -> Result<(), Fail> {
    assert!(rt; are_in_order(rt.alloc())?);
    Ok(())
}
