// Cases of rules.json and calendar.csv.
use crate::cases::{Kind, assert_cases};
use crate::tables::{file_of, refusal, sides};
use clr_rules::{Calendar, read_calendar, read_limits};
use std::alloc::{AllocError, Global};
use std::fmt::Write;
use std::test::Fail;

// What stands for `$` in a file of rules.
const WEEKS_AND_BASE: &str = r#""weeks":1,"base":4"#;

// Files that are no JSON text or no object, and objects, with the field that they are refused at and why.
const REFUSED: &str = r#"=>0 0 Json
 =>0 0 Json
[=>0 0 Json
[]=>0 0 Json
null=>0 0 Json
true=>0 0 Json
7=>0 0 Json
"weeks"=>0 0 Json
1111111111111111111111111111111111111111=>0 0 Json
{$=>0 0 Json
{$,}=>0 0 Json
{$}{}=>0 0 Json
{"weeks":01,"base":4}=>0 0 Json
{"weeks":1e400,"base":4}=>0 0 Json
{'weeks':1,'base':4}=>0 0 Json
@@{$}=>0 0 Json
{$,"!":1}=>0 0 Json
{$,"colour":2}=>0 0 Field
{"weeks":0,"Base":4}=>0 0 Field
{$,"":0}=>0 0 Field
{"first cut":1}=>0 0 Field
{}=>0 2 Missing
{"base":0}=>0 2 Missing
{"weeks":1}=>0 3 Missing
{"weeks":1,"markdowns":13}=>0 3 Missing
{"version":0}=>0 1 Range
{"version":4,"weeks":0}=>0 1 Range
{"version":"1","weeks":0}=>0 1 Number
{"weeks":0,"base":0}=>0 2 Range
{"weeks":53,"base":4}=>0 2 Range
{"weeks":2,"base":4,"weeks":53}=>0 2 Range
{"weeks":-1,"base":4}=>0 2 Number
{"weeks":-0,"base":4}=>0 2 Number
{"weeks":1.5,"base":4}=>0 2 Number
{"weeks":1.0,"base":4}=>0 2 Number
{"weeks":1e1,"base":4}=>0 2 Number
{"weeks":"1","base":4}=>0 2 Number
{"weeks":null,"base":4}=>0 2 Number
{"weeks":true,"base":4}=>0 2 Number
{"weeks":[1],"base":4}=>0 2 Number
{"weeks":18446744073709551615,"base":4}=>0 2 Range
{"weeks":18446744073709551616,"base":4}=>0 2 Number
{"weeks":1111111111111111111111111111111111111111,"base":4}=>0 2 Number
{"weeks":1,"base":"4","spacing":0}=>0 3 Number
{$,"base":0}=>0 3 Range
{$,"base":1000001}=>0 3 Range
{$,"markdowns":13}=>0 4 Range
{$,"markdowns":-1}=>0 4 Number
{$,"markdowns":null}=>0 4 Number
{$,"spacing":0,"first_cut":101}=>0 5 Range
{$,"spacing":13}=>0 5 Range
{$,"spacing":1.0}=>0 5 Number
{$,"first_cut":101}=>0 6 Range
{$,"first_cut":false}=>0 6 Number
{$,"calendar":1,"first_cut":{}}=>0 6 Number
{$,"calendar":1}=>0 7 Number
{$,"calendar":0}=>0 7 Number
{$,"calendar":"true"}=>0 7 Number
{$,"calendar":null}=>0 7 Number
{$,"calendar":true,"calendar":[]}=>0 7 Number
{$,"calendar":1,"version":9}=>0 1 Range"#;

// Files, and the limits that they read to.
const LIMITS: &str =
    r#"{$}=>Limits { version: 1, weeks: 1, base: 4, markdowns: 12, spacing: 1, first_cut: 100, calendar: false }
@ {^|~"base" : 4 , "weeks" : 1 }|=>Limits { version: 1, weeks: 1, base: 4, markdowns: 12, spacing: 1, first_cut: 100, calendar: false }
{"weeks":53,"base":4,"weeks":1}=>Limits { version: 1, weeks: 1, base: 4, markdowns: 12, spacing: 1, first_cut: 100, calendar: false }
{"w\u0065eks":1,"base":4}=>Limits { version: 1, weeks: 1, base: 4, markdowns: 12, spacing: 1, first_cut: 100, calendar: false }
{$,"version":2}=>Limits { version: 2, weeks: 1, base: 4, markdowns: 12, spacing: 1, first_cut: 100, calendar: false }
{"version":1,"weeks":1,"base":1,"markdowns":0,"spacing":1,"first_cut":0,"calendar":false}=>Limits { version: 1, weeks: 1, base: 1, markdowns: 0, spacing: 1, first_cut: 0, calendar: false }
{"calendar":true,"first_cut":100,"spacing":12,"markdowns":12,"base":1000000,"weeks":52,"version":3}=>Limits { version: 3, weeks: 52, base: 1000000, markdowns: 12, spacing: 12, first_cut: 100, calendar: true }"#;

// The limits that a file reads to, or its refusal.
fn limits_of(alloc: Global, file: &[u8]) -> Result<String, AllocError> {
    if file.len() > 1000 {
        return String::from_str(alloc, "too long");
    }
    match read_limits(alloc, file) {
        Ok(limits) => format!(in alloc; "{limits:?}"),
        Err(error) => refusal(alloc, error),
    }
}

pub(crate) fn are_limits(alloc: Global, case: &str) -> Result<bool, AllocError> {
    let (file, want) = sides(case);
    let file = file_of(alloc, file, WEEKS_AND_BASE)?;
    Ok(limits_of(alloc, &file)?.as_str() == want)
}

#[test]
fn limits(rt: HostRuntime) -> Result<(), Fail> {
    assert_cases(&rt, rt.alloc(), Kind::Limits, REFUSED)?;
    assert_cases(&rt, rt.alloc(), Kind::Limits, LIMITS)
}

// How many arrays stand one in another, and how an object is refused whose weeks they are.
const NESTED: &str = "1=>0 2 Number
126=>0 2 Number
127=>0 0 Json
128=>0 0 Json";

pub(crate) fn are_nested(alloc: Global, case: &str) -> Result<bool, AllocError> {
    let (arrays, want) = sides(case);
    let arrays = arrays.parse::<usize>().unwrap_or(0);
    let mut text = "[".repeat(alloc, arrays)?;
    text.push_str(&"]".repeat(alloc, arrays)?)?;
    let file = file_of(alloc, r#"{"weeks":$,"base":4}"#, &text)?;
    Ok(limits_of(alloc, &file)?.as_str() == want)
}

#[test]
fn nested_arrays(rt: HostRuntime) -> Result<(), Fail> {
    assert_cases(&rt, rt.alloc(), Kind::Nested, NESTED)
}

// What stands for `$` in a calendar file.
const COLUMNS: &str = "week,from,to,frozen\n";

// Calendar files for four weeks, and where and why they are refused.
const CALENDARS: &str = r#"$x,1,12,0|1,1,12|=>2 0 Fields
$1,1,12,0,0|=>1 0 Fields
$x,x,x,x|=>1 1 Number
$-1,1,12,0|=>1 1 Number
$0,x,12,0|=>1 1 Range
$5,1,12,0|=>1 1 Range
$4,1,12,0|5,1,12,0|=>2 1 Range
$1,,0,0|=>1 2 Number
$1,0,x,0|=>1 2 Range
$1,13,13,0|=>1 2 Range
$1,13,12,0|=>1 2 Range
$1,3,x,0|=>1 3 Number
$1,3,0,0|=>1 3 Range
$1,1,13,2|=>1 3 Range
$1,3,2,0|=>1 3 Order
$1,12,11,2|=>1 3 Order
$1,3,3,0|2,3,2,x|=>2 3 Order
$1,1,12,|=>1 4 Number
$1,1,12,true|=>1 4 Number
$1,1,12,2|=>1 4 Range
$1,1,12,0|1,1,12,0|=>2 0 Repeat { first_row: 1 }
$3,1,12,0|2,1,12,0||"02",2,2,1|=>3 0 Repeat { first_row: 2 }
$1,1,1,0|2,1,1,0|2,1,1,0|1,1,1,0|=>3 0 Repeat { first_row: 2 }
$1,1,12,0|1,3,2,0|=>2 3 Order
$1,1,12,0|1,1,12,2|=>2 4 Range
$1,1,12,0|2,x,12,0|2,1,12,0|=>2 2 Number
$4,1,12,0|3,1,12,0|2,1,12,0|1,1,12,0|3,1,12,1|=>5 0 Repeat { first_row: 2 }
=>0 0 Header
1,1,12,0|=>0 0 Header
week,to,from,frozen|1,1,12,0|=>0 0 Header
week,from,to|1,1,12|=>0 0 Header"#;

// Calendar files for three weeks, and what is shown of them.
const READ: &str = r#"week,from,to,frozen=>1-12 1-12 1-12
$|=>1-12 1-12 1-12
$2,3,5,1|=>1-12 3-5* 1-12
$3,1,1,0|1,12,12,1|2,4,4,0|=>12-12* 4-4 1-1
@ week ,"from",to~,frozen^|^|" 3" , 02,"11" ,1^|=>1-12 1-12 2-11*
$1,1,12,0|=>1-12 1-12 1-12"#;

// The weeks of a calendar, each as its least rung, its greatest one, and a star where it is frozen.
fn shown(alloc: Global, calendar: &Calendar) -> Result<String, AllocError> {
    let mut text = String::new(alloc);
    for index in 0..calendar.len() {
        let week = index + 1;
        text.push_str(if index > 0 { " " } else { "" })?;
        write!(text, "{}-{}", calendar.from(week), calendar.to(week))?;
        text.push_str(if calendar.frozen(week) { "*" } else { "" })?;
    }
    Ok(text)
}

// What is shown of a calendar file for so many weeks, or its refusal.
fn calendar_of(alloc: Global, file: &str, weeks: u32) -> Result<String, AllocError> {
    let file = file_of(alloc, file, COLUMNS)?;
    if file.len() > 1000 || weeks < 1 || weeks > 52 {
        return String::from_str(alloc, "too long");
    }
    match read_calendar(alloc, &file, weeks) {
        Ok(calendar) => shown(alloc, &calendar),
        Err(error) => refusal(alloc, error),
    }
}

pub(crate) fn is_calendar(alloc: Global, case: &str, weeks: u32) -> Result<bool, AllocError> {
    let (file, want) = sides(case);
    Ok(calendar_of(alloc, file, weeks)?.as_str() == want)
}

#[test]
fn calendars(rt: HostRuntime) -> Result<(), Fail> {
    assert_cases(&rt, rt.alloc(), Kind::FourWeeks, CALENDARS)?;
    assert_cases(&rt, rt.alloc(), Kind::ThreeWeeks, READ)
}

// Whether a calendar of 52 weeks is read whose last one alone has a row.
fn has_last_of_52(alloc: Global) -> Result<bool, AllocError> {
    let others = "1-12 ".repeat(alloc, 51)?;
    let found = calendar_of(alloc, "$52,2,2,0|", 52)?;
    Ok(found.strip_prefix(others.as_str()) == Some("2-2"))
}

#[test]
fn longest_calendar(rt: HostRuntime) -> Result<(), Fail> {
    let alloc = rt.alloc();
    assert!(rt; has_last_of_52(alloc)?);
    assert!(rt; is_calendar(alloc, "$52,2,2,0|=>1 1 Range", 51)?);
    assert!(rt; is_calendar(alloc, "$1,2,2,0|=>2-2", 1)?);
    Ok(())
}
