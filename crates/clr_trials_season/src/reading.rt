// What policy files read to, and their first faults.
use crate::seasons::{bytes_of, shows, sides};
use clr_policy::{objects, read_policy};
use clr_season::Season;
use std::alloc::{AllocError, Global};
use std::test::Fail;

// Policy files, and the number of their rungs and tests, or their first fault. A line that begins with `#` is a heading.
const FILES: &str = r#"# A rung for each of two weeks, and nothing after them.
{"rung":1,"then":{"rung":2}}=>Ok(2)
{"rung":1,"then":{"rung":2,"then":null}}=>Ok(2)
@{"rung":1,"then":{"rung":2}}=>Ok(2)
# Of a field that stands twice the last counts.
{"rung":3,"rung":1,"then":{"rung":2}}=>Ok(2)
# Too few rungs, too many, and none of the ladder.
{"rung":1}=>Err(Shape { branch: 1 })
{"rung":1,"then":null}=>Err(Shape { branch: 1 })
{"rung":1,"then":{"rung":1,"then":{"rung":1}}}=>Err(Shape { branch: 1 })
{"rung":3}=>Err(Shape { branch: 1 })
{"rung":0,"then":{"rung":1}}=>Err(Shape { branch: 1 })
{"rung":1.0,"then":{"rung":1}}=>Err(Shape { branch: 1 })
# Another field, and values that are no objects.
{"rung":1,"then":{"rung":2},"price":1}=>Err(Shape { branch: 1 })
null=>Err(Shape { branch: 1 })
[]=>Err(Shape { branch: 1 })
# Tests: of a store that isn't there, before what stands below it; and before that, of no text.
{"store":"b","left_at_most":1,"yes":{},"no":{}}=>Err(Unknown { branch: 1 })
{"store":"b","left_at_most":2001,"yes":{},"no":{}}=>Err(Unknown { branch: 1 })
{"store":1,"left_at_most":1,"yes":{},"no":{}}=>Err(Shape { branch: 1 })
{"store":"b","left_at_most":1,"yes":{}}=>Err(Shape { branch: 1 })
{"store":"a","left_at_most":2001,"yes":{"rung":1,"then":{"rung":1}},"no":{"rung":1,"then":{"rung":1}}}=>Err(Shape { branch: 1 })
{"store":"a","left_at_most":2000,"yes":{"rung":1,"then":{"rung":1}},"no":{"rung":1,"then":{"rung":1}}}=>Ok(5)
# In the second branch.
{"rung":1,"then":{"store":"a","left_at_most":1,"yes":{"rung":1},"no":{}}}=>Err(Shape { branch: 2 })
{"rung":1,"then":{"store":"a","left_at_most":1,"yes":{"rung":1},"no":null}}=>Err(Shape { branch: 2 })
{"rung":1,"then":{"store":"a","left_at_most":1,"yes":{"rung":1},"no":{"store":"A","left_at_most":1,"yes":{},"no":{}}}}=>Err(Unknown { branch: 2 })
# No JSON text.
[=>Err(Json)
=>Err(Json)"#;

// The number of rungs and tests of a policy file, or its first fault.
fn read_of(alloc: Global, season: &Season, file: &str) -> Result<String, AllocError> {
    let file = bytes_of(alloc, file)?;
    if file.len() > 100_000 {
        return String::from_str(alloc, "too long");
    }
    let found = match read_policy(alloc, season, &file) {
        Ok(policy) => Ok(objects(&policy)),
        Err(error) => Err(error),
    };
    format!(in alloc; "{found:?}")
}

fn is_read(alloc: Global, case: &str) -> Result<bool, Fail> {
    if case.starts_with('#') {
        return Ok(true);
    }
    let (file, want) = sides(case);
    shows(alloc, "", read_of, file, want)
}

#[test]
fn policies_read_to_their_objects_or_faults(rt: HostRuntime) -> Result<(), Fail> {
    for case in FILES.lines() {
        assert!(rt; is_read(rt.alloc(), case)?, "{case}");
    }
    Ok(())
}

// So many tests, each in the `no` of the one before, and rung 1 in both weeks at each end.
fn nested(alloc: Global, tests: u32) -> Result<String, AllocError> {
    let mut text = String::new(alloc);
    for _ in 0..tests {
        text.push_str(r#"{"store":"a","left_at_most":0,"yes":{"rung":1,"then":{"rung":1}},"no":"#)?;
    }
    text.push_str(r#"{"rung":1,"then":{"rung":1}}"#)?;
    for _ in 0..tests {
        text.push_str("}")?;
    }
    Ok(text)
}

fn nested_reads_to(alloc: Global, tests: u32, want: &str) -> Result<bool, Fail> {
    let file = nested(alloc, tests)?;
    shows(alloc, "", read_of, file.as_str(), want)
}

// 125 tests and two rungs below them nest 127 deep, and have 125 + 2 * 126 objects.
#[test]
fn policies_nest_127_deep(rt: HostRuntime) -> Result<(), Fail> {
    assert!(rt; nested_reads_to(rt.alloc(), 125, "Ok(377)")?);
    assert!(rt; nested_reads_to(rt.alloc(), 126, "Err(Json)")?);
    Ok(())
}
