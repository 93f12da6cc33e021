// Limits, faults, absent files and words: how `run` ends without a report.
use crate::cases::{
    Answer, Failing, Held, SMALLEST, SMALLEST_REPORT, bytes_of, held, is_answered_on_disk,
    is_line_told, is_told, is_told_on_disk, line_of, number_of, put_file, run_on, unanswered,
    write_files,
};
use crate::ending::Status;
use clr_io::MemoryShelf;
use std::alloc::{AllocError, Global};
use std::fs;
use std::rt::Files as RealFiles;
use std::test::Fail;

const ENDINGS: &str = r#"# Absent files.
- rules.json
calendar.csv week,from,to,frozen|
= 10 absent: rules.json

rules.json {"weeks":1,"base":4,"calendar":true}
- calendar.csv
= 10 absent: calendar.csv

rules.json {"weeks":1,"base":4,"calendar":true}
calendar.csv week,from,to,frozen|
- ladder.csv
= 10 absent: ladder.csv

rules.json {"weeks":1,"base":4,"calendar":true}
calendar.csv week,from,to,frozen|
- stock.csv
= 10 absent: stock.csv

rules.json {"weeks":1,"base":4,"calendar":true}
calendar.csv week,from,to,frozen|
- demand.csv
= 10 absent: demand.csv

# Without `calendar` in the rules there need be no calendar.
- calendar.csv
= 0 season 1 stores 1 weeks 1 rungs base 4|path 1|prices 10.00|revenue 8.00000000 8.00000000|best yes|bound 8.00000000 step 0|gap 0.00000000|exact 8.00000000 8.00000000 first 1|

# What stands before an absent file is judged first, and what stands behind it is not.
ladder.csv
- stock.csv
demand.csv
= 1 refused: ladder.csv header

- rules.json
ladder.csv
demand.csv
= 10 absent: rules.json

# Rules with arrays nested 128 deep.
rules.json {"weeks":1,"base":4,"x":[[[[[[[[[[[[[[[[[[[[[[[[[[[[[[[[[[[[[[[[[[[[[[[[[[[[[[[[[[[[[[[[[[[[[[[[[[[[[[[[[[[[[[[[[[[[[[[[[[[[[[[[[[[[[[[[[[[[[[[[[[[[[[[[]]]]]]]]]]]]]]]]]]]]]]]]]]]]]]]]]]]]]]]]]]]]]]]]]]]]]]]]]]]]]]]]]]]]]]]]]]]]]]]]]]]]]]]]]]]]]]]]]]]]]]]]]]]]]]]]]]]]]]]]]]]]]]]]}
= 1 refused: rules.json json

# Two stores of which nothing is asked for. There are 53 * 12 * 12 * 1 cells a stock: 15,996,672 at 2000 and 94 units, and 16,004,304
# at 2000 and 95.
rules.json {"weeks":52,"base":1}
ladder.csv rung,price|1,12|2,11|3,10|4,9|5,8|6,7|7,6|8,5|9,4|10,3|11,2|12,1|
stock.csv store,units,salvage|a,2000,1|b,94,1|
demand.csv store,week,rung,units,weight|<$ 1 52 <& 1 12 a,$,&,0,1|b,$,&,0,1|>>
> plan f --steps 1 --nodes 0
= 0 ..revenue 2094.00000000 2094.00000000|best open|bound 2094.00000000 step 0|gap 0.00000000|

rules.json {"weeks":52,"base":1}
ladder.csv rung,price|1,12|2,11|3,10|4,9|5,8|6,7|7,6|8,5|9,4|10,3|11,2|12,1|
stock.csv store,units,salvage|a,2000,1|b,95,1|
demand.csv store,week,rung,units,weight|<$ 1 52 <& 1 12 a,$,&,0,1|b,$,&,0,1|>>
> plan f --steps 1 --nodes 0
= 6 limit: cells 16004304

# Words.
>
= 2 usage: clearance plan|check|judge|make FOLDER [--steps N] [--step N] [--nodes N] [--cert NAME] [--seed N]

> plan
= 2 usage: clearance plan|check|judge|make FOLDER [--steps N] [--step N] [--nodes N] [--cert NAME] [--seed N]

> paint f
= 2 usage: clearance plan|check|judge|make FOLDER [--steps N] [--step N] [--nodes N] [--cert NAME] [--seed N]

> plan -f
= 2 usage: clearance plan|check|judge|make FOLDER [--steps N] [--step N] [--nodes N] [--cert NAME] [--seed N]

> plan f g
= 2 usage: clearance plan|check|judge|make FOLDER [--steps N] [--step N] [--nodes N] [--cert NAME] [--seed N]

> plan f --steps 101
= 2 usage: clearance plan|check|judge|make FOLDER [--steps N] [--step N] [--nodes N] [--cert NAME] [--seed N]

> check f
= 10 absent: certificate

> judge f
= 10 absent: policy.json

> plan e
= 10 absent: rules.json

> plan --steps 3 f --step=2 --nodes 1 --seed 7
= 0 season 1 stores 1 weeks 1 rungs base 4|path 1|prices 10.00|revenue 8.00000000 8.00000000|best yes|bound 8.00000000 step 0|gap 0.00000000|exact 8.00000000 8.00000000 first 1|"#;

// What the words ask of the smallest season with these faults of the sinks.
fn failed(alloc: Global, words: &str, failing: Failing) -> Result<Answer, AllocError> {
    let files = held(alloc, "f", SMALLEST, "")?;
    let mut shelf = MemoryShelf::new(files, 1000, Vec::new(alloc));
    run_on(alloc, words, &mut shelf, failing)
}

// A note that can't be written changes no status.
fn is_unnoted(alloc: Global) -> Result<bool, AllocError> {
    let answer = failed(alloc, "plan", Failing { report: 0, note: 1 })?;
    Ok(answer.status == Status::Words && answer.note.bytes().is_empty())
}

#[test]
fn endings_are_told(rt: HostRuntime) -> Result<(), Fail> {
    let wrong = unanswered(rt.alloc(), SMALLEST, ENDINGS)?;
    assert!(rt; wrong.is_none(), "{wrong:?}");
    assert!(rt; is_unnoted(rt.alloc())?);
    Ok(())
}

// The smallest season with line feeds behind its demand, so many bytes in all.
fn padded(alloc: Global, count: usize) -> Result<Held, AllocError> {
    let mut text = bytes_of(alloc, line_of(SMALLEST, "demand.csv ").unwrap_or(""))?;
    let feeds = vec![in alloc; b'\n'; count.saturating_sub(text.len())]?;
    text.extend_from_slice(&feeds)?;
    let mut files = held(alloc, "long", SMALLEST, "- demand.csv")?;
    put_file(alloc, &mut files, "long", "demand.csv", text)?;
    Ok(files)
}

// The demand of a line's length is answered as it tells behind `=`, over the memory and over a real folder, which is there.
fn is_length_told(rt: &impl RealFiles, alloc: Global, line: &str) -> Result<bool, Fail> {
    let (length, told) = line.split_once('=').unwrap_or((line, ""));
    let files = padded(alloc, number_of(length) as usize)?;
    write_files(rt, &files)?;
    let is_told = is_told(alloc, "plan long", files, 1_000_000, 0, told)?;
    Ok(is_told && is_told_on_disk(rt, alloc, "plan long", told)?)
}

// The longest demand, and one that is longer.
const LENGTHS: &str =
    "33554432=0 season 1 stores 1 weeks 1 rungs base 4|path 1|prices 10.00|revenue 8.00000000 8.00000000|best yes|bound 8.00000000 step 0|gap 0.00000000|exact 8.00000000 8.00000000 first 1|
33554433=6 limit: demand.csv longer than 33554432";

#[test]
fn long_files_are_told(rt: HostRuntime) -> Result<(), Fail> {
    fs::create_dir(&rt, "long")?;
    for line in LENGTHS.lines() {
        assert!(rt; is_length_told(&rt, rt.alloc(), line)?, "{line}");
    }
    Ok(())
}

const WHOLE: &str =
    "= 0 season 1 stores 1 weeks 1 rungs base 4|path 1|prices 10.00|revenue 8.00000000 8.00000000|best yes|bound 8.00000000 step 0|gap 0.00000000|exact 8.00000000 8.00000000 first 1|";

// Makes a folder from which a file was taken away once its plan was reported, and one with a folder in the place of a file, which
// opens and can't be read.
fn make_folders(rt: &impl RealFiles, alloc: Global) -> Result<bool, Fail> {
    fs::create_dir(rt, "lacking")?;
    let is_whole = is_answered_on_disk(rt, alloc, "lacking", SMALLEST, WHOLE)?;
    fs::remove_file(rt, "lacking/demand.csv")?;
    fs::create_dir(rt, "odd")?;
    fs::create_dir(rt, "odd/rules.json")?;
    Ok(is_whole)
}

// What is told of the plans of these folders; the first isn't there.
const FOLDERS: &str = "plan missing=10 absent: rules.json
plan lacking=10 absent: demand.csv
plan odd=4 read fault: rules.json";

#[test]
fn real_folders_lack_files(rt: HostRuntime) -> Result<(), Fail> {
    assert!(rt; make_folders(&rt, rt.alloc())?);
    for line in FOLDERS.lines() {
        assert!(rt; is_line_told(&rt, rt.alloc(), line)?, "{line}");
    }
    Ok(())
}

// What is told where this call on the shelf fails: there are four files, of four calls each, but for the last, of six.
fn told_of_fault(fail: u64) -> &'static str {
    match fail {
        1..=4 => "4 read fault: rules.json",
        5..=8 => "4 read fault: ladder.csv",
        9..=12 => "4 read fault: stock.csv",
        13..=18 => "4 read fault: demand.csv",
        _ => {
            "0 season 1 stores 1 weeks 1 rungs base 4|path 1|prices 10.00|revenue 8.00000000 8.00000000|best yes|bound 8.00000000 step 0|gap 0.00000000|exact 8.00000000 8.00000000 first 1|"
        }
    }
}

// That is told where the call fails.
fn is_shelf_fault_told(alloc: Global, fail: u64) -> Result<bool, AllocError> {
    let files = held(alloc, "f", SMALLEST, "")?;
    is_told(alloc, "plan f", files, 16, fail, told_of_fault(fail))
}

// Where this call on the report's sink fails, what the calls before it wrote stands, 16 bytes a call, and the note of the fault.
fn is_sink_fault_told(alloc: Global, fail: u64) -> Result<bool, AllocError> {
    let failing = Failing {
        report: fail,
        note: 0,
    };
    let answer = failed(alloc, "plan f", failing)?;
    let report = bytes_of(alloc, SMALLEST_REPORT)?;
    let stands = (fail as usize).saturating_sub(1).saturating_mul(16);
    Ok(if stands < report.len() {
        answer.breaks_off(&report, stands)
    } else {
        answer.reports(&report)
    })
}

#[test]
fn each_call_fails_once(rt: HostRuntime) -> Result<(), Fail> {
    for fail in 1..=19 {
        assert!(rt; is_shelf_fault_told(rt.alloc(), fail)?, "shelf {fail}");
    }
    for fail in 1..=12 {
        assert!(rt; is_sink_fault_told(rt.alloc(), fail)?, "sink {fail}");
    }
    Ok(())
}

// The statuses by their numbers from 0.
const STATUSES: [Status; 11] = [
    Status::Ok,
    Status::Refused,
    Status::Words,
    Status::NoPath,
    Status::ReadFault,
    Status::WriteFault,
    Status::Limit,
    Status::CertificateNo,
    Status::Memory,
    Status::PolicyNo,
    Status::Absent,
];

#[test]
fn statuses_have_their_numbers(rt: HostRuntime) {
    for (number, status) in STATUSES.iter().enumerate() {
        assert!(rt; usize::from(status.number()) == number, "{number}");
    }
}
